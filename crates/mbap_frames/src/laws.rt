//! Laws of streams, and of any list of calls of `feed`.
ghost use Rattle.std.specs.Prelude.{◌≡◌, ◌↔◌, ℕ, List, [], ◌++◌, Any, length, drop};
ghost use Rattle.std.specs.List.{AllByRecursion};
ghost use Rattle.modbus_pdu.specs.Grammar.{IsByte};
ghost use Rattle.mbap_frames.specs.declared.frame.Frame.{Frame};
ghost use Rattle.mbap_frames.specs.declared.frame.FrameFault.{FrameFault};
ghost use Rattle.mbap_frames.specs.declared.frames.Fed.{Fed};
ghost use Rattle.mbap_frames.specs.Frame.{IsFrame};
ghost use Rattle.mbap_frames.specs.Stream.{IsUnfinished, HasFault, fault_end, IsStream};
ghost use Rattle.mbap_frames.specs.Stream.{HasFaultBehind, frames_spelling};
ghost use Rattle.mbap_frames.specs.Feed.{frames_of, IsFed, Feeding, AnswersFault, AreFeedings};
ghost use Rattle.mbap_frames.specs.Feed.{stream_of, frames_among};

use crate::frames::Got;

/// A stream has one reading.
pub fn one_reading_a_stream()
    ensures some { (stream : List ℕ) → AllByRecursion IsByte stream
        → (frames : List Frame) × (rest : List ℕ) × IsStream stream frames rest }
    ensures one { (stream : List ℕ) (frames others : List Frame) (rest end : List ℕ)
        → IsStream stream frames rest → IsStream stream others end
        → (frames ≡ others) × (rest ≡ end) }
{}

/// Frames that are known to stand at the front of a stream, whatever is known of the bytes behind them. A
/// caller that keeps frames and no calls of `feed` goes on from these.
pub fn known_frames_are_first()
    // They are the first frames of the stream, and what stands behind them reads as the later ones.
    ensures behind { (frames others : List Frame) (behind rest : List ℕ)
        → AllByRecursion IsFrame frames → IsStream (frames_spelling frames ++ behind) others rest
        → (later : List Frame) × (others ≡ frames ++ later) × IsStream behind later rest }

    // The other way round, what stands behind them is read on.
    ensures in_front { (frames later : List Frame) (behind rest : List ℕ)
        → AllByRecursion IsFrame frames → IsStream behind later rest
        → IsStream (frames_spelling frames ++ behind) (frames ++ later) rest }

    // A fault that stands behind them is that of the stream, and stays under more bytes.
    ensures fault { (frames : List Frame) (behind : List ℕ) (fault : FrameFault)
        → AllByRecursion IsFrame frames → HasFault behind fault
        → HasFaultBehind (frames_spelling frames ++ behind) frames fault }
    ensures fault_stays { (stream more : List ℕ) (frames : List Frame) (fault : FrameFault)
        → HasFaultBehind stream frames fault → HasFaultBehind (stream ++ more) frames fault }

    // Frames behind frames are frames, and their bytes stand one behind the other.
    ensures all_frames { (frames later : List Frame)
        → AllByRecursion IsFrame frames → AllByRecursion IsFrame later
        → AllByRecursion IsFrame (frames ++ later) }
    ensures all_bytes { (frames later : List Frame)
        → frames_spelling (frames ++ later) ≡ frames_spelling frames ++ frames_spelling later }

    // One call of `feed` puts the frame that it hands out behind the known ones.
    ensures one_call { (frames : List Frame) (kept piece after : List ℕ) (fed : Fed)
        → AllByRecursion IsFrame frames → IsFed kept piece fed after
        → AllByRecursion IsFrame (frames ++ frames_of fed.got)
        × (frames_spelling frames ++ kept ++ piece
        ≡ frames_spelling (frames ++ frames_of fed.got) ++ after ++ drop fed.used piece) }

    // So does any list of calls, and what is kept then is the rest behind them.
    ensures calls { (stream : List ℕ) (frames : List Frame) (feedings : List Feeding) (kept after : List ℕ)
        → IsStream stream frames kept → AreFeedings kept feedings after
        → IsStream (stream ++ stream_of feedings) (frames ++ frames_among feedings) after }

    // Where the bytes of a fault and no more are kept, any calls answer it, use nothing and keep these.
    ensures after_fault { (feedings : List Feeding) (kept after : List ℕ) (fault : FrameFault)
        → HasFault kept fault → length kept ≡ fault_end fault → AreFeedings kept feedings after
        → AllByRecursion (λ feeding. (feeding.fed.used ≡ 0) × AnswersFault fault feeding) feedings
        × (after ≡ kept) }
{}

/// What any list of `feed` calls on a new reader hands out.
pub fn calls_read_the_stream()
    // The frames are those of the stream that the calls have used, and what is kept is the rest behind them.
    ensures frames { (feedings : List Feeding) (kept : List ℕ) → AreFeedings [] feedings kept
        → IsStream (stream_of feedings) (frames_among feedings) kept }

    // With bytes behind it that weren't read yet, they are its first frames, and what is kept begins what
    // stands behind them.
    ensures first { (feedings : List Feeding) (kept unread : List ℕ) (frames : List Frame) (rest : List ℕ)
        → AreFeedings [] feedings kept → IsStream (stream_of feedings ++ unread) frames rest
        → (later : List Frame) × (frames ≡ frames_among feedings ++ later)
        × (kept ++ unread ≡ frames_spelling later ++ rest) }

    // It doesn't matter how the stream was cut.
    ensures any_cut { (feedings others : List Feeding) (kept end : List ℕ)
        → AreFeedings [] feedings kept → AreFeedings [] others end → stream_of feedings ≡ stream_of others
        → (frames_among feedings ≡ frames_among others) × (kept ≡ end) }
{}

/// When any list of `feed` calls on a new reader answers a fault.
pub fn calls_find_the_fault()
    // One of them has answered a fault exactly where the stream that they used has it behind their frames.
    ensures found { (feedings : List Feeding) (kept : List ℕ) (fault : FrameFault)
        → AreFeedings [] feedings kept
        → Any (AnswersFault fault) feedings
        ↔ HasFaultBehind (stream_of feedings) (frames_among feedings) fault }

    // The next call answers a fault exactly where the stream, to the end of its piece, has it behind the
    // frames so far, and asks for more exactly where an unfinished frame stands there.
    ensures bad { (feedings : List Feeding) (kept piece after : List ℕ) (fed : Fed) (fault : FrameFault)
        → AreFeedings [] feedings kept → IsFed kept piece fed after
        → (fed.got ≡ Got.Bad fault)
        ↔ HasFaultBehind (stream_of feedings ++ piece) (frames_among feedings) fault }
    ensures more { (feedings : List Feeding) (kept piece after : List ℕ) (fed : Fed)
        → AreFeedings [] feedings kept → IsFed kept piece fed after
        → (fed.got ≡ Got.More)
        ↔ ((rest : List ℕ) × IsStream (stream_of feedings ++ piece) (frames_among feedings) rest
        × IsUnfinished rest) }

    // From then on each call uses nothing, answers that fault and keeps what was kept.
    ensures for_good { (feedings later : List Feeding) (kept end : List ℕ) (fault : FrameFault)
        → AreFeedings [] feedings kept → Any (AnswersFault fault) feedings → AreFeedings kept later end
        → AllByRecursion (λ feeding. (feeding.fed.used ≡ 0) × AnswersFault fault feeding) later
        × (end ≡ kept) }
{}
