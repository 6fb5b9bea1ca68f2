//! Frames out of a stream.
ghost use Rattle.std.specs.Prelude.{◌≡◌, [], ◌++◌, ◌<◌, ◌↔◌, length};
ghost use Rattle.mbap_frames.specs.declared.frame.Frame.{Frame};
ghost use Rattle.mbap_frames.specs.declared.frame.FrameFault.{FrameFault};
ghost use Rattle.mbap_frames.specs.Frame.{Begins, frame_limit};
ghost use Rattle.mbap_frames.specs.Stream.{IsUnfinished, HasFault};
ghost use Rattle.mbap_frames.specs.Feed.{IsFed};
ghost use Rattle.mbap_frames.specs.Gathering.{IsKept};

use crate::frame::{Frame, FrameBytes, FrameFault};
use crate::gathering::{frame_of, gather, next_look};
use std::marker::Model;

/// What a call of `feed` came to.
#[derive(Debug, PartialEq, Eq, Drop)]
pub enum Got {
    /// The frame isn't whole yet.
    More,
    /// The next frame of the stream.
    One(Frame),
    /// The stream can't be read on.
    Bad(FrameFault),
}

/// What a call of `feed` did.
#[derive(Debug, PartialEq, Eq, Drop)]
pub struct Fed {
    /// How many bytes of the piece were used. The others are to be fed again.
    pub used: usize,
    /// What the bytes so far came to.
    pub got: Got,
}

/// Reads frames from a stream that comes in pieces. Contracts see the bytes that it keeps: those that came of
/// a frame which isn't whole, or those that show a fault.
#[derive(Debug, Drop)]
pub struct Frames {
    kept: FrameBytes,
}

impl Model for Frames {
    ghost use Rattle.std.specs.Prelude.{List, ℕ};
    ghost use Rattle.mbap_frames.specs.Gathering.{IsKept};

    ghost Value = { List ℕ };

    ghost view = { λ frames. frames.kept };

    ghost invariant = { λ frames. IsKept frames.kept };
}

impl Frames {
    /// A reader at the start of a stream.
    pub fn new() -> Frames
        ensures { result ≡ [] }
    {
        Frames {
            kept: FrameBytes::new(),
        }
    }

    /// Takes the next bytes of the stream, up to the end of the first whole frame, or up to the bytes that
    /// show a fault. Those of the piece that it didn't use are fed again. After a fault it uses none, and
    /// answers that fault.
    pub fn feed(&mut self, piece: &[u8]) -> Fed
        // What was kept and the piece are the frame, what is kept now and what wasn't used.
        ensures step { IsFed self.old piece.now result self.new }

        // The answer is what stands first in what was kept and the piece.
        ensures more { (result.got ≡ Got.More) ↔ IsUnfinished (self.old ++ piece.now) }
        ensures one { (frame : Frame) → (result.got ≡ Got.One frame) ↔ Begins (self.old ++ piece.now) frame }
        ensures bad { (fault : FrameFault)
            → (result.got ≡ Got.Bad fault) ↔ HasFault (self.old ++ piece.now) fault }

        // A fault stands for good.
        ensures after_fault { (fault : FrameFault) → HasFault self.old fault
            → (result.used ≡ 0) × (result.got ≡ Got.Bad fault) × (self.new ≡ self.old) }

        // Less than one frame is kept.
        ensures bound { length self.new < frame_limit }
    {
        take_piece(&mut self.kept, piece)
    }
}

// Feeds a piece to what is kept of a frame.
fn take_piece(kept: &mut FrameBytes, piece: &[u8]) -> Fed
    requires { IsKept kept.old }
    ensures step { IsFed kept.old piece.now result kept.new }
    ensures kept { IsKept kept.new }
{
    let used = gather(kept, piece);
    match next_look(kept.as_slice()) {
        Ok(end) if kept.len() < end => Fed {
            used,
            got: Got::More,
        },
        Ok(_) => {
            let frame = frame_of(kept.as_slice());
            *kept = FrameBytes::new();
            Fed {
                used,
                got: Got::One(frame),
            }
        }
        Err(fault) => Fed {
            used,
            got: Got::Bad(fault),
        },
    }
}
