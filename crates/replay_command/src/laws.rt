ghost use Rattle.std.specs.Prelude.{◌≡◌, ◌⊎◌, ◌<◌, ◌≤◌, ℕ, List, IfSome, None, Some, length};
ghost use Rattle.std.specs.Io.KnownBytes.{IsAtEnd};
ghost use Rattle.site_config.specs.declared.fault.SiteFault.{SiteFault};
ghost use Rattle.script_text.specs.declared.line.LineKind.{LineKind};
ghost use Rattle.script_text.specs.Script.{IsFirstBadLine};
ghost use Rattle.script_replay.specs.Replay.{IsReplay};
ghost use Rattle.stream_io.specs.Streams.{Change, Fails, GainsFront, GainsText};
ghost use Rattle.command_io.specs.declared.ended.Ended.{Ended};
ghost use Rattle.script_command.specs.Ends.{input_limit};
ghost use Rattle.replay_command.specs.Replay.{HasBadSite, IsReplayEnd, IsReplayText, TellsSafeLives};

/// What the end of a replay says of the bytes that its input told, and of its output.
pub fn what_a_replay_says()
    // The causes of the ends.
    ensures bad_line { (read : List ℕ) (input output : Change) (line : ℕ) (kind : LineKind)
        → IsReplayEnd (Ended.BadLine line kind) read input output
        → IfSome input.old (λ bytes. IsFirstBadLine bytes line kind) }
    ensures bad_site { (read : List ℕ) (input output : Change) (fault : SiteFault)
        → IsReplayEnd (Ended.BadSite fault) read input output
        → IfSome input.old (λ bytes. HasBadSite bytes fault) }
    ensures too_long { (read : List ℕ) (input output : Change) (limit : ℕ)
        → IsReplayEnd (Ended.TooLong limit) read input output
        → (limit ≡ input_limit) × IfSome input.old (λ bytes. limit < length bytes) }
    ensures read_fault { (read : List ℕ) (input output : Change) → IsReplayEnd Ended.ReadFault read input output
        → Fails input }
    ensures write_fault { (read : List ℕ) (input output : Change) → IsReplayEnd Ended.WriteFault read input output
        → Fails output }

    // The input was within its limit, and read to its end.
    ensures within { (ended : Ended) (read : List ℕ) (input output : Change) → IsReplayEnd ended read input output
        → (ended ≡ Ended.Done) ⊎ (ended ≡ Ended.WriteFault)
        ⊎ ((line : ℕ) × (kind : LineKind) × (ended ≡ Ended.BadLine line kind))
        ⊎ ((fault : SiteFault) × (ended ≡ Ended.BadSite fault)) ⊎ ((calls : ℕ) × (ended ≡ Ended.BookFull calls))
        → IfSome input.old (λ bytes. length bytes ≤ input_limit) × IsAtEnd input.new }

    // What the output gained: the text of the lives, or a front of it where a write failed. The lives that it tells of
    // are those of a plant that was commissioned, and safe at every moment.
    ensures gained { (read : List ℕ) (input output : Change) → IsReplayEnd Ended.Done read input output
        → IfSome input.old (λ bytes. GainsText (IsReplay bytes None) output) }
    ensures gained_full { (read : List ℕ) (input output : Change) (calls : ℕ)
        → IsReplayEnd (Ended.BookFull calls) read input output
        → IfSome input.old (λ bytes. GainsText (IsReplay bytes (Some calls)) output) }
    ensures gained_front { (read : List ℕ) (input output : Change) → IsReplayEnd Ended.WriteFault read input output
        → IfSome input.old (λ bytes. GainsFront (IsReplayText bytes) output) }
    ensures safe_lives { (ended : Ended) (read : List ℕ) (input output : Change) → IsReplayEnd ended read input output
        → (ended ≡ Ended.Done) ⊎ ((calls : ℕ) × (ended ≡ Ended.BookFull calls)) → GainsText TellsSafeLives output }
{}
