ghost use Rattle.std.specs.Prelude.{◌≡◌, ◌⊎◌, ◌<◌, ◌≤◌, ℕ, List, IfSome, None, Some, length};
ghost use Rattle.std.specs.Io.KnownBytes.{IsAtEnd};
ghost use Rattle.busbars.specs.declared.bus.BusFault.{BusFault};
ghost use Rattle.site_config.specs.declared.fault.SiteFault.{SiteFault};
ghost use Rattle.script_text.specs.declared.line.LineKind.{LineKind};
ghost use Rattle.stream_io.specs.Streams.{Change, Fails, GainsFront, GainsText};
ghost use Rattle.command_io.specs.declared.ended.Ended.{Ended};
ghost use Rattle.script_command.specs.Ends.{input_limit, IsReadWhole};
ghost use Rattle.nested_replay.specs.Nested.{IsFirstBadNested};
ghost use Rattle.nested_replay.specs.Replay.{IsBusRefused, IsNestedReplay};
ghost use Rattle.nested_command.specs.Nested.{HasBadSite, IsNestedEnd, IsNestedText, TellsSafeLife};

/// What the end of a replay of an input with buses says of the bytes that its input told, and of its output.
pub fn what_a_nested_replay_says()
    // The causes of the ends.
    ensures bad_line { (read : List ℕ) (input output : Change) (line : ℕ) (kind : LineKind)
        → IsNestedEnd (Ended.BadLine line kind) read input output
        → IfSome input.old (λ bytes. IsFirstBadNested bytes line kind) }
    ensures bad_site { (read : List ℕ) (input output : Change) (fault : SiteFault)
        → IsNestedEnd (Ended.BadSite fault) read input output
        → IfSome input.old (λ bytes. HasBadSite bytes fault) }
    ensures bad_bus { (read : List ℕ) (input output : Change) (fault : BusFault)
        → IsNestedEnd (Ended.BadBus fault) read input output
        → IfSome input.old (λ bytes. IsBusRefused bytes fault) }
    ensures too_long { (read : List ℕ) (input output : Change) (limit : ℕ)
        → IsNestedEnd (Ended.TooLong limit) read input output
        → (limit ≡ input_limit) × IfSome input.old (λ bytes. limit < length bytes) }
    ensures read_fault { (read : List ℕ) (input output : Change) → IsNestedEnd Ended.ReadFault read input output
        → Fails input }
    ensures write_fault { (read : List ℕ) (input output : Change) → IsNestedEnd Ended.WriteFault read input output
        → Fails output }

    // The input was within its limit, and read to its end.
    ensures within { (ended : Ended) (read : List ℕ) (input output : Change) → IsNestedEnd ended read input output
        → IsReadWhole ended
        → IfSome input.old (λ bytes. length bytes ≤ input_limit) × IsAtEnd input.new }

    // What the output gained: what was done of the calls, or a front of it where a write failed. The life that it tells
    // of is safe, and what the inverters of each bus hold is at most its cap, at every moment.
    ensures gained { (read : List ℕ) (input output : Change) → IsNestedEnd Ended.Done read input output
        → IfSome input.old (λ bytes. GainsText (IsNestedReplay bytes None) output) }
    ensures gained_full { (read : List ℕ) (input output : Change) (calls : ℕ)
        → IsNestedEnd (Ended.BookFull calls) read input output
        → IfSome input.old (λ bytes. GainsText (IsNestedReplay bytes (Some calls)) output) }
    ensures gained_front { (read : List ℕ) (input output : Change) → IsNestedEnd Ended.WriteFault read input output
        → IfSome input.old (λ bytes. GainsFront (IsNestedText bytes) output) }
    ensures safe_life { (ended : Ended) (read : List ℕ) (input output : Change) → IsNestedEnd ended read input output
        → (ended ≡ Ended.Done) ⊎ ((calls : ℕ) × (ended ≡ Ended.BookFull calls)) → GainsText TellsSafeLife output }
{}
