ghost use Rattle.std.specs.Prelude.{◌≡◌, ◌<◌, ◌≤◌, ℕ, List, Option, IfSome, None, Some, length};
ghost use Rattle.std.specs.Io.KnownBytes.{IsAtEnd};
ghost use Rattle.busbars.specs.declared.bus.BusFault.{BusFault};
ghost use Rattle.site_config.specs.declared.fault.SiteFault.{SiteFault};
ghost use Rattle.script_text.specs.declared.line.LineKind.{LineKind};
ghost use Rattle.stream_io.specs.Streams.{Change, Fails, GainsFront, GainsText};
ghost use Rattle.command_io.specs.declared.ended.Ended.{Ended as Ending};
ghost use Rattle.script_command.specs.Ends.{input_limit, IsReadWhole, IsScriptEnd};

use crate::script::Script;
use command_io::Ended;

/// What the end of a command that is given a script says of the bytes that its input told, and of its output.
pub fn what_a_script_says<T: Script>()
    // The causes of the ends.
    ensures bad_line { (read : List ℕ) (input output : Change) (line : ℕ) (kind : LineKind)
        → IsScriptEnd T.text T.refuses (Ended.BadLine line kind) read input output
        → IfSome input.old (λ bytes. T.refuses bytes (Ended.BadLine line kind)) }
    ensures bad_site { (read : List ℕ) (input output : Change) (fault : SiteFault)
        → IsScriptEnd T.text T.refuses (Ended.BadSite fault) read input output
        → IfSome input.old (λ bytes. T.refuses bytes (Ended.BadSite fault)) }
    ensures bad_bus { (read : List ℕ) (input output : Change) (fault : BusFault)
        → IsScriptEnd T.text T.refuses (Ended.BadBus fault) read input output
        → IfSome input.old (λ bytes. T.refuses bytes (Ended.BadBus fault)) }
    ensures too_long { (read : List ℕ) (input output : Change) (limit : ℕ)
        → IsScriptEnd T.text T.refuses (Ended.TooLong limit) read input output
        → (limit ≡ input_limit) × IfSome input.old (λ bytes. limit < length bytes) }
    ensures read_fault { (read : List ℕ) (input output : Change)
        → IsScriptEnd T.text T.refuses Ended.ReadFault read input output → Fails input }
    ensures write_fault { (read : List ℕ) (input output : Change)
        → IsScriptEnd T.text T.refuses Ended.WriteFault read input output → Fails output }

    // The input was within its limit, and read to its end.
    ensures within { (ended : Ending) (read : List ℕ) (input output : Change)
        → IsScriptEnd T.text T.refuses ended read input output → IsReadWhole ended
        → IfSome input.old (λ bytes. length bytes ≤ input_limit) × IsAtEnd input.new }

    // What the output gained: the text, or a front of it where a write failed.
    ensures gained { (read : List ℕ) (input output : Change)
        → IsScriptEnd T.text T.refuses Ended.Done read input output
        → IfSome input.old (λ bytes. GainsText (T.text bytes None) output) }
    ensures gained_full { (read : List ℕ) (input output : Change) (calls : ℕ)
        → IsScriptEnd T.text T.refuses (Ended.BookFull calls) read input output
        → IfSome input.old (λ bytes. GainsText (T.text bytes (Some calls)) output) }
    ensures gained_front { (read : List ℕ) (input output : Change)
        → IsScriptEnd T.text T.refuses Ended.WriteFault read input output
        → IfSome input.old (λ bytes. GainsFront (λ text. (full : Option ℕ) × T.text bytes full text) output) }
{}
