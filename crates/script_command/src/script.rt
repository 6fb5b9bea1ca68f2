ghost use Rattle.std.specs.Prelude.{◌≤◌, ℕ, List, Option, IfErr, IfOk, length};
ghost use Rattle.command_io.specs.declared.ended.Ended.{Ended as Ending};
ghost use Rattle.script_command.specs.Ends.{input_limit, HasNoText};

use command_io::Ended;
use std::alloc::Global;

/// The text of a script.
#[derive(Debug, Drop)]
pub struct Told {
    /// The bytes of the text.
    pub text: Vec<u8>,
    /// How many calls a book had that was full, if one was; the text goes up to there.
    pub full: Option<u32>,
}

/// A kind of script: what is written of it, and how a command ends that refuses it.
pub trait Script {
    /// The bytes spell a script of this text. The second is how many calls a book had that was full, if one was.
    ghost text: { List ℕ → Option ℕ → List ℕ → Type 0 };

    /// The bytes are refused by this end.
    ghost refuses: { List ℕ → Ending → Type 0 };

    /// The text of the script that the bytes spell, or how the command ends that was given them.
    fn tell(alloc: Global, bytes: &[u8]) -> Result<Told, Ended>
        requires short { length bytes.now ≤ input_limit }
        ensures text { IfOk result (λ told. text bytes.now told.full told.text.items) }
        ensures none { IfErr result (HasNoText (refuses bytes.now)) };
}
