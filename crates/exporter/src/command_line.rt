ghost use Rattle.std.specs.Prelude.{◌≡◌, ◌⊎◌, IfErr};
ghost use Rattle.std.specs.declared.io.ErrorKind.TheVariants as kinds;

use exporter_commands::Ended;
use std::io::ErrorKind;
use std::{env, io};

/// How the program ends where its words can't be had: for want of memory, or because one of them is no text.
fn end_without_words(fault: ErrorKind) -> Ended
    ensures memory { fault ≡ kinds.OutOfMemory → result ≡ Ended.NoMemory }
    ensures other { (fault ≡ kinds.OutOfMemory → ⊥) → result ≡ Ended.BadWords }
{
    match fault {
        ErrorKind::OutOfMemory => Ended::NoMemory,
        _ => Ended::BadWords,
    }
}

fn read_words(rt: &HostRuntime) -> io::Result<Vec<String>> {
    let mut words = Vec::new(rt.alloc());
    for word in env::args(rt)?.skip(1) {
        words.push(word)?;
    }
    Ok(words)
}

/// The words of the command line behind the name of the program.
pub fn words(rt: &HostRuntime) -> Result<Vec<String>, Ended>
    ensures { IfErr result (λ ended. (ended ≡ Ended.NoMemory) ⊎ (ended ≡ Ended.BadWords)) }
{
    read_words(rt).map_err(|fault| end_without_words(fault.kind()))
}
