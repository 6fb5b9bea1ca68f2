ghost use Rattle.std.specs.Prelude.{◌≡◌, ◌^◌, ◌<◌, ◌≤◌, length, MatchResult};
ghost use Rattle.plant_book.specs.Site.{SiteRecord};
ghost use Rattle.plant_ledger.specs.Opening.{open_fault};
ghost use Rattle.script_text.specs.declared.script.TheConstants.{SCRIPT_BYTES_MAX};
ghost use Rattle.script_text.specs.Size.{IsSizeOf};
ghost use Rattle.nested_replay.specs.Reading.{IsJudged};
ghost use Rattle.nested_replay.specs.Replay.{IsBadNested, FitsBehind, moved_fault};

use crate::front::{Front, read_front};
use crate::replay::NestedFault;
use one_life_script::one_life;
use plant_book::INVERTERS_MAX;
use plant_ledger::OpenFault;
use script_text::{ScriptFault, SiteSize};

/// The fault of a script, behind so many rows, as one of the whole input.
fn moved(fault: ScriptFault, rows: u32) -> NestedFault
    requires { FitsBehind fault rows }
    ensures { result ≡ moved_fault fault rows }
{
    match fault {
        ScriptFault::BadLine { line, kind } => NestedFault::BadLine {
            line: rows + line,
            kind,
        },
        ScriptFault::NoMemory => NestedFault::NoMemory,
    }
}

/// The buses of an input, its script, and the size of the script's site; or its first bad line. The whole input is
/// judged, and no memory is taken.
pub fn judge(bytes: &[u8]) -> Result<(Front<'_>, SiteSize), NestedFault>
    requires { length bytes.now ≤ SCRIPT_BYTES_MAX }
    ensures { MatchResult result
        (λ found. IsJudged bytes.now found.0 found.1)
        (λ fault. IsBadNested fault bytes.now) }
{
    match read_front(bytes) {
        Err(bad) => Err(NestedFault::BadLine {
            line: bad.line,
            kind: bad.kind,
        }),
        Ok(front) => match one_life(front.script) {
            Ok(size) => Ok((front, size)),
            Err(fault) => Err(moved(fault, front.rows)),
        },
    }
}

/// Why no book is opened of a site of this size.
pub fn refuse(size: &SiteSize) -> Option<OpenFault>
    requires { size.now.inverters < 2 ^ 32 }
    ensures { (site : SiteRecord) → IsSizeOf site size.now → result ≡ open_fault site }
{
    let SiteSize {
        cap,
        inverters,
        floors,
    } = *size;
    if inverters == 0 {
        return Some(OpenFault::NoInverter);
    }
    if inverters > INVERTERS_MAX {
        return Some(OpenFault::TooManyInverters(inverters as u32));
    }
    if floors > cap {
        return Some(OpenFault::FloorsOverCap(floors));
    }
    None
}
