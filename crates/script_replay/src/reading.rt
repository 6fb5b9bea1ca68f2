ghost use Rattle.std.specs.Prelude.{◌≡◌, ◌^◌, ◌<◌, ◌≤◌, length, MatchResult};
ghost use Rattle.plant_book.specs.Site.{SiteRecord};
ghost use Rattle.plant_ledger.specs.Opening.{open_fault};
ghost use Rattle.script_text.specs.declared.script.TheConstants.{SCRIPT_BYTES_MAX};
ghost use Rattle.script_text.specs.Reader.{AreLast, CanGoOn, HasRead, script_begun};
ghost use Rattle.script_text.specs.Size.{IsSizeOf};
ghost use Rattle.script_replay.specs.Replay.{Explains, fault_of};
ghost use Rattle.script_replay.specs.Playing.{NextLine, FaultExplained};

use crate::replay::ReplayFault;
use plant_book::INVERTERS_MAX;
use plant_ledger::OpenFault;
use script_text::{Begun, Line, Lines, ScriptFault, SiteSize, read_head, site_size};
use std::alloc::Global;

/// The fault of reading lines as one of their replay.
fn replay_fault(fault: ScriptFault) -> ReplayFault
    ensures { result ≡ fault_of fault }
{
    match fault {
        ScriptFault::BadLine { line, kind } => ReplayFault::BadLine { line, kind },
        ScriptFault::NoMemory => ReplayFault::NoMemory,
    }
}

/// Why no book is opened of a site of this size.
fn refuse(size: &SiteSize) -> Option<OpenFault>
    requires { size.now.inverters < 2 ^ 32 }
    ensures { (site : SiteRecord) → IsSizeOf site size.now → result ≡ open_fault site }
{
    let SiteSize {
        cap,
        inverters,
        floors,
    } = *size;
    if inverters == 0 {
        return Some(OpenFault::NoInverter);
    }
    if inverters > INVERTERS_MAX {
        return Some(OpenFault::TooManyInverters(inverters as u32));
    }
    if floors > cap {
        return Some(OpenFault::FloorsOverCap(floors));
    }
    None
}

/// The fault of a script for whose head memory ran out: its first bad line, or that its site is refused, if it has one.
fn out_of_memory(bytes: &[u8]) -> ReplayFault
    requires { length bytes.now ≤ SCRIPT_BYTES_MAX }
    ensures { Explains result bytes.now }
{
    let size = match site_size(bytes) {
        Ok(size) => size,
        Err(fault) => return replay_fault(fault),
    };
    match refuse(&size) {
        Some(fault) => ReplayFault::BadSite(fault),
        None => ReplayFault::NoMemory,
    }
}

/// The head of the script that the bytes spell, and the lines behind it.
pub fn begin(alloc: Global, bytes: &[u8]) -> Result<Begun<'_>, ReplayFault>
    requires { length bytes.now ≤ SCRIPT_BYTES_MAX }
    ensures { MatchResult result
        (λ begun. HasRead bytes.now (script_begun begun) begun.lines)
        (λ fault. Explains fault bytes.now) }
{
    match read_head(alloc, bytes) {
        Ok(begun) => Ok(begun),
        Err(ScriptFault::BadLine { line, kind }) => Err(ReplayFault::BadLine { line, kind }),
        Err(ScriptFault::NoMemory) => Err(out_of_memory(bytes)),
    }
}

/// Reads the next line, or finds the end of the script.
#[inline]
pub fn next(lines: &mut Lines<'_>) -> Result<Option<Line>, ReplayFault>
    requires { CanGoOn lines.old }
    ensures { NextLine lines.old lines.new result }
{
    match lines.next_line() {
        Ok(line) => Ok(line),
        Err(fault) => Err(replay_fault(fault)),
    }
}

/// Judges the lines that are left.
pub fn judge_rest(lines: &mut Lines<'_>) -> Result<(), ReplayFault>
    requires { CanGoOn lines.old }
    ensures { MatchResult result (λ _. AreLast lines.old) (λ fault. FaultExplained lines.old fault) }
{
    match script_text::judge_rest(lines) {
        Ok(()) => Ok(()),
        Err(fault) => Err(replay_fault(fault)),
    }
}
