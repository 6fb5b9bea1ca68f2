ghost use Rattle.std.specs.Prelude.{◌≡◌, ℕ, ◌+◌, ◌-◌, ◌^◌, ◌<◌, ◌≤◌, List, [], length, IfOk, IfErr, MatchResult};
ghost use Rattle.script_text.specs.Grammar.{Statement, Begin, Says};
ghost use Rattle.script_text.specs.Script.{ScriptRecord, IsScript};
ghost use Rattle.script_text.specs.Progress.{IsAt, Said, Explains, IsBadLine, HeadFault, SiteTaken};
ghost use Rattle.script_text.specs.Progress.{HeadLineTaken, HeadLineFault, UnitsTaken, UnitsRefused, LineTaken};
ghost use Rattle.script_text.specs.Reader.{CanGoOn, HasRead, FaultExplained, with_lines};

use crate::fault::ScriptFault;
use crate::fields::Fields;
use crate::head::{HeadLine, SiteLine};
use crate::head_judging::{judge_head, judge_site};
use crate::judging::judge_line;
use crate::line::{Line, LineKind};
use crate::lines::{Begun, Lines, judge_rest, out_of_memory, read_head};
use crate::rows::{Row, Rows, next_row};
use limiter_num::NoMemory;
use plant_book::{Site, Unit};
use std::alloc::Global;
use std::marker::Model;

/// How many bytes a script has at most.
pub const SCRIPT_BYTES_MAX: usize = 134_217_728;

const _: () = prove!(SCRIPT_BYTES_MAX == 134_217_728);

/// A site, the moment at which its first book begins, and what is to be done then.
#[derive(Debug, Drop)]
pub struct Script {
    /// The site of all books.
    pub site: Site,
    /// The moment at which the first book begins, in ms.
    pub start: u64,
    /// The lines behind the head, in order.
    pub lines: Vec<Line>,
}

impl Model for Script {
    ghost use Rattle.script_text.specs.Script.{ScriptRecord};

    ghost Value = { ScriptRecord };

    ghost view = { λ s. record { site = s.site; start = s.start; lines = s.lines.items } };
}

/// The fault of a row of this number that is no line, or not at its place.
#[inline(always)]
fn bad_form(line: u32) -> ScriptFault
    ensures { result ≡ ScriptFault.BadLine line LineKind.Form }
{
    ScriptFault::BadLine {
        line,
        kind: LineKind::Form,
    }
}

/// The fault of the row before these rows.
#[inline(always)]
fn bad_before(rows: &Rows<'_>, kind: LineKind) -> ScriptFault
    requires { 1 ≤ rows.now.number }
    ensures { result ≡ ScriptFault.BadLine (rows.now.number - 1) kind }
{
    ScriptFault::BadLine {
        line: rows.number - 1,
        kind,
    }
}

/// The numbers of the next line of a head, and the rows behind it.
fn next_of_head(rows: Rows<'_>) -> Result<(Fields, Rows<'_>), ScriptFault>
    requires { rows.number + length rows.rest.now < 2 ^ 32 }
    ensures { MatchResult result
        (λ found. Said rows.entry found.0 found.1 × (found.1.number + length found.1.rest.now < 2 ^ 32))
        (λ fault. HeadFault rows.entry fault) }
{
    match next_row(rows) {
        Row::Said(numbers, behind) => Ok((numbers, behind)),
        Row::End(number) => Err(bad_form(number)),
        Row::Bad(number) => Err(bad_form(number)),
    }
}

/// The site line, and the rows behind it.
pub fn read_site(rows: Rows<'_>) -> Result<(SiteLine, Rows<'_>), ScriptFault>
    requires { rows.number + length rows.rest.now < 2 ^ 32 }
    ensures { MatchResult result
        (λ found. SiteTaken rows.entry found.0 found.1)
        (λ fault. IsAt rows.entry [] → IsBadLine fault rows.entry.whole.now) }
{
    let (numbers, behind) = next_of_head(rows)?;
    match judge_site(numbers) {
        Ok(site) => Ok((site, behind)),
        Err(kind) => Err(bad_before(&behind, kind)),
    }
}

/// The next line of a head behind its site line, and the rows behind it.
pub fn read_head_line(rows: Rows<'_>) -> Result<(HeadLine, Rows<'_>), ScriptFault>
    requires { rows.number + length rows.rest.now < 2 ^ 32 }
    ensures { MatchResult result
        (λ found. HeadLineTaken rows.entry found.0 found.1)
        (λ fault. HeadLineFault rows.entry fault) }
{
    let (numbers, behind) = next_of_head(rows)?;
    match judge_head(numbers) {
        Ok(line) => Ok((line, behind)),
        Err(kind) => Err(bad_before(&behind, kind)),
    }
}

/// The inverters behind the site line, the begin, and the rows behind it.
pub fn read_units(
    alloc: Global,
    mut rows: Rows<'_>,
) -> Result<(Vec<Unit>, u64, Rows<'_>), ScriptFault>
    requires few { rows.number + length rows.rest.now < 2 ^ 32 }
    requires short { length rows.whole.now ≤ SCRIPT_BYTES_MAX }
    ensures { MatchResult result
        (λ found. UnitsTaken rows.entry found.0.items found.1 found.2)
        (λ fault. UnitsRefused rows.entry fault) }
{
    let mut units = Vec::new(alloc);
    loop {
        let (line, behind) = read_head_line(rows)?;
        match line {
            HeadLine::Inverter(unit) => {
                if units.push(unit).is_err() {
                    return Err(out_of_memory(rows.whole));
                }
            }
            HeadLine::Begin(start) => return Ok((units, start, behind)),
        }
        rows = behind;
    }
}

/// The next line behind a head, of one of so many inverters and not below the last moment, and the rows behind
/// it; or none at the end.
#[inline(always)]
pub fn read_line(
    rows: Rows<'_>,
    inverters: usize,
    latest: u64,
) -> Result<Option<(Line, Rows<'_>)>, ScriptFault>
    requires { rows.number + length rows.rest.now < 2 ^ 32 }
    ensures { LineTaken rows.entry inverters latest result }
{
    match next_row(rows) {
        Row::End(_) => Ok(None),
        Row::Bad(number) => Err(bad_form(number)),
        Row::Said(numbers, behind) => match judge_line(numbers, inverters, latest) {
            Ok(line) => Ok(Some((line, behind))),
            Err(kind) => Err(bad_before(&behind, kind)),
        },
    }
}

/// The lines behind the head.
fn all_lines(alloc: Global, lines: &mut Lines<'_>) -> Result<Vec<Line>, ScriptFault>
    requires { CanGoOn lines.old }
    ensures { MatchResult result
        (λ taken. (bytes : List ℕ) (script : ScriptRecord) → HasRead bytes script lines.old
        → IsScript bytes (with_lines script taken.items))
        (λ fault. FaultExplained lines.old fault) }
{
    let mut taken = Vec::new(alloc);
    while let Some(line) = lines.next_line()? {
        if taken.push(line).is_err() {
            judge_rest(lines)?;
            return Err(ScriptFault::NoMemory);
        }
    }
    Ok(taken)
}

/// The script that the bytes spell, or their first bad line with its kind. A bad line comes before want of memory.
pub fn script_of(alloc: Global, bytes: &[u8]) -> Result<Script, ScriptFault>
    requires { length bytes.now ≤ SCRIPT_BYTES_MAX }
    ensures script { IfOk result (λ script. IsScript bytes.now script) }
    ensures fault { IfErr result (λ fault. Explains fault bytes.now) }
{
    let Begun {
        site,
        start,
        mut lines,
    } = read_head(alloc, bytes)?;
    let lines = all_lines(alloc, &mut lines)?;
    Ok(Script { site, start, lines })
}
