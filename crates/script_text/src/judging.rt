ghost use Rattle.std.specs.Prelude.{◌≡◌, ◌≤◌, ◌<◌, ◌^◌, ◌↔◌, IsTrue, List, length, MatchOption, MatchResult};
ghost use Rattle.plant_book.specs.declared.call.Call.TheVariants as calls;
ghost use Rattle.script_text.specs.declared.line.Line.TheVariants as lines;
ghost use Rattle.script_text.specs.Grammar.{Statement, Says};
ghost use Rattle.script_text.specs.Script.{begins_in, inverters_in, latest_in, InRange, OfSite, InTime, MayFollow, Lacks, moment_on, last_of};
ghost use Rattle.script_text.specs.Reading.{statement_of};
ghost use Rattle.script_text.specs.Progress.{Judges};

use crate::fields::Fields;
use crate::line::{Line, LineKind};
use plant_book::{CAP_MAX, Call, MOMENT_MAX, WISH_MAX};

/// A moment in ms, if it isn't above the greatest.
#[inline(always)]
pub fn moment(at: u64) -> Option<u64>
    ensures { MatchOption result (MOMENT_MAX < at) (λ moment. (moment ≡ at) × (at ≤ MOMENT_MAX)) }
{
    if at > MOMENT_MAX {
        return None;
    }
    Some(at)
}

#[inline(always)]
fn link(at: u64, inverter: u64) -> Option<Line>
    ensures { Judges result (lines.One (calls.Link at inverter)) }
{
    let at = moment(at)?;
    let inverter = u8::try_from(inverter).ok()?;
    Some(Line::One(Call::Link { at, inverter }))
}

#[inline(always)]
fn ask(at: u64, inverter: u64, raw: u64) -> Option<Line>
    ensures { Judges result (lines.One (calls.Ask at inverter raw)) }
{
    let at = moment(at)?;
    let inverter = u8::try_from(inverter).ok()?;
    let raw = u16::try_from(raw).ok()?;
    Some(Line::One(Call::Ask { at, inverter, raw }))
}

#[inline(always)]
fn read(at: u64, inverter: u64) -> Option<Line>
    ensures { Judges result (lines.One (calls.Read at inverter)) }
{
    let at = moment(at)?;
    let inverter = u8::try_from(inverter).ok()?;
    Some(Line::One(Call::Read { at, inverter }))
}

#[inline(always)]
fn saw(at: u64, inverter: u64, number: u64, raw: u64) -> Option<Line>
    ensures { Judges result (lines.One (calls.Saw at inverter number raw)) }
{
    let at = moment(at)?;
    let inverter = u8::try_from(inverter).ok()?;
    let number = u16::try_from(number).ok()?;
    let raw = u16::try_from(raw).ok()?;
    Some(Line::One(Call::Saw {
        at,
        inverter,
        number,
        raw,
    }))
}

#[inline(always)]
fn back(at: u64, inverter: u64, link: u64, number: u64) -> Option<Line>
    ensures { Judges result (lines.One (calls.Back at inverter link number)) }
{
    let at = moment(at)?;
    let inverter = u8::try_from(inverter).ok()?;
    let link = u32::try_from(link).ok()?;
    let number = u16::try_from(number).ok()?;
    Some(Line::One(Call::Back {
        at,
        inverter,
        link,
        number,
    }))
}

#[inline(always)]
fn want(at: u64, inverter: u64, mw: u64) -> Option<Line>
    ensures { Judges result (lines.One (calls.Want at inverter mw)) }
{
    let at = moment(at)?;
    let inverter = u8::try_from(inverter).ok()?;
    if mw > WISH_MAX {
        return None;
    }
    Some(Line::One(Call::Want { at, inverter, mw }))
}

#[inline(always)]
fn tick(at: u64) -> Option<Line>
    ensures { Judges result (lines.One (calls.Tick at)) }
{
    let at = moment(at)?;
    Some(Line::One(Call::Tick { at }))
}

#[inline(always)]
fn stop(at: u64) -> Option<Line>
    ensures { Judges result (lines.One (calls.Stop at)) }
{
    let at = moment(at)?;
    Some(Line::One(Call::Stop { at }))
}

#[inline(always)]
fn cap(at: u64, mw: u64) -> Option<Line>
    ensures { Judges result (lines.One (calls.Cap at mw)) }
{
    let at = moment(at)?;
    if mw > CAP_MAX {
        return None;
    }
    Some(Line::One(Call::Cap { at, mw }))
}

#[inline(always)]
fn restart(at: u64) -> Option<Line>
    ensures { Judges result (lines.Restart at) }
{
    Some(Line::Restart(moment(at)?))
}

/// The line of these numbers, if they are those of a line behind a head, and in their ranges.
#[inline(always)]
fn line_of(numbers: Fields) -> Result<Line, LineKind>
    ensures { (before : List Statement) → 1 ≤ length (begins_in before) → MatchResult result
        (λ line. (Says line ≡ statement_of numbers) × InRange (statement_of numbers))
        (λ kind. Lacks kind before (statement_of numbers)) }
{
    let line = match numbers {
        Fields::Link { at, inverter } => link(at, inverter),
        Fields::Ask { at, inverter, raw } => ask(at, inverter, raw),
        Fields::Read { at, inverter } => read(at, inverter),
        Fields::Saw {
            at,
            inverter,
            number,
            raw,
        } => saw(at, inverter, number, raw),
        Fields::Back {
            at,
            inverter,
            link,
            number,
        } => back(at, inverter, link, number),
        Fields::Want { at, inverter, mw } => want(at, inverter, mw),
        Fields::Tick { at } => tick(at),
        Fields::Stop { at } => stop(at),
        Fields::Cap { at, mw } => cap(at, mw),
        Fields::Restart { at } => restart(at),
        Fields::Roll => Some(Line::Roll),
        Fields::Site { .. } | Fields::Inverter { .. } | Fields::Begin { .. } => {
            return Err(LineKind::Form);
        }
    };
    line.ok_or(LineKind::Value)
}

/// Whether the inverter that a line names is one of so many.
#[inline(always)]
fn is_of_site(line: &Line, inverters: usize) -> bool
    ensures { IsTrue result ↔ OfSite inverters (Says line.now) }
{
    match line {
        Line::One(call) => match call.inverter() {
            Some(inverter) => usize::from(inverter) < inverters,
            None => true,
        },
        Line::Restart(_) | Line::Roll => true,
    }
}

/// Whether the moment of a line isn't below the last one, in ms.
#[inline(always)]
fn is_in_time(line: &Line, latest: u64) -> bool
    ensures { IsTrue result ↔ InTime latest (Says line.now) }
{
    match line {
        Line::One(call) => latest <= call.at(),
        Line::Restart(at) => latest <= *at,
        Line::Roll => true,
    }
}

/// The last moment behind a line, in ms.
#[inline(always)]
pub fn moment_after(line: &Line, latest: u64) -> u64
    ensures { result ≡ last_of latest (moment_on (Says line.now)) }
{
    match line {
        Line::One(call) => call.at(),
        Line::Restart(at) => *at,
        Line::Roll => latest,
    }
}

/// The line of these numbers, if they are those of a line behind the head, of one of so many inverters, whose
/// moment isn't below the last one.
#[inline(always)]
pub fn judge_line(numbers: Fields, inverters: usize, latest: u64) -> Result<Line, LineKind>
    ensures { (before : List Statement) → 1 ≤ length (begins_in before) → inverters_in before ≡ inverters
        → latest_in before ≡ latest → MatchResult result
        (λ line. (Says line ≡ statement_of numbers) × MayFollow before (statement_of numbers))
        (λ kind. Lacks kind before (statement_of numbers)) }
{
    let line = line_of(numbers)?;
    if !is_of_site(&line, inverters) {
        return Err(LineKind::Inverter);
    }
    if !is_in_time(&line, latest) {
        return Err(LineKind::Time);
    }
    Ok(line)
}
