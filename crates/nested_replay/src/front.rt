ghost use Rattle.std.specs.Prelude.{◌≡◌, ◌↔◌, IsTrue, ℕ, ◌+◌, ◌^◌, ◌<◌, ◌≤◌, length, IfOk, MatchOption, MatchResult};
ghost use Rattle.script_text.specs.declared.script.TheConstants.{SCRIPT_BYTES_MAX};
ghost use Rattle.script_text.specs.Grammar.{IsComment};
ghost use Rattle.script_text.specs.Reading.{row_at};
ghost use Rattle.nested_replay.specs.Reading.{IsBusOf, IsFrontRow, BusRead, IsFront, FrontFault, front_buses};

use busbars::{BUSES_MAX, Bus};
use limiter_num::NoMemory;
use one_life_script::{begins_with, three_numbers};
use script_text::number::behind_row;
use script_text::LineKind;
use std::alloc::Global;

/// What a bus's cap is at most, in mW.
const BUS_CAP_MAX: u64 = 100_000_000_000_000;

/// What stands where no bus was read.
const NO_BUS: Bus = Bus {
    cap: 0,
    lo: 0,
    hi: 0,
};

/// The buses in front of a script, and the script.
#[derive(Drop)]
pub struct Front<'a> {
    /// The buses that were read stand first.
    pub places: [Bus; BUSES_MAX],
    /// How many buses there are.
    pub count: usize,
    /// The bytes of the script.
    pub script: &'a [u8],
    /// How many rows stand before the script.
    pub rows: u32,
}

/// What the row at the front is.
#[derive(Drop)]
pub enum FrontRow {
    Comment,
    Bus(Bus),
    /// A bus's line at fault.
    Bad(LineKind),
    /// The script begins here, or nothing is left.
    Script,
}

/// The first bad line in front of a script.
#[derive(Drop)]
pub struct BadRow {
    /// Its number, from 1.
    pub line: u32,
    /// How it is at fault.
    pub kind: LineKind,
}

/// The bus of these numbers, if they are in range.
fn bus_of(cap: u64, lo: u64, hi: u64) -> Option<Bus>
    ensures { IsBusOf cap lo hi result }
{
    if cap > BUS_CAP_MAX || lo > 255 || hi > 255 {
        return None;
    }
    Some(Bus {
        cap,
        lo: lo as u8,
        hi: hi as u8,
    })
}

/// The bus of the row at the front, which begins as a bus's line does, behind so many buses.
fn bus_row(bytes: &[u8], before: usize) -> Result<Bus, LineKind>
    requires { before ≤ 32 }
    ensures { BusRead before (row_at bytes.now) result }
{
    if before == BUSES_MAX {
        return Err(LineKind::Form);
    }
    match three_numbers(bytes, b"bus") {
        None => Err(LineKind::Form),
        Some(((cap, lo, hi), _)) => match bus_of(cap, lo, hi) {
            Some(bus) => Ok(bus),
            None => Err(LineKind::Value),
        },
    }
}

/// Whether the row at the front is a comment.
fn is_comment(bytes: &[u8]) -> bool
    ensures { IsTrue result ↔ IsComment (row_at bytes.now) }
{
    match bytes {
        [first, ..] => *first == b'#',
        [] => false,
    }
}

/// What the row at the front is, behind so many buses.
fn front_row(bytes: &[u8], before: usize) -> FrontRow
    requires { before ≤ 32 }
    ensures { IsFrontRow before (row_at bytes.now) result }
{
    if is_comment(bytes) {
        return FrontRow::Comment;
    }
    if !begins_with(bytes, b"bus") {
        return FrontRow::Script;
    }
    match bus_row(bytes, before) {
        Ok(bus) => FrontRow::Bus(bus),
        Err(kind) => FrontRow::Bad(kind),
    }
}

/// Reads the rows in front of a script: comments and buses, of which there are 32 at most.
pub fn read_front(bytes: &[u8]) -> Result<Front<'_>, BadRow>
    requires { length bytes.now ≤ SCRIPT_BYTES_MAX }
    ensures { MatchResult result
        (λ front. IsFront bytes.now front)
        (λ bad. FrontFault bytes.now bad.line bad.kind) }
{
    let mut places = [NO_BUS; BUSES_MAX];
    let mut count = 0;
    let mut script = bytes;
    let mut rows = 0;
    loop {
        match front_row(script, count) {
            FrontRow::Comment => {}
            FrontRow::Bus(bus) => {
                places[count] = bus;
                count += 1;
            }
            FrontRow::Bad(kind) => {
                return Err(BadRow {
                    line: rows + 1,
                    kind,
                });
            }
            FrontRow::Script => {
                return Ok(Front {
                    places,
                    count,
                    script,
                    rows,
                });
            }
        }
        script = behind_row(script);
        rows += 1;
    }
}

impl Front<'_> {
    /// The buses, in their order.
    pub fn buses(&self, alloc: Global) -> Result<Vec<Bus>, NoMemory>
        requires { self.now.count ≤ 32 }
        ensures { IfOk result (λ buses. buses.items ≡ front_buses self.now) }
    {
        Vec::from_slice(alloc, &self.places[..self.count]).map_err(|_| NoMemory)
    }
}
