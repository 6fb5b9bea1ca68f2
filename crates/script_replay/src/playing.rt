ghost use Rattle.std.specs.Prelude.{◌≡◌, ◌≤◌, length, OnOk, IfOk, MatchResult};
ghost use Rattle.plant_book.specs.Carry.{EachBefore};
ghost use Rattle.plant_ledger.specs.Plant.{Rolls};
ghost use Rattle.script_text.specs.declared.line.Line.TheVariants as lines;
ghost use Rattle.script_replay.specs.Replay.{Explains};
ghost use Rattle.script_replay.specs.Playing.{LineFits, IsNextLife, Does, Steps, IsReplayed, IsReplayedWhole, bytes_of};

use crate::reading::{judge_rest, next};
use crate::replay::ReplayFault;
use limiter_num::NoMemory;
use plant_book::{Call, Entry};
use plant_ledger::{Plant, RollFault};
use script_text::{Line, Lines, entry_text, restart_text, roll_text};
use std::alloc::Global;

/// Enters a call, and adds its line. Answers the calls of the book where that is full.
fn enter(plant: &mut Plant, text: &mut Vec<u8>, call: Call) -> Result<Option<u32>, NoMemory>
    requires { LineFits plant.old (lines.One call) }
    ensures { IfOk result (λ full.
        Steps (lines.One call) plant.old plant.new text.old.items text.new.items full) }
{
    match plant.apply(call) {
        Ok(outcome) => {
            let reply = outcome.reply;
            entry_text(text, &Entry { call, reply })?;
            Ok(None)
        }
        Err(full) => Ok(Some(full.calls)),
    }
}

/// The plant of a new life of the same site, from this moment in ms on.
fn next_life(alloc: Global, plant: &Plant, at: u64) -> Result<Plant, NoMemory>
    requires { LineFits plant.now (lines.Restart at) }
    ensures { IfOk result (λ next. IsNextLife plant.now at next) }
{
    let Ok(site) = plant.site().clone() else {
        return Err(NoMemory);
    };
    match Plant::open(alloc, site, at) {
        Ok(next) => Ok(next),
        Err(_) => Err(NoMemory),
    }
}

/// Begins a life of the same site at a moment in ms, and adds the line.
fn restart(alloc: Global, plant: &mut Plant, text: &mut Vec<u8>, at: u64) -> Result<(), NoMemory>
    requires { LineFits plant.old (lines.Restart at) }
    ensures { OnOk result (Does (lines.Restart at) plant.old plant.new text.old.items text.new.items) }
{
    *plant = next_life(alloc, plant, at)?;
    restart_text(text, at)
}

/// Goes on with an empty book of the same life.
fn next_book(alloc: Global, plant: &mut Plant) -> Result<(), NoMemory>
    requires { LineFits plant.old lines.Roll }
    ensures { OnOk result (EachBefore plant.old (λ before. Rolls before plant.old plant.new)) }
{
    match plant.roll(alloc) {
        Ok(_) => Ok(()),
        Err(RollFault::NoMemory) => Err(NoMemory),
        Err(RollFault::LifeFull(_)) => unreachable!(),
    }
}

/// Goes on with an empty book, and adds the line.
fn roll(alloc: Global, plant: &mut Plant, text: &mut Vec<u8>) -> Result<(), NoMemory>
    requires { LineFits plant.old lines.Roll }
    ensures { OnOk result (Does lines.Roll plant.old plant.new text.old.items text.new.items) }
{
    next_book(alloc, plant)?;
    roll_text(text)
}

/// Does a line, and adds its text. Answers the calls of the book where that is full.
fn step(
    alloc: Global,
    plant: &mut Plant,
    text: &mut Vec<u8>,
    line: Line,
) -> Result<Option<u32>, NoMemory>
    requires { LineFits plant.old line }
    ensures { IfOk result (λ full. Steps line plant.old plant.new text.old.items text.new.items full) }
{
    match line {
        Line::One(call) => return enter(plant, text, call),
        Line::Restart(at) => restart(alloc, plant, text, at)?,
        Line::Roll => roll(alloc, plant, text)?,
    }
    Ok(None)
}

/// Does the lines that are left, one after another as they are read, and adds their texts. Behind a line that found
/// its book full, or for which memory ran out, they are only judged. Answers the calls of the full book, if there was
/// one.
pub fn play(
    alloc: Global,
    lines: &mut Lines<'_>,
    plant: &mut Plant,
    text: &mut Vec<u8>,
) -> Result<Option<u32>, ReplayFault>
    requires begun { IsReplayed (bytes_of lines.old) plant.old lines.old plant.old text.old.items }
    requires few { length (bytes_of lines.old) ≤ 134217728 }
    ensures { MatchResult result
        (λ full. IsReplayedWhole (bytes_of lines.old) plant.old plant.new text.new.items full)
        (λ fault. Explains fault (bytes_of lines.old)) }
{
    while let Some(line) = next(lines)? {
        match step(alloc, plant, text, line) {
            Ok(None) => {}
            Ok(Some(calls)) => {
                judge_rest(lines)?;
                return Ok(Some(calls));
            }
            Err(NoMemory) => {
                judge_rest(lines)?;
                return Err(ReplayFault::NoMemory);
            }
        }
    }
    Ok(None)
}
