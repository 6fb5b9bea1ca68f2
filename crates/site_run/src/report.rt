//! What is told of a run: the text of its last book, a line for each worker, and how it finished.
ghost use Rattle.std.specs.Prelude.{◌≡◌, ◌++◌, IfOk, OnOk, Some};
ghost use Rattle.std.specs.List.{list_any};
ghost use Rattle.operator_console.specs.Comments.{head_before};
ghost use Rattle.site_run.specs.Report.{end_name, finish_behind, finish_of, found_full, lacks_memory, last_text};
ghost use Rattle.site_run.specs.Report.{text_of_run, worker_line, worker_lines, wrote_whole};

use crate::run::Ran;
use inverter_worker::End;
use limiter_num::NoMemory;
use operator_console::ConsoleEnd;
use plant_ledger::Plant;
use script_text::{entry_text, head_text};
use std::alloc::{AllocError, Global};
use std::fmt;
use std::fmt::{Display, Formatter};
use worker_turn::Worker;

/// How a run finished, by how its workers and its console did.
#[derive(Clone, Copy, Debug, PartialEq, Eq)]
pub enum Finish {
    /// Each worker made its turns, or met an inverter that isn't as it was commissioned, and the console was stopped
    /// or came to the end of its input.
    Done,
    /// A worker or the console found a book full.
    BookFull {
        /// The calls of that book, which are its room.
        calls: u32,
    },
    /// A read of the console failed.
    ReadFault,
    /// A write of the console failed.
    WriteFault,
    /// A worker or the console ran out of memory.
    NoMemory,
}

/// How a worker is over, as it is told.
#[derive(Drop)]
struct EndName(End);

impl Display for EndName {
    ghost output = { λ name. Some (end_name name.0) };

    fn fmt<W: fmt::Write>(&self, f: &mut Formatter<W>) -> fmt::Result {
        match self.0 {
            End::TurnsDone => f.write_str("turns"),
            End::Stopped => f.write_str("stopped"),
            End::BookFull => f.write_str("bookfull"),
            End::Unfit {
                point,
                wanted,
                found,
            } => {
                let point = point.name();
                write!(f, "unfit {point} {wanted} {found}")
            }
            End::NoMemory => f.write_str("nomemory"),
        }
    }
}

/// Adds the line of the worker of this number, if it is over.
fn put_worker(
    alloc: Global,
    text: &mut Vec<u8>,
    number: usize,
    worker: &Worker,
) -> Result<(), AllocError>
    ensures { OnOk result (text.new.items ≡ text.old.items ++ worker_line number worker.now.state.step) }
{
    let Some(end) = worker.end() else {
        return Ok(());
    };
    let end = EndName(end);
    let line = format!(in alloc; "# worker {number} {end}\n")?;
    text.extend_from_slice(line.as_bytes())
}

/// Adds the lines of the workers.
fn put_workers(alloc: Global, text: &mut Vec<u8>, workers: &[Worker]) -> Result<(), AllocError>
    ensures { OnOk result (text.new.items ≡ text.old.items ++ worker_lines workers.now) }
{
    for (number, worker) in workers.iter().enumerate() {
        put_worker(alloc, text, number, worker)?;
    }
    Ok(())
}

/// Adds the head of a life, where no book of it ended before.
fn put_head(text: &mut Vec<u8>, plant: &Plant) -> Result<(), NoMemory>
    ensures { OnOk result (text.new.items ≡ text.old.items
        ++ head_before plant.now.site plant.now.start plant.now.carry) }
{
    match plant.carry() {
        Some(_) => Ok(()),
        None => head_text(text, plant.site(), plant.start()),
    }
}

/// Adds the text of the last book of a life.
fn put_book(text: &mut Vec<u8>, plant: &Plant) -> Result<(), NoMemory>
    ensures { OnOk result (text.new.items ≡ text.old.items ++ last_text plant.now) }
{
    put_head(text, plant)?;
    for place in 0..plant.calls() {
        entry_text(text, &plant.entry(place))?;
    }
    Ok(())
}

/// The text of a run behind what its console wrote: that of its last book, and a comment line for each worker with how
/// it is over.
pub fn run_text(alloc: Global, ran: &Ran) -> Result<Vec<u8>, NoMemory>
    ensures { IfOk result (λ text. text.items ≡ text_of_run ran.now.plant ran.now.workers.items) }
{
    let mut text = Vec::new(alloc);
    put_book(&mut text, &ran.plant)?;
    match put_workers(alloc, &mut text, &ran.workers) {
        Ok(()) => Ok(text),
        Err(_) => Err(NoMemory),
    }
}

/// Whether a console that ended so wrote its last text whole. Else nothing is to be written behind it.
pub fn wrote_whole(console: ConsoleEnd) -> bool
    ensures { result ≡ wrote_whole console }
{
    !matches!(console, ConsoleEnd::WriteFault | ConsoleEnd::NoMemory)
}

/// Whether a worker is over for want of memory.
fn lacks_memory(worker: &Worker) -> bool
    ensures { result ≡ lacks_memory worker.now.state.step }
{
    matches!(worker.end(), Some(End::NoMemory))
}

/// Whether a worker is over at a full book.
fn found_full(worker: &Worker) -> bool
    ensures { result ≡ found_full worker.now.state.step }
{
    matches!(worker.end(), Some(End::BookFull))
}

/// Whether one of the workers is over for want of memory.
fn one_lacks_memory(workers: &[Worker]) -> bool
    ensures { result ≡ list_any (λ worker. lacks_memory worker.state.step) workers.now }
{
    workers.iter().any(|worker| lacks_memory(worker))
}

/// Whether one of the workers is over at a full book.
fn one_found_full(workers: &[Worker]) -> bool
    ensures { result ≡ list_any (λ worker. found_full worker.state.step) workers.now }
{
    workers.iter().any(|worker| found_full(worker))
}

/// How a run finished by how its console ended, and by whether a worker found a book full, which has so much room.
fn finish_behind(room: u32, full: bool, console: ConsoleEnd) -> Finish
    ensures { result ≡ finish_behind room full console }
{
    match console {
        ConsoleEnd::NoMemory => Finish::NoMemory,
        ConsoleEnd::WriteFault => Finish::WriteFault,
        ConsoleEnd::ReadFault => Finish::ReadFault,
        ConsoleEnd::BookFull => Finish::BookFull { calls: room },
        ConsoleEnd::Ended | ConsoleEnd::Stopped if full => Finish::BookFull { calls: room },
        ConsoleEnd::Ended | ConsoleEnd::Stopped => Finish::Done,
    }
}

/// How a run finished: out of memory where a worker or the console was; else at a fault of the console; else at a full
/// book where one of them found one.
pub fn finish_of(ran: &Ran) -> Finish
    ensures { result ≡ finish_of ran.now.plant ran.now.workers.items ran.now.console }
{
    if one_lacks_memory(&ran.workers) {
        return Finish::NoMemory;
    }
    let room = ran.plant.site().room;
    finish_behind(room, one_found_full(&ran.workers), ran.console)
}
