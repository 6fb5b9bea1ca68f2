ghost use Rattle.std.specs.Prelude.{◌≡◌, ◌≤◌, vec_len, IfOk, OnErr};
ghost use Rattle.world_traits.specs.Causes.{HasCause};
ghost use Rattle.plant_book.specs.Site.{inverters};
ghost use Rattle.plant_book.specs.Answered.{IsOpenable};
ghost use Rattle.site_config.specs.SiteFile.{IsInRange};
ghost use Rattle.operator_console.specs.Transcript.{at_input, at_output};
ghost use Rattle.site_run.specs.Run.{IsRun};

use crate::opening::{Opening, open_site};
use limiter_num::NoMemory;
use operator_console::ConsoleEnd;
use plant_ledger::Plant;
use plant_run::{RunEnd, run_forked};
use site_config::SiteFile;
use std::alloc::Global;
use std::sync::Wait;
use std::thread::Threads;
use worker_turn::Worker;
use world_traits::{Clock, Dialer, Sink, Source};

/// What came of a run.
#[derive(Debug, Drop)]
pub struct Ran {
    /// The ledger, on the last book of the life.
    pub plant: Plant,
    /// The worker of each inverter, from 0.
    pub workers: Vec<Worker>,
    /// How the console ended.
    pub console: ConsoleEnd,
}

/// Runs the plant of a site file: one life, which begins at a reading of the clock, with a worker of so many turns for
/// each inverter, which uses the dialer at the inverter's number, and a console for an operator. Each works in a thread
/// of its own. It ends when all workers and the console are over. It may wait, as the dialers, the clock and the input
/// may. Where there is no memory to begin with, no dialer, no input and no output is used.
pub fn run_site<
    R: Threads + Wait + Sync,
    N: Dialer + Send,
    K: Clock + Sync,
    C: Source + Send,
    O: Sink + Send,
>(
    rt: &R,
    alloc: Global,
    file: SiteFile,
    turns: u32,
    dialers: &mut Vec<N>,
    clock: &K,
    input: &mut C,
    out: &mut O,
) -> Result<Ran, NoMemory>
    requires openable { IsOpenable file.site }
    requires in_range { IsInRange file }
    requires dialers { inverters file.site ≤ vec_len dialers.old }
    ensures ran { IfOk result (λ ran. IsRun N.links N.faults (K.may_give clock.now) file turns
        dialers.old.items dialers.new.items ran.plant ran.workers.items ran.console
        (C.left input.old) (C.left input.new) (O.taken out.old) (O.taken out.new)) }

    // The console answers a failed read and a failed write exactly where one failed, and writes nothing more then.
    ensures input_faults { IfOk result (λ ran. HasCause (C.faults input.old) (C.faults input.new)
        (at_input ran.console)) }
    ensures output_faults { IfOk result (λ ran. HasCause (O.faults out.old) (O.faults out.new)
        (at_output ran.console)) }
    ensures stops { O.faults out.old ≡ 0 → O.late out.new ≡ O.late out.old }
    ensures unused { OnErr result ((dialers.new.items ≡ dialers.old.items) × (input.new ≡ input.old)
        × (out.new ≡ out.old)) }
{
    let start = clock.now();
    let Opening { plant, mut workers } = open_site(alloc, file, turns, start)?;
    let RunEnd { plant, console } = run_forked(
        rt,
        alloc,
        plant,
        &mut workers,
        dialers,
        clock,
        input,
        out,
    )?;
    Ok(Ran {
        plant,
        workers,
        console,
    })
}
