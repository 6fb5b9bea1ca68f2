//! All workers and the console at once.
ghost use Rattle.std.specs.Prelude.{◌≡◌, ◌<◌, ◌≤◌, ◌+◌, [], ◌∷◌, ◌++◌, All, length, vec_len, vec_capacity, None, IfOk, OnErr};
ghost use denote.Param.Send.{IsSend, IsSync};
ghost use Rattle.world_traits.specs.Causes.{HasCause};
ghost use Rattle.operator_console.specs.Deeds.{tests_of as console_tests};
ghost use Rattle.operator_console.specs.Transcript.{IsTranscript, at_input, at_output};
ghost use Rattle.plant_desk.specs.Passes.{IsClosed};
ghost use Rattle.plant_run.specs.Running.{EachWorker, IsNew, IsOfSite, Differ, StayBehind};
ghost use Rattle.plant_run.specs.Forked.{AllRunOut, EachReady, IsForked};

use crate::crew::work_apart;
use ledger_desk::Desk;
use limiter_num::NoMemory;
use operator_console::{ConsoleEnd, console};
use plant_desk::{DeskOf, Pass, PlantDesk};
use plant_ledger::Plant;
use std::alloc::Global;
use std::sync::Wait;
use std::thread::{Threads, join_mut};
use worker_turn::Worker;
use world_traits::{Clock, Dialer, Sink, Source};

/// What came of a run.
#[derive(Debug, Drop)]
pub struct RunEnd {
    /// The ledger, on the last book of the life.
    pub plant: Plant,
    /// How the console ended.
    pub console: ConsoleEnd,
}

/// The desks of the workers and of the console, each with a pass of its own.
#[derive(Drop)]
struct Seats<'a, R: Wait> {
    workers: Vec<DeskOf<'a, R>>,
    operator: DeskOf<'a, R>,
    /// Room for all passes.
    room: Vec<Pass>,
}

/// Works a plant by threads: one for each worker, which makes its turns to its end, and one for the console of an
/// operator. All enter their calls in one ledger, through desks that share it. The worker at a place uses the dialer at
/// that place; further dialers are left alone. It ends when all workers and the console are over, and may wait, as a
/// dialer, the clock, the console's input and the desk may.
///
/// It takes its memory first: at `NoMemory` no dialer, no input and no output was used, and the plant is dropped. Later
/// the workers and the console take memory, and one that gets none is over.
pub fn run_forked<
    R: Threads + Wait + Sync,
    N: Dialer + Send,
    K: Clock + Sync,
    C: Source + Send,
    O: Sink + Send,
>(
    rt: &R,
    alloc: Global,
    plant: Plant,
    workers: &mut Vec<Worker>,
    dialers: &mut Vec<N>,
    clock: &K,
    input: &mut C,
    out: &mut O,
) -> Result<RunEnd, NoMemory>
    requires dialers { vec_len workers.old ≤ vec_len dialers.old }
    requires opened { (plant.carry ≡ None) × (plant.entries ≡ []) }
    requires workers { EachWorker IsNew workers.old.items }
    requires site { EachWorker (IsOfSite plant.site) workers.old.items }
    requires differ { Differ workers.old.items }

    // What workers and console did on one life.
    ensures forked { IfOk result (λ end. IsForked N.links N.faults (K.may_give clock.now) plant end.plant
        workers.old.items workers.new.items dialers.old.items dialers.new.items end.console
        (C.left input.old) (C.left input.new) (O.taken out.old) (O.taken out.new)) }

    // The console answers a failed read and a failed write exactly where one failed, and writes nothing more then.
    ensures input_faults { IfOk result (λ end. HasCause (C.faults input.old) (C.faults input.new)
        (at_input end.console)) }
    ensures output_faults { IfOk result (λ end. HasCause (O.faults out.old) (O.faults out.new)
        (at_output end.console)) }
    ensures stops { O.faults out.old ≡ 0 → O.late out.new ≡ O.late out.old }

    ensures workers_stay { vec_len workers.new ≡ vec_len workers.old }
    ensures dialers_stay { vec_len dialers.new ≡ vec_len dialers.old }
    ensures behind { StayBehind (vec_len workers.old) dialers.old.items dialers.new.items }
    ensures untouched { OnErr result ((workers.new.items ≡ workers.old.items) × (dialers.new.items ≡ dialers.old.items)
        × (input.new ≡ input.old) × (out.new ≡ out.old)) }
{
    // A plant keeps a book that may be opened, so it has 64 inverters at most.
    let calls = plant.calls();
    prove!(calls == 0);
    let inverters = plant.site().units.len() as u32;
    let count = workers.len() as u32;
    let (desk, passes) = PlantDesk::new(alloc, plant, count + 1)?;
    let Seats {
        workers: mut desks,
        mut operator,
        room,
    } = take_seats(rt, alloc, &desk, passes)?;
    let (dialers, _) = dialers.split_at_mut(workers.len());
    let console = work_and_listen(
        rt,
        alloc,
        inverters,
        &mut desks,
        &mut operator,
        workers,
        dialers,
        clock,
        input,
        out,
    );
    let passes = hand_in(desks, operator, room);
    let plant = close(desk, passes);
    Ok(RunEnd { plant, console })
}

/// A desk for each worker and for the console, with the passes of a shared desk: the last one is the console's.
fn take_seats<'a, R: Wait>(
    rt: &'a R,
    alloc: Global,
    desk: &'a PlantDesk,
    mut passes: Vec<Pass>,
) -> Result<Seats<'a, R>, NoMemory>
    requires some { 1 ≤ vec_len passes }
    requires of_desk { All (λ pass. pass.desk ≡ desk.now) passes.items }
    ensures seated { IfOk result (λ seats. seats.workers.items ++ seats.operator ∷ [] ≡ passes.items) }
    ensures empty { IfOk result (λ seats. seats.room.items ≡ []) }
    ensures room { IfOk result (λ seats. vec_len passes ≤ vec_capacity seats.room) }
{
    let Ok(room) = Vec::with_capacity(alloc, passes.len()) else {
        return Err(NoMemory);
    };
    let Some(last) = passes.pop() else {
        unreachable!();
    };
    let workers = desks_of(rt, alloc, desk, passes)?;
    Ok(Seats {
        workers,
        operator: DeskOf::new(rt, desk, last),
        room,
    })
}

/// A desk for each pass, in their order.
fn desks_of<'a, R: Wait>(
    rt: &'a R,
    alloc: Global,
    desk: &'a PlantDesk,
    passes: Vec<Pass>,
) -> Result<Vec<DeskOf<'a, R>>, NoMemory>
    requires of_desk { All (λ pass. pass.desk ≡ desk.now) passes.items }
    ensures { IfOk result (λ desks. desks.items ≡ passes.items) }
{
    let Ok(mut desks) = Vec::with_capacity(alloc, passes.len()) else {
        return Err(NoMemory);
    };
    for pass in passes {
        desks.push_reserved(DeskOf::new(rt, desk, pass));
    }
    Ok(desks)
}

/// Gives the workers their turns and the console its lines, all at once. It ends when all are over.
fn work_and_listen<
    R: Threads + Sync,
    D: Desk + Send,
    N: Dialer + Send,
    K: Clock + Sync,
    C: Source + Send,
    O: Sink + Send,
>(
    rt: &R,
    alloc: Global,
    inverters: u32,
    desks: &mut [D],
    operator: &mut D,
    workers: &mut [Worker],
    dialers: &mut [N],
    clock: &K,
    input: &mut C,
    out: &mut O,
) -> ConsoleEnd
    requires few { inverters ≤ 64 }
    requires of_desk { inverters ≡ (D.state operator.old).inverters }
    requires desks { length desks.old ≡ length workers.old }
    requires dialers { length dialers.old ≡ length workers.old }
    requires ready { EachReady D.state workers.old desks.old }
    ensures workers { AllRunOut D.state D.tests D.kept N.links N.faults (K.may_give clock.now) workers.old workers.new
        desks.old desks.new dialers.old dialers.new }
    ensures console { IsTranscript result (console_tests (K.may_give clock.now) (D.tests operator.new))
        (D.tests operator.new).was_full (D.state operator.old) (D.state operator.new)
        (C.left input.old) (C.left input.new) (O.taken out.old) (O.taken out.new) }
    ensures kept { D.kept operator.new ≡ D.kept operator.old }
    ensures input_faults { HasCause (C.faults input.old) (C.faults input.new) (at_input result) }
    ensures output_faults { HasCause (O.faults out.old) (O.faults out.new) (at_output result) }
    ensures stops { O.faults out.old ≡ 0 → O.late out.new ≡ O.late out.old }
{
    let mut crew = ||
        requires { IsSync R.row × IsSync K.row × IsSend D.row × IsSend N.row
            × (length desks.now ≡ length workers.now) × (length dialers.now ≡ length workers.now)
            × EachReady D.state workers.now desks.now }
        ensures { AllRunOut D.state D.tests D.kept N.links N.faults (K.may_give clock.entry.now) workers.entry.now
            workers.exit.now desks.entry.now desks.exit.now dialers.entry.now dialers.exit.now }
    { work_apart(rt, clock, workers, desks, dialers) };
    let mut listen = || -> ConsoleEnd
        requires { (inverters ≤ 64) × (inverters ≡ (D.state operator.now).inverters) }
        ensures transcript { IsTranscript result (console_tests (K.may_give clock.entry.now)
            (D.tests operator.exit.now))
            (D.tests operator.exit.now).was_full (D.state operator.entry.now) (D.state operator.exit.now)
            (C.left input.entry.now) (C.left input.exit.now) (O.taken out.entry.now) (O.taken out.exit.now) }
        ensures kept { D.kept operator.exit.now ≡ D.kept operator.entry.now }
        ensures input_faults { HasCause (C.faults input.entry.now) (C.faults input.exit.now) (at_input result) }
        ensures output_faults { HasCause (O.faults out.entry.now) (O.faults out.exit.now) (at_output result) }
        ensures stops { O.faults out.entry.now ≡ 0 → O.late out.exit.now ≡ O.late out.entry.now }
    { console(alloc, operator, inverters, input, out, clock) };
    let (_, end) = join_mut(rt, &mut crew, &mut listen);
    end
}

/// The passes of all desks: first the console's, then the workers'.
fn hand_in<R: Wait>(
    workers: Vec<DeskOf<'_, R>>,
    operator: DeskOf<'_, R>,
    mut passes: Vec<Pass>,
) -> Vec<Pass>
    requires empty { passes.items ≡ [] }
    requires room { vec_len workers + 1 ≤ vec_capacity passes }
    ensures { result.items ≡ operator.entry ∷ workers.entry.items }
{
    passes.push_reserved(operator.into_pass());
    for desk in workers {
        passes.push_reserved(desk.into_pass());
    }
    passes
}

/// The plant of a desk all of whose passes are here.
fn close(desk: PlantDesk, passes: Vec<Pass>) -> Plant
    requires of_desk { All (λ pass. pass.desk ≡ desk) passes.items }
    requires all { desk.passes ≤ vec_len passes }
    ensures { IsClosed desk passes.items result }
{
    match desk.close(passes) {
        Ok(plant) => plant,
        Err(_) => unreachable!(),
    }
}
