//! All workers on one thread.
ghost use Rattle.std.specs.Prelude.{◌≡◌, ◌<◌, ◌≤◌, ◌+◌, [], length, vec_len, None, true, false, cond};
ghost use Rattle.std.specs.List.{AllByRecursion};
ghost use Rattle.plant_book.specs.Site.{inverters};
ghost use Rattle.plant_book.specs.Part.{first_book};
ghost use Rattle.plant_book.specs.Answered.{IsBook};
ghost use Rattle.plant_ledger.specs.Plant.{IsSafeLife};
ghost use Rattle.ledger_desk.specs.Plain.{life_of};
ghost use Rattle.worker_turn.specs.Worker.{IsBetweenTurns};
ghost use Rattle.plant_run.specs.Own.{is_workers};
ghost use Rattle.plant_run.specs.Works.{HasFullBook, IsFull, Works, one_book};
ghost use Rattle.plant_run.specs.Running.{EachWorker, EachWorks, IsNew, IsOfSite, IsOver, IsOfOne, Differ, StayBehind};
ghost use Rattle.plant_run.specs.Rounds.{IsWhole, IsSeat, Grows, WorkOn, book_of, turns_left, all_left};

use crate::turns::one_turn;
use ledger_desk::PlainDesk;
use plant_ledger::Plant;
use std::alloc::Global;
use worker_turn::Worker;
use world_traits::{Clock, Dialer};

/// Gives each worker one turn after another, in their order, round after round until all are over. The worker at a
/// place uses the dialer at that place; further dialers are left alone. The plant comes back with the book that the
/// workers made. It may wait, as a dialer and the clock may, and takes no memory but the workers'.
pub fn run_plain<N: Dialer, K: Clock>(
    alloc: Global,
    plant: Plant,
    workers: &mut Vec<Worker>,
    dialers: &mut Vec<N>,
    clock: &K,
) -> Plant
    requires dialers { vec_len workers.old ≤ vec_len dialers.old }
    requires opened { (plant.carry ≡ None) × (plant.entries ≡ []) }
    requires workers { EachWorker IsNew workers.old.items }
    requires site { EachWorker (IsOfSite plant.site) workers.old.items }
    requires differ { Differ workers.old.items }

    // The life is that of the plant, in its one book of right replies. Whatever past it followed that fits, it is
    // safe at every moment.
    ensures life { result ≡ record plant { entries = result.entries } }
    ensures answered { IsBook (first_book result) }
    ensures safe { IsSafeLife (first_book result) }

    // Each entry is a worker's. What each worker did, to its end, agrees with its entries and its dialer.
    ensures owned { AllByRecursion (IsOfOne workers.old.items) result.entries }
    ensures works { EachWorks N.links N.faults (K.may_give clock.now) (first_book plant) (first_book result)
        (HasFullBook (one_book result)) workers.old.items workers.new.items dialers.old.items dialers.new.items }
    ensures over { EachWorker IsOver workers.new.items }

    ensures workers_stay { vec_len workers.new ≡ vec_len workers.old }
    ensures dialers_stay { vec_len dialers.new ≡ vec_len dialers.old }
    ensures behind { StayBehind (vec_len workers.old) dialers.old.items dialers.new.items }
{
    let mut desk = PlainDesk::new(alloc, plant);
    make_rounds(&mut desk, workers, dialers, clock);
    desk.into_plant()
}

/// Makes rounds until all workers are over.
fn make_rounds<N: Dialer, K: Clock>(
    desk: &mut PlainDesk,
    workers: &mut [Worker],
    dialers: &mut [N],
    clock: &K,
)
    requires dialers { length workers.old ≤ length dialers.old }
    requires whole { IsWhole desk.old }
    requires seats { EachWorker (IsSeat (inverters desk.old.book.site)) workers.old }
    requires differ { Differ workers.old }
    ensures whole { IsWhole desk.new }
    ensures life { life_of desk.new ≡ life_of desk.old }
    ensures work { WorkOn N.links N.faults (K.may_give clock.now) (book_of desk.old) (book_of desk.new)
        workers.old workers.new dialers.old dialers.new }
    ensures over { EachWorker IsOver workers.new }
{
    while round(desk, workers, dialers, clock) {}
}

/// Gives each worker one turn, and tells whether one of them is ready for another.
fn round<N: Dialer, K: Clock>(
    desk: &mut PlainDesk,
    workers: &mut [Worker],
    dialers: &mut [N],
    clock: &K,
) -> bool
    requires dialers { length workers.old ≤ length dialers.old }
    requires whole { IsWhole desk.old }
    requires seats { EachWorker (IsSeat (inverters desk.old.book.site)) workers.old }
    requires differ { Differ workers.old }
    ensures whole { IsWhole desk.new }
    ensures life { life_of desk.new ≡ life_of desk.old }
    ensures seats { EachWorker (IsSeat (inverters desk.new.book.site)) workers.new }
    ensures differ { Differ workers.new }
    ensures work { WorkOn N.links N.faults (K.may_give clock.now) (book_of desk.old) (book_of desk.new)
        workers.old workers.new dialers.old dialers.new }
    ensures over { result ≡ false → EachWorker IsOver workers.new }
    ensures fewer { all_left workers.new + cond result 1 0 ≤ all_left workers.old }
{
    let mut again = false;
    for place in 0..workers.len() {
        if turn_of_life(&mut workers[place], desk, &mut dialers[place], clock) {
            again = true;
        }
    }
    again
}

/// Gives a worker one turn on the desk of a whole life, and tells whether it is ready for another.
fn turn_of_life<N: Dialer, K: Clock>(
    worker: &mut Worker,
    desk: &mut PlainDesk,
    dialer: &mut N,
    clock: &K,
) -> bool
    requires whole { IsWhole desk.old }
    requires seat { IsSeat (inverters desk.old.book.site) worker.old }
    ensures whole { IsWhole desk.new }
    ensures life { life_of desk.new ≡ life_of desk.old }
    ensures rests { IsBetweenTurns worker.new.state.step }
    ensures grows { Grows (λ entry. is_workers worker.old.job.inverter entry.call ≡ true) (book_of desk.old)
        (book_of desk.new) }
    ensures works { Works (K.may_give clock.now) worker.old.job (book_of desk.old) (book_of desk.new)
        (IsFull (book_of desk.new)) worker.old worker.new (N.links dialer.old) (N.links dialer.new)
        (N.faults dialer.old) (N.faults dialer.new) }
    ensures over { result ≡ false → IsOver worker.new }
    ensures fewer { turns_left worker.new + cond result 1 0 ≤ turns_left worker.old }
{
    one_turn(worker, desk, dialer, clock)
}
