//! The lives of a simulation, one behind a restart of the one before.
ghost use Rattle.std.specs.Prelude.{◌≡◌, ◌+◌, ◌<◌, ◌≤◌, ◌^◌, [], map, None, IfOk, OnOk};
ghost use Rattle.plant_book.specs.Reserved.{now_of};
ghost use Rattle.plant_book.specs.Calls.{moment};
ghost use Rattle.plant_simulator.specs.Site.{site_of};
ghost use Rattle.plant_simulator.specs.Inverter as rule;
ghost use Rattle.plant_simulator.specs.Step as steps;
ghost use Rattle.plant_simulator.specs.Ready.{IsReady};

use super::Simulation;
use crate::inverter::Inverter;
use crate::site::site;
use limiter_num::NoMemory;
use plant_ledger::OpenFault;
use restart_silence::{Lives, RestartFault};
use std::alloc::Global;

impl Simulation {
    /// Empties all lines. Their writes are old ones of the life.
    fn empty_all(&mut self) -> Result<(), NoMemory>
        ensures { OnOk result (self.new ≡ record self.old {
          inverters = map (rule.emptied self.old.life) self.old.inverters;
        }) }
    {
        let life = self.life;
        empty_each(&mut self.inverters, life)
    }

    /// Ends the life and begins the next one. What is on its way is old.
    fn end_life(&mut self) -> Result<(), NoMemory>
        requires ready { IsReady self.old }
        requires life { self.old.life < 2 ^ 31 }
        ensures { OnOk result (self.new ≡ steps.next_life self.old) }
    {
        self.empty_all()?;
        self.begin_life()
    }

    /// Begins the next life, with an empty book.
    fn begin_life(&mut self) -> Result<(), NoMemory>
        requires time { now_of self.old.book ≤ self.old.moment }
        requires moment { self.old.moment ≤ 10 ^ 15 }
        requires life { self.old.life < 2 ^ 31 }
        ensures { OnOk result (self.new ≡ record self.old {
          life = self.old.life + 1;
          book = record { site = self.old.book.site; start = self.old.moment; entries = [] };
        }) }
    {
        let alloc = *self.inverters.allocator();
        match self.lives.restart(alloc, self.moment) {
            Ok(_) => {}
            Err(RestartFault::NoMemory) => return Err(NoMemory),
            Err(RestartFault::TimeBack(_)) => unreachable!(),
        }
        self.life += 1;
        Ok(())
    }

    /// Restarts the controller: each inverter gets a Link in a new life.
    #[tactic(auto, unfolding(crate::specs::Step::restarted))]
    pub(super) fn restart(&mut self) -> Result<(), NoMemory>
        requires ready { IsReady self.old }
        requires life { self.old.life < 2 ^ 31 }
        ensures { OnOk result (self.new ≡ steps.restarted self.old) }
    {
        self.end_life()?;
        self.link_all();
        Ok(())
    }
}

/// Empties the lines of these inverters. Their writes are old ones of a life.
fn empty_each(inverters: &mut [Inverter], life: u32) -> Result<(), NoMemory>
    ensures { OnOk result (inverters.new ≡ map (rule.emptied life) inverters.old) }
{
    for inverter in inverters.iter_mut() {
        inverter.empty(life)?;
    }
    Ok(())
}

/// The ledger of so many inverters at its beginning.
pub(super) fn first_life(alloc: Global, inverters: u32) -> Result<Lives, NoMemory>
    requires some { 1 ≤ inverters }
    requires few { inverters ≤ 64 }
    ensures { IfOk result (λ lives. lives ≡ record {
      site = site_of inverters;
      start = 0;
      carry = None;
      entries = [];
    }) }
{
    let site = site(alloc, inverters)?;
    match Lives::begin(alloc, site, 0) {
        Ok(lives) => Ok(lives),
        Err(OpenFault::NoMemory) => Err(NoMemory),
        Err(OpenFault::NoInverter) => unreachable!(),
        Err(OpenFault::TooManyInverters(_)) => unreachable!(),
        Err(OpenFault::FloorsOverCap(_)) => unreachable!(),
    }
}
