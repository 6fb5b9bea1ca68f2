//! One inverter of a simulation, with the requests on their way to it.
ghost use Rattle.std.specs.Prelude.{◌≡◌, ◌<◌, [], ◌∷◌, drop, length, slice_get, Some, IfOk, OnOk, MatchOption};
ghost use Rattle.plant_simulator.specs.World.{held_by};
ghost use Rattle.plant_simulator.specs.Inverter as rule;
ghost use Rattle.plant_simulator.specs.Step as steps;

use super::Simulation;
use crate::inverter::{OldWrite, Request};
use limiter_num::NoMemory;
use plant_book::Reply;

impl Simulation {
    /// The limit that an inverter holds, as a raw percentage.
    pub(super) fn held_by(&self, number: u8) -> u16
        requires { number < length self.now.inverters }
        ensures { result ≡ held_by self.now number }
    {
        self.inverters[usize::from(number)].held()
    }

    /// The request of a reply joins the line of an inverter.
    #[tactic(auto, using(crate::proofs::Lists::changed_at_set))]
    pub(super) fn queue(&mut self, number: u8, reply: &Reply) -> Result<(), NoMemory>
        requires { number < length self.old.inverters }
        ensures { OnOk result (self.new ≡ steps.changed number (rule.queued reply.now) self.old) }
    {
        let inverter = &mut self.inverters[usize::from(number)];
        inverter.queue(reply)
    }

    /// Takes the first request off the line of an inverter.
    #[tactic(auto, using(crate::proofs::Lists::changed_at_set))]
    pub(super) fn drop_first(&mut self, number: u8)
        requires { number < length self.old.inverters }
        ensures { self.new ≡ steps.changed number rule.without_first self.old }
    {
        let inverter = &mut self.inverters[usize::from(number)];
        inverter.drop_first();
    }

    /// Empties the line of an inverter. Its writes are old ones of the life.
    #[tactic(auto, using(crate::proofs::Lists::changed_at_set))]
    pub(super) fn empty(&mut self, number: u8) -> Result<(), NoMemory>
        requires { number < length self.old.inverters }
        ensures { OnOk result (self.new ≡ steps.changed number (rule.emptied self.old.life) self.old) }
    {
        let life = self.life;
        let inverter = &mut self.inverters[usize::from(number)];
        inverter.empty(life)
    }

    /// An inverter holds a limit until it reverts at a moment in ms.
    #[tactic(auto, using(crate::proofs::Lists::changed_at_set))]
    pub(super) fn hold(&mut self, number: u8, raw: u16, revert: u64)
        requires { number < length self.old.inverters }
        ensures { self.new ≡ steps.changed number (rule.holding raw revert) self.old }
    {
        let inverter = &mut self.inverters[usize::from(number)];
        inverter.hold(raw, revert);
    }

    /// The first request of the line of an inverter.
    pub(super) fn first(&self, number: u8) -> Option<Request>
        requires { number < length self.now.inverters }
        ensures { MatchOption result (steps.line_of number self.now ≡ [])
            (λ request. steps.line_of number self.now ≡ request ∷ drop 1 (steps.line_of number self.now)) }
    {
        let inverter = &self.inverters[usize::from(number)];
        inverter.first()
    }

    /// How many old writes of an inverter are not delivered yet.
    pub(super) fn old_writes(&self, number: u8) -> usize
        requires { number < length self.now.inverters }
        ensures { result ≡ length (steps.old_of number self.now) }
    {
        let inverter = &self.inverters[usize::from(number)];
        inverter.old_writes()
    }

    /// Takes out the old write at a place, and the earlier ones of its link and life.
    #[tactic(auto, using(crate::proofs::Lists::changed_at_set))]
    pub(super) fn take_old(&mut self, number: u8, place: usize) -> Result<OldWrite, NoMemory>
        requires of_site { number < length self.old.inverters }
        requires place { place < length (steps.old_of number self.old) }
        ensures chosen { IfOk result (λ chosen. slice_get (steps.old_of number self.old) place ≡ Some chosen) }
        ensures left { IfOk result (λ chosen.
            self.new ≡ steps.changed number (rule.without_old place chosen) self.old) }
    {
        let inverter = &mut self.inverters[usize::from(number)];
        inverter.take_old(place)
    }
}
