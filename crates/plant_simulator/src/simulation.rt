//! A plant that is simulated, step by step.
ghost use Rattle.std.specs.Prelude.{◌≡◌, ◌+◌, ◌<◌, ◌≤◌, ◌^◌, length, map, replicate, IfOk, OnOk};
ghost use Rattle.plant_book.specs.Calls.{moment};
ghost use Rattle.plant_simulator.specs.Words as words;
ghost use Rattle.plant_simulator.specs.World.{fresh};
ghost use Rattle.plant_simulator.specs.Inverter as rule;
ghost use Rattle.plant_simulator.specs.Step as steps;
ghost use Rattle.plant_simulator.specs.Ready.{IsReady};
ghost use Rattle.plant_simulator.specs.Summary.{unlinked, beginning};

mod calls;
mod happenings;
mod lines;
mod lives;
mod sums;

use crate::inverter::Inverter;
use crate::words;
use limiter_num::NoMemory;
use lives::first_life;
use rand_pcg::Pcg32;
use restart_silence::Lives;
use std::alloc::Global;
use std::marker::Model;

/// Between two steps fewer milliseconds than this pass.
const PAUSES: u64 = 2_000;

const _: () = prove!(PAUSES == 2_000);

/// What happens in a step has a number below this.
const KINDS: u64 = 16;

const _: () = prove!(KINDS == 16);

/// A plant that is simulated: its ledger, and its inverters with the requests on their way to them.
#[derive(Drop)]
pub struct Simulation {
    /// The ledger.
    lives: Lives,
    /// The moment, in ms.
    moment: u64,
    /// The words that are not drawn yet.
    words: Pcg32,
    /// The number of the life, from 1.
    life: u32,
    /// How many Asks were granted, over all lives.
    granted: u32,
    /// How many writes were freed, over all lives.
    freed: u32,
    /// The inverters by their numbers.
    inverters: Vec<Inverter>,
}

impl Model for Simulation {
    ghost use Rattle.std.specs.Prelude.{◌≡◌, None};
    ghost use Rattle.plant_book.specs.Part.{first_book};
    ghost use Rattle.plant_simulator.specs.World.{World};

    ghost Value = { World };

    ghost view = { λ s. record {
      moment = s.moment;
      words = s.words;
      life = s.life;
      book = first_book s.lives;
      granted = s.granted;
      freed = s.freed;
      inverters = s.inverters.items;
    } };

    ghost invariant = { λ s. s.lives.carry ≡ None };
}

impl Simulation {
    /// Draws a number below a bound.
    fn draw(&mut self, bound: u64) -> u64
        requires { 0 < bound }
        ensures number { result ≡ words.draw 0 bound self.old.words }
        ensures below { result < bound }
        ensures drawn { self.new ≡ steps.drawn 1 self.old }
        ensures ready { IsReady self.old → IsReady self.new }
    {
        words::draw(&mut self.words, bound)
    }

    /// How many inverters there are.
    fn count(&self) -> usize
        ensures { result ≡ length self.now.inverters }
    {
        self.inverters.len()
    }

    /// Time passes: reverts that are due come, and writes that are too late leave.
    #[tactic(auto, unfolding(crate::specs::Step::passed))]
    fn pass(&mut self)
        requires { self.old.moment ≤ 10 ^ 15 }
        ensures { self.new ≡ steps.passed self.old }
    {
        let moment = self.moment + words::draw(&mut self.words, PAUSES);
        self.moment = moment;
        pass_each(&mut self.inverters, moment);
    }

    /// Something happens, by a number that was drawn for it.
    #[tactic(auto, unfolding(crate::specs::Step::happened))]
    fn happen(&mut self, kind: u32, number: u8) -> Result<(), NoMemory>
        requires ready { IsReady self.old }
        requires life { self.old.life < 2 ^ 31 }
        requires of_site { number < length self.old.inverters }
        ensures { OnOk result (self.new ≡ steps.happened kind number self.old) }
    {
        match kind {
            0..=3 => self.ask(number),
            4..=6 => self.read_back(number),
            7..=11 => {
                self.go_along(number);
                Ok(())
            }
            12 => self.come_late(number),
            13 => {
                self.wish(number);
                Ok(())
            }
            14 => self.relink(number),
            _ => self.tick_or_restart(),
        }
    }

    /// A plant of so many inverters, before its first Links.
    fn unlinked(alloc: Global, seed: u64, inverters: u32) -> Result<Simulation, NoMemory>
        requires some { 1 ≤ inverters }
        requires few { inverters ≤ 64 }
        ensures { IfOk result (λ simulation. simulation ≡ unlinked seed inverters) }
    {
        let lives = first_life(alloc, inverters)?;
        let inverters = fresh_inverters(alloc, inverters)?;
        Ok(Simulation {
            lives,
            moment: 0,
            words: words::seeded(seed),
            life: 1,
            granted: 0,
            freed: 0,
            inverters,
        })
    }

    /// A plant of so many inverters at its beginning, whose words are those of a seed.
    #[tactic(auto, unfolding(crate::specs::Summary::beginning))]
    pub fn begin(alloc: Global, seed: u64, inverters: u32) -> Result<Simulation, NoMemory>
        requires some { 1 ≤ inverters }
        requires few { inverters ≤ 64 }
        ensures { IfOk result (λ simulation. simulation ≡ beginning seed inverters) }
    {
        let mut simulation = Simulation::unlinked(alloc, seed, inverters)?;
        simulation.link_all();
        Ok(simulation)
    }

    /// The number of the life.
    pub fn life(&self) -> u32
        ensures { result ≡ self.now.life }
    {
        self.life
    }

    /// How many Asks were granted, over all lives.
    pub fn granted(&self) -> u32
        ensures { result ≡ self.now.granted }
    {
        self.granted
    }

    /// How many writes were freed, over all lives.
    pub fn freed(&self) -> u32
        ensures { result ≡ self.now.freed }
    {
        self.freed
    }

    /// One step: time passes, then one thing happens to one inverter.
    #[tactic(auto, unfolding(crate::specs::Step::stepped))]
    pub fn step(&mut self) -> Result<(), NoMemory>
        requires ready { IsReady self.old }
        requires life { self.old.life < 2 ^ 31 }
        requires moment { self.old.moment + 2000 ≤ 10 ^ 15 }
        ensures { OnOk result (self.new ≡ steps.stepped self.old) }
    {
        self.pass();
        let count = self.count() as u64;
        let number = self.draw(count) as u8;
        let kind = self.draw(KINDS) as u32;
        self.happen(kind, number)
    }
}

/// These inverters go on to a later moment in ms.
fn pass_each(inverters: &mut [Inverter], moment: u64)
    ensures { inverters.new ≡ map (rule.inverter_at moment) inverters.old }
{
    for inverter in inverters.iter_mut() {
        inverter.pass(moment);
    }
}

/// So many inverters at their floors.
fn fresh_inverters(alloc: Global, count: u32) -> Result<Vec<Inverter>, NoMemory>
    ensures { IfOk result (λ inverters. inverters.items ≡ replicate count fresh) }
{
    let mut inverters = Vec::new(alloc);
    for _made in 0..count {
        if inverters.push(Inverter::new(alloc)).is_err() {
            return Err(NoMemory);
        }
    }
    Ok(inverters)
}
