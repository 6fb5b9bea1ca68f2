ghost use Rattle.std.specs.Prelude.{◌≡◌, ◌^◌, ◌≤◌, ◌<◌, [], length, None, IfOk, IfErr, IfSome};
ghost use Rattle.std.specs.List.{AllByRecursion};
ghost use Rattle.plant_book.specs.Site.{inverters};
ghost use Rattle.plant_book.specs.Calls.{moment, named};
ghost use Rattle.plant_book.specs.Answered.{IsInRange};
ghost use Rattle.plant_book.specs.Carry.{EachBook};
ghost use Rattle.plant_ledger.specs.Plant.{IsSound};
ghost use Rattle.busbars.specs.Buses.{EachFits, IsFirstFault};
ghost use Rattle.busbars.specs.Caps.{ReservesUnderCaps, HoldsUnderCaps};
ghost use Rattle.busbars.specs.Applied.{IsApplied};

use crate::bus::{Bus, BusFault};
use crate::entering::enter;
use crate::fault::first_fault;
use plant_book::{Call, MOMENT_MAX};
use plant_ledger::{BookFull, Outcome, Plant};
use std::marker::Model;

/// The reply to a call.
#[derive(Debug, Drop)]
pub enum BusReply {
    /// What the plant answers.
    Plain(Outcome),
    /// A bus that holds the inverter has too little left for an Ask, which was not entered.
    BusFull {
        /// The place of the first such bus in the list, from 0.
        bus: u32,
        /// What is left on it, in mW: its cap less what its inverters have reserved.
        left: u64,
    },
}

/// The ledger of one plant whose buses have caps of their own.
#[derive(Debug, Drop)]
pub struct BusPlant {
    plant: Plant,
    buses: Vec<Bus>,
}

impl Model for BusPlant {
    ghost use Rattle.busbars.specs.Applied.{BusPlantRecord, IsBusPlant};

    ghost Value = { BusPlantRecord };

    ghost view = { λ p. record { book = p.plant; buses = p.buses.items } };

    ghost invariant = { λ p. IsBusPlant (record { book = p.plant; buses = p.buses.items }) };
}

impl BusPlant {
    /// A plant with these buses, of which it has 32 at most, each with a cap of at most 10^14 mW. The plant has no call
    /// yet. A refusal drops it.
    pub fn new(plant: Plant, buses: Vec<Bus>) -> Result<BusPlant, BusFault>
        requires no_call { plant.entries ≡ [] }
        requires first { plant.carry ≡ None }
        requires few { length buses.items ≤ 32 }
        requires low { AllByRecursion (λ bus. bus.cap ≤ 10 ^ 14) buses.items }
        ensures made { IfOk result (λ made. made ≡ record { book = plant; buses = buses.items }) }
        ensures fit { IfOk result (λ made. EachFits plant.site [] buses.items) }
        ensures refused { IfErr result (λ fault. IsFirstFault plant.site buses.items fault) }

        // Of each bus: what its inverters have reserved is at most its cap, and so is what they hold.
        ensures under { IfOk result (λ made. EachBook plant (ReservesUnderCaps buses.items)) }
        ensures holds { IfOk result (λ made. EachBook plant (HoldsUnderCaps buses.items)) }
    {
        // A plant's book is a kept one, as its count of calls tells.
        let _calls = plant.calls();
        match first_fault(&plant, &buses) {
            Some(fault) => Err(fault),
            None => Ok(BusPlant { plant, buses }),
        }
    }

    /// Enters a call and answers it. An Ask first enters a Tick of its moment; it is entered, and the plant's to answer,
    /// where each bus that holds the inverter has the room.
    pub fn apply(&mut self, call: Call) -> Result<BusReply, BookFull>
        requires moment { moment call ≤ MOMENT_MAX }
        requires of_site { IfSome (named call) (λ inverter. inverter < inverters self.old.book.site) }
        requires in_range { IsInRange call }
        ensures applied { IsApplied self.old.buses call result self.old.book self.new.book }
        ensures buses { self.new.buses ≡ self.old.buses }

        // After each call, of every bus: what its inverters have reserved is at most its cap. Behind the silence, and in
        // the first life of a plant, so is what they hold.
        ensures under { EachBook self.new.book (ReservesUnderCaps self.new.buses) }
        ensures holds { EachBook self.new.book (HoldsUnderCaps self.new.buses) }

        // The plant's own promises hold as without buses.
        ensures sound { EachBook self.new.book IsSound }
    {
        enter(&mut self.plant, &self.buses, call)
    }

    /// The plant.
    pub fn plant(&self) -> &Plant
        ensures { result.now ≡ self.now.book }
    {
        &self.plant
    }

    /// The buses, in their order.
    pub fn buses(&self) -> &[Bus]
        ensures { result.now ≡ self.now.buses }
    {
        &self.buses
    }
}
