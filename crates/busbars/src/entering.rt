//! How a call enters a plant with buses.
ghost use Rattle.std.specs.Prelude.{◌≡◌, ◌<◌, ◌≤◌, length, None, IfSome, MatchOption};
ghost use Rattle.std.specs.List.{AllByRecursion};
ghost use Rattle.plant_book.specs.Site.{inverters};
ghost use Rattle.plant_book.specs.Calls.{moment, named};
ghost use Rattle.plant_book.specs.Answered.{IsInRange};
ghost use Rattle.plant_book.specs.Part.{first_book};
ghost use Rattle.plant_book.specs.Carry.{EachBook};
ghost use Rattle.plant_ledger.specs.Plant.{IsKept, IsSound};
ghost use Rattle.busbars.specs.Buses.{IsOfSite};
ghost use Rattle.busbars.specs.Caps.{asked_more, HasRoomOnAll, IsFirstFull};
ghost use Rattle.busbars.specs.Applied.{IsApplied};

use crate::bus::Bus;
use crate::plant::BusReply;
use crate::sums::{reserved_below, sum_on};
use plant_book::{Call, MOMENT_MAX};
use plant_ledger::{BookFull, Plant};

/// Enters a call in a plant with these buses, and answers it.
pub fn enter(plant: &mut Plant, buses: &[Bus], call: Call) -> Result<BusReply, BookFull>
    requires moment { moment call ≤ MOMENT_MAX }
    requires of_site { IfSome (named call) (λ inverter. inverter < inverters plant.old.site) }
    requires in_range { IsInRange call }
    requires first { plant.old.carry ≡ None }
    requires few { length buses.now ≤ 32 }
    requires buses_of_site { AllByRecursion (IsOfSite plant.old.site) buses.now }
    ensures applied { IsApplied buses.now call result plant.old plant.new }
    ensures kept { IsKept plant.new }
    ensures sound { EachBook plant.new IsSound }
{
    let Call::Ask { at, inverter, raw } = call else {
        return Ok(BusReply::Plain(plant.apply(call)?));
    };
    plant.apply(Call::Tick { at })?;
    match first_full(plant, buses, inverter, raw) {
        Some((bus, left)) => Ok(BusReply::BusFull { bus, left }),
        None => Ok(BusReply::Plain(plant.apply(call)?)),
    }
}

/// The place of the first bus that holds the inverter and has less left than the limit asks for, and what is left on
/// it in mW, if there is one.
fn first_full(plant: &Plant, buses: &[Bus], inverter: u8, raw: u16) -> Option<(u32, u64)>
    requires kept { IsKept plant.now }
    requires first { plant.now.carry ≡ None }
    requires of_site { inverter < inverters plant.now.site }
    requires few { length buses.now ≤ 32 }
    requires buses_of_site { AllByRecursion (IsOfSite plant.now.site) buses.now }
    ensures { MatchOption result (HasRoomOnAll (first_book plant.now) buses.now inverter raw)
        (λ full. IsFirstFull (first_book plant.now) buses.now inverter raw full.0 full.1) }
{
    let more = asked_more(plant, inverter, raw);
    let reserved = reserved_below(plant);
    for (place, bus) in buses.iter().enumerate() {
        let left = bus.cap.saturating_sub(sum_on(&reserved, bus));
        if bus.holds(inverter) && left < more {
            return Some((place as u32, left));
        }
    }
    None
}

/// What a limit asks for beyond what the inverter has reserved, in mW.
fn asked_more(plant: &Plant, inverter: u8, raw: u16) -> u64
    requires kept { IsKept plant.now }
    requires first { plant.now.carry ≡ None }
    requires of_site { inverter < inverters plant.now.site }
    ensures { result ≡ asked_more (first_book plant.now) inverter raw }
{
    let unit = &plant.site().units[usize::from(inverter)];
    unit.rating.mw(raw).saturating_sub(plant.reserved(inverter))
}
