//! Which list of buses a plant can't have.
ghost use Rattle.std.specs.Prelude.{◌≡◌, ◌≤◌, [], length, None, MatchOption, IsTrue, ◌↔◌};
ghost use Rattle.plant_book.specs.Site.{inverters, floor_at};
ghost use Rattle.plant_ledger.specs.Plant.{IsKept};
ghost use Rattle.busbars.specs.Buses.{IsOfSite, CrossesOne, Fits, EachFits, HasCause, IsFirstFault};
ghost use Rattle.busbars.specs.Sums.{AreSums};

use crate::bus::{Bus, BusCause, BusFault};
use crate::sums::{Sums, reserved_below, sum_on};
use plant_book::Site;
use plant_ledger::Plant;

/// The first bus that a plant without a call can't have, if there is one.
pub fn first_fault(plant: &Plant, buses: &[Bus]) -> Option<BusFault>
    requires kept { IsKept plant.now }
    requires no_call { plant.now.entries ≡ [] }
    requires first { plant.now.carry ≡ None }
    requires few { length buses.now ≤ 32 }
    ensures { MatchOption result (EachFits plant.now.site [] buses.now)
        (λ fault. IsFirstFault plant.now.site buses.now fault) }
{
    // Without a call the floors are all that is reserved.
    let floors = reserved_below(plant);
    for (place, bus) in buses.iter().enumerate() {
        if let Some(cause) = cause_of(plant.site(), &floors, &buses[..place], bus) {
            return Some(BusFault {
                bus: place as u32,
                cause,
            });
        }
    }
    None
}

/// The first cause for which a site can't have the bus behind these, if there is one.
fn cause_of(site: &Site, floors: &Sums, earlier: &[Bus], bus: &Bus) -> Option<BusCause>
    requires few { inverters site.now ≤ 64 }
    requires floors { AreSums (inverters site.now) (floor_at site.now) floors.now }
    ensures { MatchOption result (Fits site.now earlier.now bus.now)
        (λ cause. HasCause site.now earlier.now bus.now cause) }
{
    if bus.lo > bus.hi || usize::from(bus.hi) >= site.units.len() {
        return Some(BusCause::Range);
    }
    if crosses_one(earlier, bus) {
        return Some(BusCause::Crossing);
    }
    let sum = sum_on(floors, bus);
    if bus.cap < sum {
        return Some(BusCause::FloorsOver(sum));
    }
    None
}

/// Whether one of these buses crosses it.
fn crosses_one(earlier: &[Bus], bus: &Bus) -> bool
    ensures { IsTrue result ↔ CrossesOne earlier.now bus.now }
{
    earlier.iter().any(|other| bus.crosses(other))
}
