//! What the inverters of a bus have reserved together.
ghost use Rattle.std.specs.Prelude.{◌≡◌, ℕ, ◌+◌, ◌≤◌, ◌<◌, None, slice_index};
ghost use Rattle.plant_book.specs.Site.{SiteRecord, inverters};
ghost use Rattle.plant_book.specs.Reserved.{reserved};
ghost use Rattle.plant_book.specs.Part.{first_book};
ghost use Rattle.plant_ledger.specs.Plant.{IsKept};
ghost use Rattle.busbars.specs.Buses.{IsOfSite, sum_of_members};
ghost use Rattle.busbars.specs.Sums.{AreSums};

use crate::bus::Bus;
use plant_book::INVERTERS_MAX;
use plant_ledger::Plant;

/// One more than a plant has inverters at most.
const COUNT: usize = 65;

const _: () = prove!(COUNT == INVERTERS_MAX + 1);

/// The sum of a number in mW over the inverters below 0, 1, 2 and so on.
pub type Sums = [u64; COUNT];

/// What the inverters have reserved, in mW.
pub fn reserved_below(plant: &Plant) -> Sums
    requires kept { IsKept plant.now }
    requires first { plant.now.carry ≡ None }
    ensures { AreSums (inverters plant.now.site) (reserved (first_book plant.now)) result }
{
    let mut sums = [0; COUNT];
    for inverter in 0..plant.site().units.len() {
        sums[inverter + 1] = sums[inverter] + plant.reserved(inverter as u8);
    }
    sums
}

/// The sum over the inverters of a bus, in mW.
pub fn sum_on(sums: &Sums, bus: &Bus) -> u64
    requires within { bus.now.hi < 64 }
    requires ordered { bus.now.lo ≤ bus.now.hi }
    requires rising { slice_index sums.now bus.now.lo ≤ slice_index sums.now (bus.now.hi + 1) }
    ensures { (site : SiteRecord) (number : ℕ → ℕ) → AreSums (inverters site) number sums.now
        → IsOfSite site bus.now → result ≡ sum_of_members site bus.now number }
{
    sums[usize::from(bus.hi) + 1] - sums[usize::from(bus.lo)]
}
