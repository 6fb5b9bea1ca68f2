ghost use Rattle.std.specs.Prelude.{◌≡◌, ◌≤◌, IfOk};
ghost use Rattle.limiter_num.specs.Timers as timers;
ghost use Rattle.plant_simulator.specs.Site as rule;

use limiter_num::{NoMemory, Rating, Rules};
use plant_book::{Policy, ROOM_MAX, Site, Unit};
use std::alloc::Global;

/// The cap for each inverter, in mW: half of its rating.
pub const CAP_EACH: u64 = 3_000_000;

const _: () = prove!(CAP_EACH == 3_000_000);

/// What is taken for granted of links and timers.
fn rules() -> Rules
    ensures { result ≡ rule.rules }
{
    Rules {
        send: 1_000,
        delay: 4_000,
        timer: 60,
        per_mille: 20,
        slack: 500,
    }
}

/// The shortest time from an act to its revert, in ms.
#[tactic(auto, unfolding(limiter_num::specs::Timers::tmin))]
pub fn tmin() -> u64
    ensures of_the_rules { result ≡ timers.tmin rule.rules }
    ensures number { result ≡ 58300 }
{
    rules().tmin()
}

/// The longest time from an act to its revert, in ms.
#[tactic(auto, unfolding(limiter_num::specs::Timers::tmax))]
pub fn tmax() -> u64
    ensures of_the_rules { result ≡ timers.tmax rule.rules }
    ensures number { result ≡ 61700 }
{
    rules().tmax()
}

/// The rating of each inverter.
fn rating() -> Rating
    ensures { result ≡ rule.rating }
{
    Rating {
        wmax: 6_000,
        wsf: 0,
        psf: -1,
    }
}

/// Each inverter as the ledger sees it.
fn unit() -> Unit
    ensures { result ≡ rule.unit }
{
    Unit {
        rating: rating(),
        floor: 100,
    }
}

/// The site of so many inverters.
pub fn site(alloc: Global, inverters: u32) -> Result<Site, NoMemory>
    requires { inverters ≤ 64 }
    ensures { IfOk result (λ site. site ≡ rule.site_of inverters) }
{
    let Ok(units) = vec![in alloc; unit(); inverters as usize] else {
        return Err(NoMemory);
    };
    let cap = u64::from(inverters) * CAP_EACH;
    Ok(Site::new(cap, rules(), Policy::Fair, ROOM_MAX, units))
}
