ghost use Rattle.std.specs.Prelude.{◌≡◌, ◌≤◌, ◌<◌, ◌^◌, MatchResult, IfOk, vec_len, length, sum_by};
ghost use Rattle.limiter_num.specs.Rating.{mw};
ghost use Rattle.limiter_num.specs.Milliwatts.{full_of};

use limiter_num::{Rating, Rules};
use share_policy::Policy;
use std::marker::Model;

/// The greatest cap of a site, in mW.
pub const CAP_MAX: u64 = 100_000_000_000_000;

const _: () = prove!(CAP_MAX == 100_000_000_000_000);

/// The greatest count of calls for which a book has room.
pub const ROOM_MAX: u32 = 1_048_576;

const _: () = prove!(ROOM_MAX == 1_048_576);

/// How many inverters a plant has at most.
pub const INVERTERS_MAX: usize = 64;

const _: () = prove!(INVERTERS_MAX == 64);

/// A floor above the greatest raw percentage of its rating.
#[derive(Clone, Copy, Debug, PartialEq, Eq)]
pub struct FloorOut {
    /// The greatest raw percentage of the rating.
    pub full: u16,
}

/// An inverter as the ledger sees it: its rating, and its floor as a raw percentage, which is the limit that
/// it goes back to when its reversion timer runs out (WMaxLimPctRvrt of SunSpec DER model 704).
#[derive(Clone, Copy, Debug, PartialEq, Eq)]
pub struct Unit {
    /// The milliwatts that its raw percentages stand for.
    pub rating: Rating,
    /// The floor as a raw percentage, at most the greatest of the rating.
    pub floor: u16,
    pub ghost within: { floor ≤ full_of rating.psf },
}

impl Unit {
    /// Takes a floor that is at most the greatest raw percentage of the rating.
    pub fn new(rating: Rating, floor: u16) -> Result<Unit, FloorOut>
        ensures fault { MatchResult result (λ _. floor ≤ full_of rating.psf)
            (λ fault. (full_of rating.psf < floor) × (fault.full ≡ full_of rating.psf)) }
        ensures unit { IfOk result (λ unit. (unit.rating ≡ rating) × (unit.floor ≡ floor)) }
    {
        let full = rating.full();
        if floor > full {
            return Err(FloorOut { full });
        }
        Ok(Unit { rating, floor })
    }
}

/// A plant behind one grid connection. It is always as `new` makes it.
#[derive(Clone, Debug, Drop)]
pub struct Site {
    /// The greatest cap, in mW, and the one in force at the start of each life.
    pub cap: u64,
    /// What is taken for granted of links and timers.
    pub rules: Rules,
    /// How the watts that are free are shared.
    pub policy: Policy,
    /// How many calls a book of the site has room for.
    pub room: u32,
    /// The inverters, by their numbers from 0.
    pub units: Vec<Unit>,
}

impl Model for Site {
    ghost use Rattle.std.specs.Prelude.{◌≤◌, ◌<◌, ◌^◌, vec_len};
    ghost use Rattle.plant_book.specs.Site.{SiteRecord, IsSite};

    ghost Value = { SiteRecord };

    ghost view = { λ s. record {
      cap = s.cap;
      rules = s.rules;
      policy = s.policy;
      room = s.room;
      units = s.units.items;
    } };

    ghost invariant = { λ s. IsSite
        (record { cap = s.cap; rules = s.rules; policy = s.policy; room = s.room; units = s.units.items }) };
}

impl Site {
    ghost use Rattle.plant_book.specs.Site.{inverters, floors};

    /// Takes a cap of at most 10^14 mW, a room from 1 to 1,048,576 calls, and fewer than 2^32 inverters.
    pub fn new(cap: u64, rules: Rules, policy: Policy, room: u32, units: Vec<Unit>) -> Site
        requires cap { cap ≤ CAP_MAX }
        requires room_low { 1 ≤ room }
        requires room_high { room ≤ ROOM_MAX }
        requires units { vec_len units < 2 ^ 32 }
        ensures { result ≡ record { cap = cap; rules = rules; policy = policy; room = room; units = units.items } }
    {
        Site {
            cap,
            rules,
            policy,
            room,
            units,
        }
    }

    /// The milliwatts of all floors.
    pub fn floors(&self) -> u64
        requires { inverters self.now ≤ 64 }
        ensures { result ≡ floors self.now }
    {
        floors(&self.units)
    }
}

/// The milliwatts of the floors of these inverters.
fn floors(units: &[Unit]) -> u64
    requires { length units.now ≤ 64 }
    ensures { result ≡ sum_by (λ unit. mw unit.rating unit.floor) units.now }
{
    let mut total = 0;
    for unit in units {
        total += unit.rating.mw(unit.floor);
    }
    total
}
