ghost use Rattle.std.specs.Prelude.{◌≡◌, None, Some};
ghost use Rattle.inverter_sim.specs.HeldLimit.{limit_at};

use std::marker::Model;

/// A limit that is held, as a raw percentage, until it reverts to the floor at a moment in ms, where a revert is due.
#[derive(Debug, Drop)]
pub struct HeldLimit {
    raw: u16,
    revert: Option<u64>,
}

impl Model for HeldLimit {
    ghost use Rattle.inverter_sim.specs.HeldLimit.{LimitRecord};

    ghost Value = { LimitRecord };

    ghost view = { λ l. record { raw = l.raw; revert = l.revert } };
}

impl HeldLimit {
    /// The floor, with no revert due.
    pub fn of_floor(floor: u16) -> HeldLimit
        ensures { result ≡ record { raw = floor; revert = None } }
    {
        HeldLimit {
            raw: floor,
            revert: None,
        }
    }

    /// The raw percentage that is held.
    pub fn raw(&self) -> u16
        ensures { result ≡ self.now.raw }
    {
        self.raw
    }

    /// The moment in ms at which it reverts, where a revert is due.
    pub fn revert(&self) -> Option<u64>
        ensures { result ≡ self.now.revert }
    {
        self.revert
    }

    /// Lets the time pass up to a moment in ms.
    pub fn pass(&mut self, floor: u16, now: u64)
        ensures { self.new ≡ limit_at floor now self.old }
    {
        if self.revert.is_some_and(|moment| moment <= now) {
            self.raw = floor;
            self.revert = None;
        }
    }

    /// Holds a limit from now on, which reverts at a moment in ms.
    pub fn hold(&mut self, raw: u16, revert: u64)
        ensures { self.new ≡ record { raw = raw; revert = Some revert } }
    {
        self.raw = raw;
        self.revert = Some(revert);
    }
}
