//! What the ledger keeps of one inverter.
ghost use Rattle.std.specs.Prelude.{◌≡◌, ℕ, ◌+◌, ◌*◌, ◌^◌, ◌<◌, ◌≤◌, None, Some, IfSome, not, filter};
ghost use Rattle.limiter_num.specs.Rating.{mw, full, rated};
ghost use Rattle.limiter_num.specs.Timers as timers;
ghost use Rattle.plant_book.specs.Writes.{frees};
ghost use Rattle.uncertain_writes.specs.Live.{without};
ghost use Rattle.plant_ledger.specs.Ledger.{account_at};
ghost use Rattle.plant_ledger.specs.Account.{first_account, unit_by, most_of, reserved_of};
ghost use Rattle.plant_ledger.specs.Account.{claim_by, AreFrom, HasRoom, IsStep, after_ask};
ghost use Rattle.plant_ledger.specs.Account.{after_read, after_saw, after_back, after_call};

mod following;

use limiter_num::{Rating, Rules};
use plant_book::{Call, Claim, Entry, Read, Reply, Unit, UnitCarry};
use std::marker::Model;
use uncertain_writes::Live;

/// The account of one inverter: what the calls that named it have come to, so that no reply has to go
/// through them, and what of it is dear to compute.
#[derive(Debug, Drop)]
pub struct Account {
    /// What it wishes for, in mW.
    wish: u64,
    floor: u64,
    rated: u64,
    reserved: u64,
    oldest: u64,
    /// The milliwatts of one raw percent, where those of each raw percentage are as many times it.
    step: Option<u64>,
    /// The number of its link, or 0 where it had none yet.
    pub link: u32,
    /// How many requests its link has had.
    pub requests: u16,
    full: u16,
    unit: Unit,
    /// Whether its last read-back was strange.
    strange: bool,
    /// Its pending read.
    pub pending: Option<Read>,
    /// Its live writes. They stand last, so that the numbers lie close together.
    pub live: Live,
}

impl Model for Account {
    ghost use Rattle.plant_ledger.specs.Account as seen;

    ghost Value = { seen.Account };

    ghost view = { λ a. record {
      unit = a.unit;
      link = a.link;
      requests = a.requests;
      pending = a.pending;
      strange = a.strange;
      wish = a.wish;
      live = a.live;
    } };

    ghost invariant = { λ a. seen.Follows a.unit a.live a.floor a.full a.rated a.reserved a.oldest a.step };
}

impl Account {
    /// The account of an inverter that no call named yet.
    pub fn new(unit: &Unit) -> Account
        ensures { result ≡ first_account unit.now }
    {
        let full = unit.rating.full();
        let rated = unit.rating.mw(full);
        let floor = unit.rating.mw(unit.floor);
        Account {
            link: 0,
            requests: 0,
            pending: None,
            strange: false,
            wish: rated,
            live: Live::new(),
            unit: *unit,
            floor,
            full,
            rated,
            reserved: floor,
            step: step_of(&unit.rating),
            oldest: u64::MAX,
        }
    }

    /// What it wishes for, in mW.
    pub fn wish(&self) -> u64
        ensures { result ≡ self.now.wish }
    {
        self.wish
    }

    /// Whether its last read-back was strange.
    pub fn is_strange(&self) -> bool
        ensures { result ≡ self.now.strange }
    {
        self.strange
    }

    /// Its live writes.
    pub fn live(&self) -> &Live
        ensures { result.now ≡ self.now.live }
    {
        &self.live
    }

    /// Its pending read.
    pub fn pending(&self) -> Option<Read>
        ensures { result ≡ self.now.pending }
    {
        self.pending
    }

    /// What is reserved for the inverter, in mW.
    pub fn reserved(&self) -> u64
        ensures watts { result ≡ reserved_of self.now }
        ensures below { result ≤ 65535 * 10 ^ 12 }
    {
        self.reserved
    }

    /// A moment in ms before which none of its live writes was granted.
    pub fn oldest(&self) -> u64
        ensures { AreFrom result self.now.live }
    {
        self.oldest
    }

    /// The milliwatts that a raw percentage of its stands for.
    pub fn limit(&self, raw: u16) -> u64
        ensures watts { result ≡ mw self.now.unit.rating raw }
        ensures below { result ≤ 65535 * 10 ^ 12 }
    {
        match self.step {
            Some(step) => u64::from(raw) * step,
            None => self.unit.rating.mw(raw),
        }
    }

    /// The milliwatts of its floor.
    pub fn floor(&self) -> u64
        ensures watts { result ≡ mw self.now.unit.rating self.now.unit.floor }
        ensures below { result ≤ 65535 * 10 ^ 12 }
    {
        self.floor
    }

    /// Its greatest raw percentage.
    pub fn full(&self) -> u16
        ensures { result ≡ full self.now.unit.rating }
    {
        self.full
    }

    /// The milliwatts of its greatest raw percentage.
    pub fn rated(&self) -> u64
        ensures { result ≡ rated self.now.unit.rating }
    {
        self.rated
    }

    /// The inverter.
    pub fn unit(&self) -> &Unit
        ensures { result.now ≡ self.now.unit }
    {
        &self.unit
    }

    /// What its share goes by.
    pub fn claim(&self) -> Claim
        ensures { result ≡ claim_by self.now }
    {
        Claim {
            floor: self.floor,
            wish: self.wish,
            rated: if self.strange { self.floor } else { self.rated },
        }
    }

    /// What it leaves to the next book of the life.
    pub fn carry(&self) -> UnitCarry
        ensures { result ≡ unit_by self.now }
    {
        UnitCarry {
            link: self.link,
            sent: self.requests,
            pending: self.pending,
            strange: self.strange,
            wish: self.wish,
            writes: self.live.writes(),
        }
    }

    /// Drops the writes that are past by this moment. It and how long a write may be held are in ms.
    pub fn expire(&mut self, rules: &Rules, reach: u64, now: u64)
        requires { reach ≡ timers.reach rules.now }
        ensures { self.new ≡ account_at rules.now now self.old }
    {
        if now <= self.oldest.saturating_add(reach) {
            return;
        }
        let _ = self.live.expire(rules, now);
        self.oldest = self.live.oldest();
        self.reserved = covering(&self.unit, self.floor, &self.live);
    }
}

/// The greatest of an inverter's floor and the limits of these writes, in mW.
#[tactic(auto, unfolding(crate::specs::Account::most_of))]
pub fn covering(unit: &Unit, floor: u64, live: &Live) -> u64
    requires floor { floor ≡ mw unit.now.rating unit.now.floor }
    requires low { floor ≤ 65535 * 10 ^ 12 }
    ensures watts { result ≡ most_of unit.now live.now }
    ensures below { result ≤ 65535 * 10 ^ 12 }
{
    floor.max(live.greatest(&unit.rating))
}

/// The same of those that a read leaves which showed this raw percentage.
#[tactic(auto, unfolding(crate::specs::Account::most_of))]
pub fn covering_left(
    unit: &Unit,
    floor: u64,
    live: &Live,
    rules: &Rules,
    read: &Read,
    raw: u16,
) -> u64
    requires { floor ≡ mw unit.now.rating unit.now.floor }
    ensures { result ≡ most_of unit.now (without (frees rules.now (Some read.now) raw) live.now) }
{
    floor.max(live.greatest_left(&unit.rating, rules, read, raw))
}

/// The milliwatts of one raw percent, where those of each raw percentage are as many times it.
fn step_of(rating: &Rating) -> Option<u64>
    ensures { IfSome result (IsStep rating.now) }
{
    if rating.power() < 0 {
        return None;
    }
    Some(rating.mw(1))
}
