//! The levels of the shares. Each is made where a reply needs it, and kept until what it goes by changes.
ghost use Rattle.std.specs.Prelude.{◌≡◌, ◌<◌, nat_le};
ghost use Rattle.plant_book.specs.Site.{inverters};
ghost use Rattle.plant_book.specs.Caps.{cap_of};
ghost use Rattle.plant_book.specs.Policy as rule;
ghost use Rattle.plant_book.specs.Carry.{EachBook};
ghost use Rattle.share_policy.specs.Shares.{level_of};

use super::Ledger;
use plant_book::Policy;
use share_policy::level;

impl Ledger {
    /// The level of the fair shares, in mW.
    pub fn level(&self) -> u64
        ensures { EachBook self.now.book (λ whole. result ≡ level_of (cap_of whole) (rule.claims whole)) }
    {
        self.sums.level.level(self.cap, &self.claims)
    }

    /// Whether the level of the fair shares is at least this one, in mW.
    pub fn reaches(&self, mw: u64) -> bool
        ensures { EachBook self.now.book
            (λ whole. result ≡ nat_le mw (level_of (cap_of whole) (rule.claims whole))) }
    {
        self.sums.level.reaches(self.cap, &self.claims, mw)
    }

    /// The level of the fall shares, in mW.
    pub fn fall_level(&self) -> u64
        ensures { EachBook self.now.book
            (λ whole. result ≡ level_of (cap_of whole) (rule.fall_claims whole.site)) }
    {
        match self.sums.fall {
            Some(level) => level,
            None => level(self.cap(), self.fall_claims().as_slice()),
        }
    }

    /// Makes what of the levels the reply to an Ask of the inverter for this raw percentage needs.
    pub fn make_levels(&mut self, inverter: u8, raw: u16)
        requires { inverter < inverters self.old.book.site }
        ensures { self.new ≡ self.old }
    {
        if self.policy() == Policy::Fair {
            let mw = self.limit(inverter, raw);
            self.learn_level(mw);
        }
        if self.total() > self.cap() {
            self.make_fall_level();
        }
    }

    /// Finds whether the level of the fair shares is at least this one, in mW, and makes it where it is lower.
    fn learn_level(&mut self, mw: u64)
        ensures { self.new ≡ self.old }
    {
        self.sums.level.learn(self.cap, &self.claims, mw);
    }

    /// Makes the level of the fall shares.
    fn make_fall_level(&mut self)
        ensures { self.new ≡ self.old }
    {
        let made = self.fall_level();
        self.sums.fall = Some(made);
    }
}
