//! The ceiling, by what the ledger keeps.
ghost use Rattle.std.specs.Prelude.{◌≡◌};
ghost use Rattle.plant_book.specs.Sums.{last_that};
ghost use Rattle.plant_book.specs.Caps.{sets_cap};
ghost use Rattle.plant_book.specs.Carry.{mark_of, EachBook};
ghost use Rattle.plant_book.specs.Ceiling as rule;
ghost use Rattle.plant_ledger.specs.Ledger.{IsAtLast};

use crate::ledger::Ledger;
use plant_book::CapMark;

impl Ledger {
    /// What all limits together stay under at the last moment of the book, in mW.
    pub fn ceiling(&self) -> u64
        requires { IsAtLast self.now }
        ensures { EachBook self.now.book (λ whole. result ≡ rule.ceiling whole) }
    {
        if self.now() <= self.silent_until() {
            return self.site_cap();
        }
        self.ceiling_since(self.mark())
    }

    /// The same behind the silence, where the cap in force was set so.
    fn ceiling_since(&self, mark: Option<CapMark>) -> u64
        requires { IsAtLast self.now }
        ensures { EachBook self.now.book (λ whole. mark ≡ mark_of whole
            → result ≡ rule.ceiling_since whole (last_that sets_cap whole.entries)) }
    {
        let cap = self.cap();
        let reach = self.rules().reach();
        match mark {
            Some(mark) if self.now() <= mark.at.saturating_add(reach) => cap.max(mark.was),
            Some(_) => cap,
            None => self.site_cap(),
        }
    }
}
