//! What is reserved, by the accounts.
ghost use Rattle.std.specs.Prelude.{◌≡◌, ◌≤◌, ◌<◌, ◌*◌, ◌^◌};
ghost use Rattle.plant_book.specs.Site.{inverters};
ghost use Rattle.plant_book.specs.Reserved as sums;
ghost use Rattle.plant_book.specs.Carry.{EachBook};

use crate::ledger::Ledger;

impl Ledger {
    /// What is reserved for the inverter, in mW.
    #[tactic(auto, unfolding(plant_book::specs::Reserved::reserved_at))]
    pub fn reserved(&self, inverter: u8) -> u64
        requires of_site { inverter < inverters self.now.book.site }
        ensures watts { EachBook self.now.book
            (λ whole. result ≡ sums.reserved_at whole self.now.at inverter) }
        ensures below { result ≤ 65535 * 10 ^ 12 }
    {
        self.account(inverter).reserved()
    }

    /// What of the cap isn't reserved, in mW.
    #[tactic(auto, unfolding(plant_book::specs::Reserved::unreserved_at))]
    pub fn unreserved(&self) -> u64
        ensures watts { EachBook self.now.book (λ whole. result ≡ sums.unreserved_at whole self.now.at) }
        ensures below { result ≤ 10 ^ 14 }
    {
        self.cap().saturating_sub(self.total())
    }
}
