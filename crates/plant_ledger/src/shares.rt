//! What the policy allows, by the accounts.
ghost use Rattle.std.specs.Prelude.{◌≡◌, ◌<◌, nat_le};
ghost use Rattle.plant_book.specs.Site.{inverters};
ghost use Rattle.plant_book.specs.Caps.{cap_of};
ghost use Rattle.plant_book.specs.Carry.{IsBookPart, EachBook};
ghost use Rattle.share_policy.specs.Claims.{IsFeasible};
ghost use Rattle.share_policy.specs.Shares.{share_at, level_of};
ghost use Rattle.plant_book.specs.Policy as rule;

use crate::ledger::Ledger;
use arrayvec::ArrayVec;
use plant_book::{Claim, INVERTERS_MAX, Policy};
use share_policy::target;

impl Ledger {
    /// What the share of the inverter goes by.
    fn claim(&self, inverter: u8) -> Claim
        requires { inverter < inverters self.now.book.site }
        ensures { EachBook self.now.book (λ whole. result ≡ rule.claim_of whole inverter) }
    {
        self.account(inverter).claim()
    }

    /// The greatest limit that the policy allows the inverter under the cap in force, in mW.
    #[tactic(auto, unfolding(plant_book::specs::Policy::policy_target))]
    fn policy_target(&self, inverter: u8) -> u64
        requires { inverter < inverters self.now.book.site }
        ensures { EachBook self.now.book (λ whole. result ≡ rule.policy_target whole inverter) }
    {
        let claim = self.claim(inverter);
        match self.policy() {
            Policy::Open => claim.rated,
            Policy::Fair => self.fair_share(&claim),
        }
    }

    /// The fair share of a claim under the cap in force, in mW.
    fn fair_share(&self, claim: &Claim) -> u64
        ensures { EachBook self.now.book
            (λ whole. result ≡ share_at (level_of (cap_of whole) (rule.claims whole)) claim.now) }
    {
        let most = claim.wish.min(claim.rated);
        if self.reaches(most) {
            return claim.floor.max(most);
        }
        target(Policy::Fair, self.level(), claim)
    }

    /// Whether the fair share of a claim under the cap in force is at least so many mW.
    fn fair_allows(&self, claim: &Claim, mw: u64) -> bool
        ensures { EachBook self.now.book
            (λ whole. result ≡ nat_le mw (share_at (level_of (cap_of whole) (rule.claims whole)) claim.now)) }
    {
        if mw <= claim.floor {
            return true;
        }
        if mw > claim.wish {
            return false;
        }
        if mw > claim.rated {
            return false;
        }
        self.reaches(mw)
    }

    /// Whether the policy allows the inverter so many mW under the cap in force.
    #[tactic(auto, unfolding(plant_book::specs::Policy::policy_target))]
    fn policy_allows(&self, inverter: u8, mw: u64) -> bool
        requires { inverter < inverters self.now.book.site }
        ensures { EachBook self.now.book (λ whole. result ≡ nat_le mw (rule.policy_target whole inverter)) }
    {
        let claim = self.claim(inverter);
        match self.policy() {
            Policy::Open => mw <= claim.rated,
            Policy::Fair => self.fair_allows(&claim, mw),
        }
    }

    /// What the fall share of the inverter goes by.
    fn fall_claim(&self, inverter: u8) -> Claim
        requires { inverter < inverters self.now.book.site }
        ensures { result ≡ rule.fall_claim self.now.book.site inverter }
    {
        let account = self.account(inverter);
        let rated = account.rated();
        Claim {
            floor: account.floor(),
            wish: rated,
            rated,
        }
    }

    /// The same of all inverters in the order of their numbers, in a step for each, at most 64.
    pub fn fall_claims(&self) -> ArrayVec<Claim, INVERTERS_MAX>
        ensures claims { result.items ≡ rule.fall_claims self.now.book.site }
        ensures feasible { EachBook self.now.book
            (λ whole. IsFeasible (cap_of whole) (rule.fall_claims whole.site)) }
        ensures of_life { IsBookPart self.now.book }
    {
        let mut claims = ArrayVec::new();
        for inverter in 0..self.inverters() {
            claims.push(self.fall_claim(inverter));
        }
        claims
    }

    /// The fall share of the inverter under the cap in force, in mW.
    #[tactic(auto, unfolding(plant_book::specs::Policy::fall_share))]
    fn fall_share(&self, inverter: u8) -> u64
        requires { inverter < inverters self.now.book.site }
        ensures { EachBook self.now.book
            (λ whole. result ≡ rule.fall_share whole.site (cap_of whole) inverter) }
    {
        target(Policy::Fair, self.fall_level(), &self.fall_claim(inverter))
    }

    /// Whether the inverter may ask for so many mW.
    #[tactic(auto, unfolding(plant_book::specs::Policy::target_at))]
    pub fn allows(&self, inverter: u8, mw: u64) -> bool
        requires { inverter < inverters self.now.book.site }
        ensures { EachBook self.now.book
            (λ whole. result ≡ nat_le mw (rule.target_at whole self.now.at inverter)) }
    {
        if !self.policy_allows(inverter, mw) {
            return false;
        }
        if self.total() <= self.cap() {
            return true;
        }
        mw <= self.fall_share(inverter)
    }

    /// The greatest limit that the inverter may ask for, in mW.
    #[tactic(auto, unfolding(plant_book::specs::Policy::target_at))]
    pub fn target(&self, inverter: u8) -> u64
        requires { inverter < inverters self.now.book.site }
        ensures { EachBook self.now.book (λ whole. result ≡ rule.target_at whole self.now.at inverter) }
    {
        let most = self.policy_target(inverter);
        if self.total() > self.cap() {
            most.min(self.fall_share(inverter))
        } else {
            most
        }
    }
}
