//! What is known of the level of the fair shares, so that few replies go through the claims.
ghost use Rattle.std.specs.Prelude.{◌≡◌, ℕ, ◌+◌, ◌<◌, ◌≤◌, ◌^◌, nat_le, List, length};
ghost use Rattle.std.specs.Prelude.{None, IfSome, sum_by, slice_set, slice_index_or};
ghost use Rattle.share_policy.specs.declared.claim.Claim.{Claim as Claimed};
ghost use Rattle.share_policy.specs.Claims.{IsFeasible};
ghost use Rattle.share_policy.specs.Shares.{share_at, level_of};
ghost use Rattle.plant_ledger.specs.Known.{IsProbe, IsKnown};

use plant_book::{Claim, Policy};
use share_policy::{level, reaches, target, total_at};

/// A level, and what the fair shares of all claims sum to at it.
#[derive(Clone, Copy, Debug)]
pub struct Probe {
    /// The level, in mW.
    pub level: u64,
    /// The sum, in mW.
    pub total: u64,
}

impl Probe {
    /// The same where a claim was the first and is the second of these, or nothing where the sum fits no word.
    fn moved(self, old: &Claim, new: &Claim) -> Option<Probe>
        ensures level { IfSome result (λ probe. probe.level ≡ self.level) }
        ensures total { IfSome result (λ probe.
            probe.total + share_at self.level old.now ≡ self.total + share_at self.level new.now) }
    {
        let others = self
            .total
            .checked_sub(target(Policy::Fair, self.level, old))?;
        let total = others.checked_add(target(Policy::Fair, self.level, new))?;
        Some(Probe {
            level: self.level,
            total,
        })
    }

    /// Whether the level of the claims under a cap is at least so many mW, which is no more than the cap, where the
    /// sum tells it.
    fn tells(self, cap: u64, mw: u64) -> Option<bool>
        requires { mw ≤ cap }
        ensures { (claims : List Claimed) → IsFeasible cap claims → IsProbe claims self
            → IfSome result (λ found. found ≡ nat_le mw (level_of cap claims)) }
    {
        if self.total <= cap {
            return if mw <= self.level { Some(true) } else { None };
        }
        if self.level <= mw { Some(false) } else { None }
    }
}

/// What is known of the level of the fair shares of all claims.
#[derive(Clone, Copy, Debug)]
pub struct Known {
    /// The level in mW, where it was made since a claim or the cap changed.
    pub made: Option<u64>,
    /// The last level that was found to be reached, if one was.
    pub probe: Option<Probe>,
}

impl Known {
    /// Nothing.
    pub fn nothing() -> Known
        ensures made { result.made ≡ None }
        ensures probe { result.probe ≡ None }
    {
        Known {
            made: None,
            probe: None,
        }
    }

    /// What is left of it where a claim was the first and is the second of these.
    pub fn moved(self, old: &Claim, new: &Claim) -> Known
        ensures { (cap place : ℕ) (claims : List Claimed) (otherwise : Claimed) → place < length claims
            → slice_index_or claims place otherwise ≡ old.now → IsKnown cap claims self
            → IsKnown cap (slice_set claims place new.now) result }
    {
        let Some(probe) = self.probe else {
            return Known::nothing();
        };
        Known {
            made: None,
            probe: probe.moved(old, new),
        }
    }

    /// Whether the level under a cap is at least so many mW, where that is known.
    fn tells(&self, cap: u64, mw: u64) -> Option<bool>
        ensures { (claims : List Claimed) → IsFeasible cap claims → IsKnown cap claims self.now
            → IfSome result (λ found. found ≡ nat_le mw (level_of cap claims)) }
    {
        if let Some(level) = self.made {
            return Some(mw <= level);
        }
        if mw > cap {
            return Some(false);
        }
        match self.probe {
            Some(probe) => probe.tells(cap, mw),
            None => None,
        }
    }

    /// The level of the claims under a cap, in mW.
    pub fn level(&self, cap: u64, claims: &[Claim]) -> u64
        requires feasible { IsFeasible cap claims.now }
        requires known { IsKnown cap claims.now self.now }
        ensures { result ≡ level_of cap claims.now }
    {
        match self.made {
            Some(level) => level,
            None => level(cap, claims),
        }
    }

    /// Whether the level of the claims under a cap is at least so many mW.
    pub fn reaches(&self, cap: u64, claims: &[Claim], mw: u64) -> bool
        requires feasible { IsFeasible cap claims.now }
        requires known { IsKnown cap claims.now self.now }
        ensures { result ≡ nat_le mw (level_of cap claims.now) }
    {
        match self.tells(cap, mw) {
            Some(found) => found,
            None => reaches(cap, claims, mw),
        }
    }

    /// Finds whether the level of the claims under a cap is at least so many mW, and makes it where it is lower.
    pub fn learn(&mut self, cap: u64, claims: &[Claim], mw: u64)
        requires feasible { IsFeasible cap claims.now }
        requires known { IsKnown cap claims.now self.old }
        ensures { IsKnown cap claims.now self.new }
    {
        match self.tells(cap, mw) {
            Some(true) => {}
            Some(false) => self.made = Some(self.level(cap, claims)),
            None => self.try_level(cap, claims, mw),
        }
    }

    /// Goes through the claims to find whether their level is at least so many mW, and makes it where it is lower.
    fn try_level(&mut self, cap: u64, claims: &[Claim], mw: u64)
        requires feasible { IsFeasible cap claims.now }
        requires known { IsKnown cap claims.now self.old }
        ensures { IsKnown cap claims.now self.new }
    {
        let total = total_at(mw, claims);
        if total <= cap {
            self.probe = Some(Probe { level: mw, total });
        } else {
            self.made = Some(level(cap, claims));
        }
    }
}
