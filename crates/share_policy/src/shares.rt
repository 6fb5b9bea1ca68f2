//! The level and the targets.
ghost use Rattle.std.specs.Prelude.{◌≡◌, ◌+◌, ◌<◌, ◌≤◌, ◌^◌, nat_le, sum_by, count_by};
ghost use Rattle.share_policy.specs.Shares.{share_at, rises, level_of, target_of};
ghost use Rattle.share_policy.specs.Claims.{IsFeasible};
ghost use Rattle.share_policy.specs.LevelRange.{Has};
ghost use Rattle.share_policy.specs.Fairness.{IsMaxMinFair};

use crate::claim::{Claim, Policy};
use crate::level_range::LevelRange;

/// How many guesses come before the halving: mostly fewer find the level.
const GUESSES: usize = 8;

/// How often a range of levels can be halved until one is left, since a level has 64 bits.
const HALVINGS: usize = 64;

/// The level of the fair shares: the greatest from 0 to the cap at which the targets of all claims sum to at most the
/// cap. Both are in mW. It goes through the claims at most 80 times, whatever they are: two times for each of 8
/// guesses, and once for each of 64 halvings.
pub fn level(cap: u64, claims: &[Claim]) -> u64
    requires { IsFeasible cap claims.now }
    ensures level { result ≡ level_of cap claims.now }

    // The targets at the level fit under the cap and are fair, and one milliwatt more would take them over it.
    ensures within { sum_by (target_of Policy.Fair result) claims.now ≤ cap }
    ensures fair { IsMaxMinFair (target_of Policy.Fair result) claims.now }
    ensures tight { result < cap → cap < sum_by (target_of Policy.Fair (result + 1)) claims.now }
    ensures high { result ≤ cap }
{
    by_halves(by_guesses(cap, claims), cap, claims)
}

/// A range that has the level of the fair shares, and mostly nothing else.
fn by_guesses(cap: u64, claims: &[Claim]) -> LevelRange
    requires { IsFeasible cap claims.now }
    ensures has { Has result (level_of cap claims.now) }
    ensures high { result.highest ≤ cap }
{
    let mut range = LevelRange {
        lowest: 0,
        highest: cap,
    };
    let mut guess = cap / (claims.len() as u64).max(1);
    for _guess in 0..GUESSES {
        if range.lowest == range.highest {
            return range;
        }
        let level = range.nearest(guess);
        let total = total_at(level, claims);
        guess = straight(cap, claims, level, total);
        range = range.narrowed(level, total <= cap);
    }
    range
}

/// The level of the fair shares, which a range has. Each round halves what is left.
fn by_halves(range: LevelRange, cap: u64, claims: &[Claim]) -> u64
    requires feasible { IsFeasible cap claims.now }
    requires has { Has range (level_of cap claims.now) }
    requires high { range.highest ≤ cap }
    ensures { result ≡ level_of cap claims.now }
{
    let mut range = range;
    for _round in 0..HALVINGS {
        if range.lowest == range.highest {
            return range.lowest;
        }
        let level = range.middle();
        range = range.narrowed(level, reaches(cap, claims, level));
    }
    range.lowest
}

/// Whether the level of the fair shares is at least this one, both in mW. It goes through the claims once.
pub fn reaches(cap: u64, claims: &[Claim], level: u64) -> bool
    requires { IsFeasible cap claims.now }
    ensures { result ≡ nat_le level (level_of cap claims.now) }
{
    level <= cap && total_at(level, claims) <= cap
}

/// Where the targets would sum to the cap if from this level on, at which they sum to this total, just the claims
/// rose or fell that do there. It is a guess, for speed: the level is found whatever it is.
fn straight(cap: u64, claims: &[Claim], level: u64, total: u64) -> u64 {
    let below = level.saturating_sub(1);
    if total <= cap {
        match rising(level, claims) {
            0 => cap,
            count => level.saturating_add((cap - total) / count),
        }
    } else {
        match rising(below, claims) {
            0 => level / 2,
            count => below.saturating_sub((total - cap - 1) / count),
        }
    }
}

/// How many claims have a greater target at the next level.
fn rising(level: u64, claims: &[Claim]) -> u64
    ensures { result ≡ count_by (rises level) claims.now }
{
    claims.iter().filter(|claim| rises(level, claim)).count() as u64
}

/// Whether the target of a claim is greater at the next level.
fn rises(level: u64, claim: &Claim) -> bool
    ensures { result ≡ rises level claim.now }
{
    claim.floor <= level && level < claim.wish && level < claim.rated
}

/// The most that the policy allows a claim, in mW, where the level of the fair shares is this one, in mW too.
pub fn target(policy: Policy, level: u64, claim: &Claim) -> u64
    ensures { result ≡ target_of policy level claim.now }
{
    match policy {
        Policy::Open => claim.rated,
        Policy::Fair => share_at(level, claim),
    }
}

/// What the fair targets of all claims sum to at a level, both in mW.
pub fn total_at(level: u64, claims: &[Claim]) -> u64
    requires { sum_by (share_at level) claims.now < 2 ^ 64 }
    ensures { result ≡ sum_by (share_at level) claims.now }
{
    claims.iter().map(|claim| share_at(level, claim)).sum()
}

/// The fair target of a claim at a level: the least of its wish, its rating and the level, but at least its floor.
#[tactic(auto, unfolding(crate::specs::Shares::share_at))]
fn share_at(level: u64, claim: &Claim) -> u64
    ensures { result ≡ share_at level claim.now }
{
    let most = claim.wish.min(claim.rated);
    claim.floor.max(most.min(level))
}
