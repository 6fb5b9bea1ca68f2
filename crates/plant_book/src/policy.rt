ghost use Rattle.std.specs.Prelude.{◌≡◌, ℕ, ◌<◌, ◌≤◌, List, ◌++◌};
ghost use Rattle.plant_book.specs.Site.{inverters};
ghost use Rattle.plant_book.specs.Policy as rule;
ghost use Rattle.plant_book.specs.Sums.{last_that};
ghost use Rattle.plant_book.specs.Caps.{cap_of};
ghost use Rattle.plant_book.specs.declared.book.Entry.{Entry};
ghost use Rattle.plant_book.specs.Part.{last_moment_of};
ghost use Rattle.plant_book.specs.Answered.{IsOpenable};
ghost use Rattle.plant_book.specs.Carry.{IsBookPart, EachBook};

use crate::before::{strange_before, wish_before};
use crate::book::{Book, Entry};
use crate::call::{Call, Reply};
use crate::caps::cap_plain;
use crate::requests::is_seen;
use crate::reserved::total_at;
use crate::site::INVERTERS_MAX;
use arrayvec::ArrayVec;
use share_policy::{Claim, Policy, level};

/// Whether the entry is a Saw of the inverter that was taken.
fn is_sight(entry: &Entry, inverter: u8) -> bool
    ensures { result ≡ rule.is_sight inverter entry.now }
{
    match entry.call {
        Call::Saw {
            inverter: other,
            ..
        } => other == inverter && is_seen(&entry.reply),
        _ => false,
    }
}

/// Whether the reply says that a read-back was strange.
fn tells_strange(reply: &Reply) -> bool
    ensures { result ≡ rule.tells_strange reply.now }
{
    matches!(reply, Reply::Strange(_))
}

/// Whether the last read-back of the inverter was strange, where this was so before the entries.
fn strange_from(from: bool, entries: &[Entry], inverter: u8) -> bool
    ensures { (before : List Entry) → from ≡ rule.is_strange inverter before
        → result ≡ rule.is_strange inverter (before ++ entries.now) }
{
    let mut strange = from;
    for entry in entries {
        if is_sight(entry, inverter) {
            strange = tells_strange(&entry.reply);
        }
    }
    strange
}

/// Whether the last read-back of the inverter was strange.
pub fn is_strange(book: &Book, inverter: u8) -> bool
    requires { inverter < inverters book.now.site }
    ensures { EachBook book.now (λ whole. result ≡ rule.is_strange inverter whole.entries) }
{
    strange_from(strange_before(book, inverter), book.entries(), inverter)
}

/// What the call wishes for the inverter, in mW, if it does.
fn wish_by(call: &Call, inverter: u8) -> Option<u64>
    ensures { result ≡ rule.wish_by inverter call.now }
{
    match *call {
        Call::Want {
            inverter: other,
            mw,
            ..
        } if other == inverter => Some(mw),
        _ => None,
    }
}

/// The wish of the inverter, in mW, where it was this one before the entries.
fn wish_from(from: u64, entries: &[Entry], inverter: u8) -> u64
    ensures { (rated : ℕ) (before : List Entry)
        → from ≡ rule.wish_after rated inverter (last_that (rule.is_want inverter) before)
        → result ≡ rule.wish_after rated inverter
        (last_that (rule.is_want inverter) (before ++ entries.now)) }
{
    let mut wish = from;
    for entry in entries {
        if let Some(mw) = wish_by(&entry.call, inverter) {
            wish = mw;
        }
    }
    wish
}

/// The wish of the inverter, in mW.
#[tactic(auto, unfolding(crate::specs::Policy::wish))]
pub fn wish(book: &Book, inverter: u8) -> u64
    requires { inverter < inverters book.now.site }
    ensures { EachBook book.now (λ whole. result ≡ rule.wish whole inverter) }
{
    wish_from(wish_before(book, inverter), book.entries(), inverter)
}

/// The rating that the policy goes by, in mW: the floor for a strange inverter.
#[tactic(auto, unfolding(crate::specs::Policy::trusted))]
fn trusted(book: &Book, inverter: u8) -> u64
    requires { inverter < inverters book.now.site }
    ensures { EachBook book.now (λ whole. result ≡ rule.trusted whole inverter) }
{
    if is_strange(book, inverter) {
        book.floor(inverter)
    } else {
        book.rated(inverter)
    }
}

/// What the share of the inverter goes by.
fn claim_of(book: &Book, inverter: u8) -> Claim
    requires { inverter < inverters book.now.site }
    ensures { EachBook book.now (λ whole. result ≡ rule.claim_of whole inverter) }
{
    Claim {
        floor: book.floor(inverter),
        wish: wish(book, inverter),
        rated: trusted(book, inverter),
    }
}

/// The claims of all inverters in the order of their numbers.
fn claims(book: &Book) -> ArrayVec<Claim, INVERTERS_MAX>
    requires { IsOpenable book.now.site }
    ensures { EachBook book.now (λ whole. result.items ≡ rule.claims whole) }
{
    let mut claims = ArrayVec::new();
    for inverter in 0..book.inverters() as u8 {
        claims.push(claim_of(book, inverter));
    }
    claims
}

/// What the fall share of the inverter goes by.
fn fall_claim(book: &Book, inverter: u8) -> Claim
    requires { inverter < inverters book.now.site }
    ensures { result ≡ rule.fall_claim book.now.site inverter }
{
    let rated = book.rated(inverter);
    Claim {
        floor: book.floor(inverter),
        wish: rated,
        rated,
    }
}

/// The same of all inverters in the order of their numbers.
fn fall_claims(book: &Book) -> ArrayVec<Claim, INVERTERS_MAX>
    requires { IsOpenable book.now.site }
    ensures { result.items ≡ rule.fall_claims book.now.site }
{
    let mut claims = ArrayVec::new();
    for inverter in 0..book.inverters() as u8 {
        claims.push(fall_claim(book, inverter));
    }
    claims
}

/// The fall share of the inverter under the cap in force, in mW.
#[tactic(auto, unfolding(crate::specs::Policy::fall_share))]
fn fall_share(book: &Book, inverter: u8) -> u64
    requires book { IsBookPart book.now }
    requires of_site { inverter < inverters book.now.site }
    ensures { EachBook book.now (λ whole. result ≡ rule.fall_share whole.site (cap_of whole) inverter) }
{
    let level = level(cap_plain(book), fall_claims(book).as_slice());
    share_policy::target(Policy::Fair, level, &fall_claim(book, inverter))
}

/// The greatest limit that the policy allows the inverter under the cap in force, in mW.
#[tactic(auto, unfolding(crate::specs::Policy::policy_target))]
fn policy_target(book: &Book, inverter: u8) -> u64
    requires book { IsBookPart book.now }
    requires of_site { inverter < inverters book.now.site }
    ensures { EachBook book.now (λ whole. result ≡ rule.policy_target whole inverter) }
{
    let claim = claim_of(book, inverter);
    match book.policy() {
        Policy::Open => claim.rated,
        Policy::Fair => {
            let level = level(cap_plain(book), claims(book).as_slice());
            share_policy::target(Policy::Fair, level, &claim)
        }
    }
}

/// The greatest limit that the inverter may ask for at a moment from the last of the book on, in mW.
#[tactic(auto, unfolding(crate::specs::Policy::target_at))]
pub fn target_at(book: &Book, now: u64, inverter: u8) -> u64
    requires book { IsBookPart book.now }
    requires later { last_moment_of book.now ≤ now }
    requires of_site { inverter < inverters book.now.site }
    ensures { EachBook book.now (λ whole. result ≡ rule.target_at whole now inverter) }
{
    let target = policy_target(book, inverter);
    if total_at(book, now) > cap_plain(book) {
        target.min(fall_share(book, inverter))
    } else {
        target
    }
}
