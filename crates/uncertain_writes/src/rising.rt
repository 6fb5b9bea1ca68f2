//! What the order of the grants tells of writes: mostly the first stands for all.
ghost use Rattle.std.specs.Prelude.{◌≡◌, ◌≤◌, ◌<◌, IsTrue, [], ◌∷◌, ◌++◌, length, drop, filter};
ghost use Rattle.std.specs.List.{list_any};
ghost use Rattle.plant_book.specs.declared.call.Write.{Write as Written};
ghost use Rattle.uncertain_writes.specs.Live.{is_past, without, AreInOrder, IsOldest};

use crate::kept::Kept;
use limiter_num::Rules;

/// Whether it is known that no write is older than one before it, with one of this moment in ms behind them.
pub fn stays_rising(writes: &[Kept], rising: bool, at: u64) -> bool
    requires { IsTrue rising → AreInOrder writes.now }
    ensures { IsTrue result → (write : Written) → write.at ≡ at → AreInOrder (writes.now ++ write ∷ []) }
{
    if !rising {
        return false;
    }
    match writes {
        [.., last] => last.at() <= at,
        [] => true,
    }
}

/// Whether the first write is past, and no other is.
pub fn is_first_past_alone(writes: &[Kept], rising: bool, rules: &Rules, now: u64) -> bool
    requires { IsTrue rising → AreInOrder writes.now }
    ensures left { IsTrue result → without (is_past rules.now now) writes.now ≡ drop 1 writes.now }
    ensures one { IsTrue result → length (filter (is_past rules.now now) writes.now) ≡ 1 }
    ensures some { IsTrue result → 0 < length writes.now }
{
    match writes {
        [first, rest @ ..] => first.is_past(rules, now) && !has_past(rest, rising, rules, now),
        [] => false,
    }
}

/// Whether a write is past. Where they rise, it is the first, if one is.
fn has_past(writes: &[Kept], rising: bool, rules: &Rules, now: u64) -> bool
    requires { IsTrue rising → AreInOrder writes.now }
    ensures { result ≡ list_any (is_past rules.now now) writes.now }
{
    match writes {
        [first, ..] if rising => first.is_past(rules, now),
        _ => writes.iter().any(|kept| kept.is_past(rules, now)),
    }
}

/// The moment in ms of the oldest of the writes, or `u64::MAX` of none. Where they rise, it is that of the first.
pub fn oldest(writes: &[Kept], rising: bool) -> u64
    requires { IsTrue rising → AreInOrder writes.now }
    ensures { IsOldest writes.now result }
{
    match writes {
        [first, ..] if rising => first.at(),
        _ => least_moment(writes),
    }
}

/// The same of writes in any order.
fn least_moment(writes: &[Kept]) -> u64
    ensures { IsOldest writes.now result }
{
    let mut oldest = u64::MAX;
    for write in writes {
        oldest = oldest.min(write.at());
    }
    oldest
}
