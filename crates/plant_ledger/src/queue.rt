//! The queue of live writes, by which an expiry looks at no inverter that has nothing due.
ghost use Rattle.std.specs.Prelude.{◌≡◌, ℕ, ◌≤◌, ◌<◌, length, map, filter, not, Some};
ghost use Rattle.std.specs.Prelude.{None, slice_set, slice_index_or, IfSome};
ghost use Rattle.std.specs.List.{All};
ghost use Rattle.limiter_num.specs.declared.rules.Rules.{Rules as Timed};
ghost use Rattle.limiter_num.specs.Timers as timers;
ghost use Rattle.plant_book.specs.Calls.{named};
ghost use Rattle.plant_book.specs.Writes.{frees};
ghost use Rattle.plant_book.specs.declared.call.Write.{Write as Written};
ghost use Rattle.revert_timers.specs.Expiries.{is_past};
ghost use Rattle.plant_ledger.specs.Account.{Account as Kept};
ghost use Rattle.plant_ledger.specs.Ledger.{AreSums, account_at};
ghost use Rattle.plant_ledger.specs.Queue.{HavePlaces, queue_after, without_writes};
ghost use Rattle.plant_ledger.specs.Queue as places;

use crate::account::Account;
use crate::sums::Sums;
use limiter_num::Rules;
use plant_book::{Call, Entry, MOMENT_MAX, Read, Reply, Write};
use revert_timers::{Due, Expiries};

/// Follows one more entry: a granted write comes behind the others, and what is given back or freed goes. The accounts
/// are those before the entry, and a write may be held for so many ms after its grant.
pub fn follow_queue(
    expiries: &mut Expiries,
    accounts: &[Account],
    rules: &Rules,
    reach: u64,
    entry: &Entry,
)
    requires reach { reach ≡ timers.reach rules.now }
    requires low { reach ≤ 130860000 }
    requires of_site { IfSome (named entry.now.call) (λ inverter. inverter < length accounts.now) }
    requires room { (inverter : ℕ) (write : Written) → named entry.now.call ≡ Some inverter
        → entry.now.reply ≡ Reply.Granted write → (write.at ≤ MOMENT_MAX)
        × (length expiries.old < 2048) × All (λ due. due.last ≤ timers.last_moment rules.now write.at) expiries.old }
    ensures follows { (inverter : ℕ) (otherwise : Kept) → named entry.now.call ≡ Some inverter → expiries.new
        ≡ queue_after rules.now entry.now.call entry.now.reply (slice_index_or accounts.now inverter otherwise)
        expiries.old }
    ensures stays { named entry.now.call ≡ None → expiries.new ≡ expiries.old }
{
    match (&entry.call, &entry.reply) {
        (Call::Ask { inverter, .. }, Reply::Granted(write)) => {
            expiries.add(due_of(reach, *inverter, write));
        }
        (Call::Saw { inverter, raw, .. }, Reply::Freed { .. }) => {
            let account = &accounts[usize::from(*inverter)];
            drop_freed(expiries, account, rules, *inverter, *raw);
        }
        (
            Call::Back {
                inverter,
                link,
                number,
                ..
            },
            Reply::Taken,
        ) => {
            expiries.remove(*inverter, *link, *number);
        }
        _ => {}
    }
}

/// The place of a write of the inverter.
fn due_of(reach: u64, inverter: u8, write: &Write) -> Due
    requires at { write.now.at ≤ MOMENT_MAX }
    requires low { reach ≤ 130860000 }
    ensures { (rules : Timed) → reach ≡ timers.reach rules → result ≡ places.due_of rules inverter write.now }
{
    Due {
        last: write.at + reach,
        inverter,
        link: write.link,
        number: write.number,
    }
}

/// Takes out what the pending read of the account frees, where it showed this raw percentage.
fn drop_freed(expiries: &mut Expiries, account: &Account, rules: &Rules, inverter: u8, raw: u16)
    ensures { expiries.new
        ≡ without_writes inverter (filter (frees rules.now account.now.pending raw) account.now.live) expiries.old }
{
    if let Some(read) = account.pending() {
        let freed = account.live().freed_by(rules, &read, raw);
        drop_writes(expiries, inverter, freed.as_slice());
    }
}

/// Takes these writes of the inverter out, one after another.
fn drop_writes(expiries: &mut Expiries, inverter: u8, gone: &[Write])
    ensures { expiries.new ≡ without_writes inverter gone.now expiries.old }
{
    for write in gone {
        expiries.remove(inverter, write.link, write.number);
    }
}

/// Drops what is past by a moment in ms of the account at a place, if there is one.
fn expire_at(
    accounts: &mut [Account],
    sums: &mut Sums,
    place: usize,
    rules: &Rules,
    reach: u64,
    now: u64,
)
    requires reach { reach ≡ timers.reach rules.now }
    requires few { length accounts.old ≤ 64 }
    requires sums { AreSums accounts.old sums.old }
    ensures sums { AreSums accounts.new sums.new }
    ensures account { (otherwise : Kept) → place < length accounts.old → accounts.new
        ≡ slice_set accounts.old place (account_at rules.now now (slice_index_or accounts.old place otherwise)) }
    ensures none { length accounts.old ≤ place → accounts.new ≡ accounts.old }
    ensures level { sums.new.level ≡ sums.old.level }
    ensures fall { sums.new.fall ≡ sums.old.fall }
    ensures set { sums.new.set ≡ sums.old.set }
{
    if place >= accounts.len() {
        return;
    }
    let account = &mut accounts[place];
    let reserved = account.reserved();
    account.expire(rules, reach, now);
    sums.total = sums.total - reserved + account.reserved();
}

/// Drops what is past by a moment in ms of the accounts whose writes stand at the front of the queue. It takes a step
/// for each write that is past, of which there are at most 2,048.
pub fn expire_due(
    accounts: &mut [Account],
    expiries: &mut Expiries,
    sums: &mut Sums,
    rules: &Rules,
    reach: u64,
    now: u64,
)
    requires reach { reach ≡ timers.reach rules.now }
    requires few { length accounts.old ≤ 64 }
    requires sums { AreSums accounts.old sums.old }
    requires queued { HavePlaces rules.now expiries.old accounts.old }
    ensures same { map (account_at rules.now now) accounts.new ≡ map (account_at rules.now now) accounts.old }
    ensures sums { AreSums accounts.new sums.new }
    ensures queued { HavePlaces rules.now expiries.new accounts.new }
    ensures left { expiries.new ≡ filter (λ due. not (is_past now due)) expiries.old }
    ensures none_due { All (λ due. now ≤ due.last) expiries.new }
    ensures level { sums.new.level ≡ sums.old.level }
    ensures fall { sums.new.fall ≡ sums.old.fall }
    ensures set { sums.new.set ≡ sums.old.set }
{
    while let Some(due) = expiries.pop_past(now) {
        expire_at(accounts, sums, usize::from(due.inverter), rules, reach, now);
    }
}
