ghost use Rattle.std.specs.Prelude.{◌≡◌, ◌==◌, ◌<◌, ◌≤◌, ◌*◌, ◌^◌};
ghost use Rattle.std.specs.List.{list_any};
ghost use Rattle.plant_book.specs.Calls.{moment};
ghost use Rattle.plant_book.specs.Site.{inverters};
ghost use Rattle.plant_book.specs.Reserved as sums;
ghost use Rattle.plant_book.specs.Requests as requests;
ghost use Rattle.plant_book.specs.Writes.{live, is_numbered};
ghost use Rattle.plant_book.specs.Answer as rule;
ghost use Rattle.plant_book.specs.Answered.{IsNext};
ghost use Rattle.plant_book.specs.Part.{begin_of, last_moment_of, calls_of};
ghost use Rattle.plant_book.specs.Carry.{IsBookPart, EachBook};

use crate::before::stop_before;
use crate::book::{Book, Entry};
use crate::call::{Call, LIVE_MAX, REQUESTS_MAX, Read, Reply, Write};
use crate::caps::{cap_plain, ceiling_with};
use crate::carry::CALLS_MAX;
use crate::live::{LiveWrites, is_numbered, left_by, live_writes};
use crate::policy::target_at;
use crate::requests::{link_number, pending_read, requests};
use crate::reserved::{covering, reserved_at, total_at};

/// The reply to a call that is entered behind a book of a life, computed from the whole list.
pub fn answer(book: &Book, call: &Call) -> Reply
    requires book { IsBookPart book.now }
    requires next { IsNext book.now.site (begin_of book.now) book.now.entries call.now }
    requires calls { calls_of book.now < CALLS_MAX }
    ensures { EachBook book.now (λ whole. result ≡ rule.reply_to whole call.now) }
{
    match *call {
        Call::Link { inverter, .. } => Reply::Linked(link_number(book, inverter) as u32 + 1),
        Call::Ask { at, inverter, raw } => reply_to_ask(book, at, inverter, raw),
        Call::Read { at, inverter } => reply_to_read(book, at, inverter),
        Call::Saw {
            at,
            inverter,
            number,
            raw,
        } => reply_to_saw(book, at, inverter, number, raw),
        Call::Back {
            at,
            inverter,
            link,
            number,
        } => reply_to_back(book, at, inverter, link, number),
        Call::Tick { at } => Reply::Total(total_at(book, at)),
        Call::Cap { at, mw } => reply_to_cap(book, at, mw),
        Call::Want { .. } | Call::Stop { .. } => Reply::Taken,
    }
}

/// The reply to an Ask: a link with requests left is wanted.
#[tactic(auto, unfolding(crate::specs::Answer::reply_to_ask))]
fn reply_to_ask(book: &Book, now: u64, inverter: u8, raw: u16) -> Reply
    requires book { IsBookPart book.now }
    requires later { last_moment_of book.now ≤ now }
    requires of_site { inverter < inverters book.now.site }
    ensures { EachBook book.now (λ whole. result ≡ rule.reply_to_ask whole now inverter raw) }
{
    let link = link_number(book, inverter);
    if link == 0 {
        return Reply::Unlinked;
    }
    let count = requests(book, inverter);
    if count >= usize::from(REQUESTS_MAX) {
        return Reply::Spent;
    }
    let write = Write {
        inverter,
        link: link as u32,
        number: count as u16 + 1,
        at: now,
        raw,
    };
    reply_by_policy(book, &write)
}

/// The reply to an Ask on a link with requests left: the policy has to allow it, and the silence to be over.
#[tactic(auto, unfolding(crate::specs::Answer::reply_by_policy))]
fn reply_by_policy(book: &Book, write: &Write) -> Reply
    requires book { IsBookPart book.now }
    requires later { last_moment_of book.now ≤ write.now.at }
    requires of_site { write.now.inverter < inverters book.now.site }
    requires write { EachBook book.now (λ whole.
        write.now ≡ rule.write_at whole write.now.at write.now.inverter write.now.raw) }
    ensures { EachBook book.now (λ whole.
        result ≡ rule.reply_by_policy whole write.now.at write.now.inverter write.now.raw) }
{
    let full = book.full(write.inverter);
    if write.raw > full {
        return Reply::Over(full);
    }
    let silent_until = book.silent_until();
    if write.at <= silent_until {
        return Reply::Silent(silent_until);
    }
    let target = target_at(book, write.at, write.inverter);
    if book.mw(write.inverter, write.raw) > target {
        return Reply::NotAllowed(book.raw_at_most(write.inverter, target));
    }
    reply_by_watts(book, write)
}

/// The reply to an Ask that the policy allows: unreserved watts and room for one more live write are wanted.
#[tactic(auto, unfolding(crate::specs::Answer::reply_by_watts, crate::specs::Reserved::unreserved_at))]
fn reply_by_watts(book: &Book, write: &Write) -> Reply
    requires book { IsBookPart book.now }
    requires later { last_moment_of book.now ≤ write.now.at }
    requires of_site { write.now.inverter < inverters book.now.site }
    requires write { EachBook book.now (λ whole.
        write.now ≡ rule.write_at whole write.now.at write.now.inverter write.now.raw) }
    ensures { EachBook book.now (λ whole.
        result ≡ rule.reply_by_watts whole write.now.at write.now.inverter write.now.raw) }
{
    let unreserved = cap_plain(book).saturating_sub(total_at(book, write.at));
    let reserved = reserved_at(book, write.at, write.inverter);
    if reserved.max(book.mw(write.inverter, write.raw)) - reserved > unreserved {
        return Reply::NoWatts(unreserved);
    }
    if live_writes(book, write.at, write.inverter).len() >= LIVE_MAX {
        return Reply::Crowded;
    }
    Reply::Granted(*write)
}

/// The reply to a Read: a link with requests left is wanted.
#[tactic(auto, unfolding(crate::specs::Answer::reply_to_read))]
fn reply_to_read(book: &Book, now: u64, inverter: u8) -> Reply
    requires book { IsBookPart book.now }
    requires of_site { inverter < inverters book.now.site }
    ensures { EachBook book.now (λ whole. result ≡ rule.reply_to_read whole now inverter) }
{
    let link = link_number(book, inverter);
    if link == 0 {
        return Reply::Unlinked;
    }
    let count = requests(book, inverter);
    if count >= usize::from(REQUESTS_MAX) {
        return Reply::Spent;
    }
    Reply::ReadAs(Read {
        inverter,
        link: link as u32,
        number: count as u16 + 1,
        at: now,
    })
}

/// The reply to a Saw: a pending read of this number is wanted.
#[tactic(auto, unfolding(crate::specs::Answer::reply_to_saw))]
fn reply_to_saw(book: &Book, now: u64, inverter: u8, number: u16, raw: u16) -> Reply
    requires book { IsBookPart book.now }
    requires later { last_moment_of book.now ≤ now }
    requires of_site { inverter < inverters book.now.site }
    ensures { EachBook book.now (λ whole. result ≡ rule.reply_to_saw whole now inverter number raw) }
{
    let pending = pending_read(book, inverter);
    if !is_pending(&pending, number) {
        return Reply::NoRead;
    }
    let live = live_writes(book, now, inverter);
    reply_to_sight(book, inverter, pending, raw, &live)
}

/// The reply to a Saw of the pending read, where these are the live writes: their raw percentages are known.
fn reply_to_sight(
    book: &Book,
    inverter: u8,
    pending: Option<Read>,
    raw: u16,
    live: &LiveWrites,
) -> Reply
    requires of_site { inverter < inverters book.now.site }
    ensures { result ≡ rule.reply_to_sight book.now.site inverter pending raw live.now.items }
{
    if !is_known(book.floor_raw(inverter), live, raw) {
        return Reply::Strange(raw);
    }
    let left = left_by(&book.rules(), pending, raw, live);
    Reply::Freed {
        count: (live.len() - left.len()) as u8,
        reserved: covering(book, inverter, left.as_slice()),
    }
}

/// Whether the pending read has this number.
fn is_pending(pending: &Option<Read>, number: u16) -> bool
    ensures { result ≡ rule.is_pending pending.now number }
{
    matches!(pending, Some(read) if read.number == number)
}

/// Whether a raw percentage is the floor's or that of one of the live writes.
fn is_known(floor: u16, live: &LiveWrites, raw: u16) -> bool
    ensures { result ≡ rule.is_raw_of floor raw live.now.items }
{
    raw == floor || has_raw(live.as_slice(), raw)
}

/// Whether one of the writes has this raw percentage.
fn has_raw(writes: &[Write], raw: u16) -> bool
    ensures { result ≡ list_any (λ write. write.raw == raw) writes.now }
{
    writes.iter().any(|write| write.raw == raw)
}

/// The reply to a Back: a live write of these numbers is wanted.
#[tactic(auto, unfolding(crate::specs::Answer::reply_to_back))]
fn reply_to_back(book: &Book, now: u64, inverter: u8, link: u32, number: u16) -> Reply
    requires book { IsBookPart book.now }
    requires later { last_moment_of book.now ≤ now }
    requires of_site { inverter < inverters book.now.site }
    ensures { EachBook book.now (λ whole. result ≡ rule.reply_to_back whole now inverter link number) }
{
    let live = live_writes(book, now, inverter);
    if has_numbers(live.as_slice(), inverter, link, number) {
        Reply::Taken
    } else {
        Reply::NoWrite
    }
}

/// Whether one of the writes has these numbers.
fn has_numbers(writes: &[Write], inverter: u8, link: u32, number: u16) -> bool
    ensures { result ≡ list_any (is_numbered inverter link number) writes.now }
{
    writes
        .iter()
        .any(|write| is_numbered(write, inverter, link, number))
}

/// The reply to a Cap: the floors have to fit under it, and it may not be above the site's.
#[tactic(auto, unfolding(crate::specs::Answer::reply_to_cap))]
fn reply_to_cap(book: &Book, now: u64, mw: u64) -> Reply
    requires book { IsBookPart book.now }
    requires later { last_moment_of book.now ≤ now }
    ensures { EachBook book.now (λ whole. result ≡ rule.reply_to_cap whole now mw) }
{
    let least = book.floors();
    let most = book.site_cap();
    if mw < least || mw > most {
        return Reply::CapOut { least, most };
    }
    Reply::CapSet {
        cap: mw,
        ceiling: ceiling_with(book, now, mw),
    }
}

/// What is reserved for the inverter at the last moment of the book, in mW.
pub fn reserved_plain(book: &Book, inverter: u8) -> u64
    requires book { IsBookPart book.now }
    requires of_site { inverter < inverters book.now.site }
    ensures watts { EachBook book.now (λ whole. result ≡ sums.reserved whole inverter) }
    ensures below { result ≤ 65535 * 10 ^ 12 }
{
    reserved_at(book, book.latest(), inverter)
}

/// What is reserved in all at the last moment of the book, in mW.
pub fn total_plain(book: &Book) -> u64
    requires { IsBookPart book.now }
    ensures { EachBook book.now (λ whole. result ≡ sums.total whole) }
{
    total_at(book, book.latest())
}

/// The raw percentage that the inverter may aim at, at the last moment of the book.
#[tactic(auto, unfolding(crate::specs::Answer::goal_raw, crate::specs::Reserved::unreserved_at))]
pub fn goal_plain(book: &Book, inverter: u8) -> u16
    requires book { IsBookPart book.now }
    requires of_site { inverter < inverters book.now.site }
    ensures { EachBook book.now (λ whole. result ≡ rule.goal_raw whole inverter) }
{
    let now = book.latest();
    let unreserved = cap_plain(book).saturating_sub(total_at(book, now));
    let most = reserved_at(book, now, inverter) + unreserved;
    book.raw_at_most(inverter, target_at(book, now, inverter).min(most))
}

/// Whether a Stop stands in the book or before it.
#[tactic(auto, unfolding(crate::specs::Answer::is_stopped))]
pub fn is_stopped(book: &Book) -> bool
    ensures { EachBook book.now (λ whole. result ≡ rule.is_stopped whole) }
{
    stop_before(book) || has_stop(book.entries())
}

/// Whether one of the entries is a Stop.
fn has_stop(entries: &[Entry]) -> bool
    ensures { result ≡ list_any (λ entry. rule.stops entry.call) entries.now }
{
    entries.iter().any(is_stop)
}

/// Whether the entry is a Stop.
fn is_stop(entry: &Entry) -> bool
    ensures { result ≡ rule.stops entry.now.call }
{
    matches!(entry.call, Call::Stop { .. })
}
