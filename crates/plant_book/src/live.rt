ghost use Rattle.std.specs.Prelude.{◌≡◌, ◌+◌, ◌<◌, ◌≤◌, nat_le, ◌++◌, filter};
ghost use Rattle.std.specs.Prelude.{length, take, IfSome, option_to_list, not};
ghost use Rattle.limiter_num.specs.Timers.{last_moment};
ghost use Rattle.plant_book.specs.Site.{inverters};
ghost use Rattle.plant_book.specs.Calls.{named};
ghost use Rattle.plant_book.specs.Writes as rule;
ghost use Rattle.plant_book.specs.Lifetime.{granted_to, stays_by};
ghost use Rattle.plant_book.specs.Part.{book_behind, part_first, last_moment_of};
ghost use Rattle.plant_book.specs.Carry.{live_writes, IsBookPart, EachBefore, EachBook};
ghost use Rattle.arrayvec.specs.ArrayVec.{array_vec_len};

use crate::before::writes_before;
use crate::book::{Book, Entry};
use crate::call::{Call, LIVE_MAX, Read, Reply, Write};
use crate::requests::pending_first;
use arrayvec::ArrayVec;
use limiter_num::Rules;

/// The live writes of an inverter, in the order of their grants.
pub type LiveWrites = ArrayVec<Write, LIVE_MAX>;

/// Whether the write has these numbers.
pub fn is_numbered(write: &Write, inverter: u8, link: u32, number: u16) -> bool
    ensures { result ≡ rule.is_numbered inverter link number write.now }
{
    write.inverter == inverter && write.link == link && write.number == number
}

/// Whether the read settles the write: what it shows comes after all that the write may still do.
#[tactic(auto, unfolding(limiter_num::specs::Timers::last_act))]
fn settles(rules: &Rules, read: &Read, write: &Write) -> bool
    ensures { result ≡ rule.settles rules.now read.now write.now }
{
    let last_act = write
        .at
        .saturating_add(u64::from(rules.send) + u64::from(rules.delay));
    write.inverter == read.inverter
        && (write.link == read.link && write.number < read.number || last_act < read.at)
}

/// Whether the pending read frees the write by the raw percentage that it showed.
pub fn frees(rules: &Rules, pending: Option<Read>, raw: u16, write: &Write) -> bool
    ensures { result ≡ rule.frees rules.now pending raw write.now }
{
    match pending {
        Some(read) => settles(rules, &read, write) && write.raw != raw,
        None => false,
    }
}

/// Whether the entry at a place of the book gives the write back or frees it.
fn ends(book: &Book, place: usize, entry: &Entry, write: &Write) -> bool
    requires of_site { IfSome (named entry.now.call) (λ inverter. inverter < inverters book.now.site) }
    requires within { place ≤ length book.now.entries }
    ensures { EachBefore book.now (λ before. result
        ≡ rule.ends book.now.site.rules (before ++ take place book.now.entries) entry.now write.now) }
{
    match entry.call {
        Call::Back {
            inverter,
            link,
            number,
            ..
        } => entry.reply == Reply::Taken && is_numbered(write, inverter, link, number),
        Call::Saw { inverter, raw, .. } => {
            matches!(entry.reply, Reply::Freed { .. })
                && frees(
                    &book.rules(),
                    pending_first(book, place, inverter),
                    raw,
                    write,
                )
        }
        _ => false,
    }
}

/// Whether the write isn't past its last moment.
fn is_on(write: &Write, rules: &Rules, now: u64) -> bool
    ensures { result ≡ nat_le now (last_moment rules.now write.now.at) }
{
    now <= write.at.saturating_add(rules.reach())
}

/// Whether the entry at a place of the book leaves the write, and it isn't past by the entry's moment.
fn stays(book: &Book, place: usize, entry: &Entry, write: &Write) -> bool
    requires of_site { IfSome (named entry.now.call) (λ inverter. inverter < inverters book.now.site) }
    requires within { place ≤ length book.now.entries }
    ensures { EachBefore book.now (λ before. result
        ≡ stays_by book.now.site.rules (before ++ take place book.now.entries) entry.now write.now) }
{
    !ends(book, place, entry, write) && is_on(write, &book.rules(), entry.call.at())
}

/// Of these writes those that the entry at a place of the book leaves.
fn left_after(book: &Book, place: usize, entry: &Entry, live: &LiveWrites) -> LiveWrites
    requires of_site { IfSome (named entry.now.call) (λ inverter. inverter < inverters book.now.site) }
    requires within { place ≤ length book.now.entries }
    ensures { EachBefore book.now (λ before. result.items
        ≡ filter (stays_by book.now.site.rules (before ++ take place book.now.entries) entry.now)
        live.now.items) }
{
    let mut left = LiveWrites::new();
    for write in live.as_slice() {
        if stays(book, place, entry, write) {
            left.push(*write);
        }
    }
    left
}

/// The write that an entry grants to the inverter, if it does.
fn grant_to(entry: &Entry, inverter: u8) -> Option<Write>
    ensures { option_to_list result ≡ granted_to inverter entry.now }
{
    match entry.reply {
        Reply::Granted(write) if write.inverter == inverter => Some(write),
        _ => None,
    }
}

/// The live writes of the inverter after one more entry of the book, from those before it.
fn live_after(book: &Book, place: usize, inverter: u8, live: &LiveWrites) -> LiveWrites
    requires book { IsBookPart book.now }
    requires within { place < length book.now.entries }
    requires live { EachBefore book.now (λ before. live.now.items
        ≡ live_writes (book_behind before (part_first book.now place)) inverter) }
    ensures { EachBefore book.now (λ before. result.items
        ≡ live_writes (book_behind before (part_first book.now (place + 1))) inverter) }
{
    let entry = &book.entries()[place];
    let mut next = left_after(book, place, entry, live);
    if let Some(write) = grant_to(entry, inverter) {
        next.push(write);
    }
    next
}

/// A copy of so few writes.
fn copied(writes: &[Write]) -> LiveWrites
    requires { length writes.now ≤ 32 }
    ensures { result.items ≡ writes.now }
{
    let mut copy = LiveWrites::new();
    for write in writes {
        copy.push(*write);
    }
    copy
}

/// The writes of the inverter that are live at the last moment of so many entries of the book.
fn live_first(book: &Book, count: usize, inverter: u8) -> LiveWrites
    requires book { IsBookPart book.now }
    requires of_site { inverter < inverters book.now.site }
    requires within { count ≤ length book.now.entries }
    ensures { EachBefore book.now (λ before. result.items
        ≡ live_writes (book_behind before (part_first book.now count)) inverter) }
{
    let mut live = copied(writes_before(book, inverter));
    for place in 0..count {
        live = live_after(book, place, inverter, &live);
    }
    live
}

/// Of these writes those that are not past at the moment.
fn still_on(rules: &Rules, now: u64, live: &LiveWrites) -> LiveWrites
    ensures { result.items ≡ filter (λ write. nat_le now (last_moment rules.now write.at)) live.now.items }
{
    let mut on = LiveWrites::new();
    for write in live.as_slice() {
        if is_on(write, rules, now) {
            on.push(*write);
        }
    }
    on
}

/// The writes of the inverter that are live at a moment from the last of so many entries of the book on.
pub fn live_among(book: &Book, count: usize, now: u64, inverter: u8) -> LiveWrites
    requires book { IsBookPart book.now }
    requires of_site { inverter < inverters book.now.site }
    requires within { count ≤ length book.now.entries }
    requires later { last_moment_of (part_first book.now count) ≤ now }
    ensures { EachBefore book.now (λ before. result.items
        ≡ rule.live book.now.site.rules (before ++ take count book.now.entries) now inverter) }
{
    still_on(&book.rules(), now, &live_first(book, count, inverter))
}

/// The writes of the inverter that are live at a moment from the last of the book on.
pub fn live_writes(book: &Book, now: u64, inverter: u8) -> LiveWrites
    requires book { IsBookPart book.now }
    requires of_site { inverter < inverters book.now.site }
    requires later { last_moment_of book.now ≤ now }
    ensures { EachBook book.now (λ whole. result.items
        ≡ rule.live whole.site.rules whole.entries now inverter) }
{
    live_among(book, book.entries().len(), now, inverter)
}

/// The writes that a read leaves which showed this raw percentage.
pub fn left_by(rules: &Rules, pending: Option<Read>, raw: u16, live: &LiveWrites) -> LiveWrites
    ensures { result.items ≡ filter (λ write. not (rule.frees rules.now pending raw write)) live.now.items }
{
    let mut left = LiveWrites::new();
    for write in live.as_slice() {
        if !frees(rules, pending, raw, write) {
            left.push(*write);
        }
    }
    left
}
