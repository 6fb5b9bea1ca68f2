ghost use Rattle.std.specs.Prelude.{◌≡◌, ◌<◌, ◌≤◌, List, ◌++◌, length, take};
ghost use Rattle.plant_book.specs.declared.book.Entry.{Entry};
ghost use Rattle.plant_book.specs.Site.{inverters};
ghost use Rattle.plant_book.specs.Part.{calls_of};
ghost use Rattle.plant_book.specs.Carry.{EachBefore, EachBook, IsBookPart};
ghost use Rattle.plant_book.specs.Requests as counted;

use crate::before::{link_before, pending_before, sent_before};
use crate::book::{Book, Entry};
use crate::call::{Call, Read, Reply};
use crate::carry::CALLS_MAX;

/// Whether the entry is a Link of the inverter.
fn is_link(entry: &Entry, inverter: u8) -> bool
    ensures { result ≡ counted.is_link inverter entry.now }
{
    match entry.call {
        Call::Link {
            inverter: other,
            ..
        } => other == inverter,
        _ => false,
    }
}

/// Whether the entry is a request of the inverter.
fn is_request(entry: &Entry, inverter: u8) -> bool
    ensures { result ≡ counted.is_request inverter entry.now }
{
    match entry.reply {
        Reply::Granted(write) => write.inverter == inverter,
        Reply::ReadAs(read) => read.inverter == inverter,
        _ => false,
    }
}

/// How many of the entries are Links of the inverter.
#[tactic(auto, unfolding(crate::specs::Requests::link_number))]
fn links(entries: &[Entry], inverter: u8) -> usize
    ensures number { result ≡ counted.link_number inverter entries.now }
    ensures below { result ≤ length entries.now }
{
    entries
        .iter()
        .filter(|entry| is_link(entry, inverter))
        .count()
}

/// The link number of the inverter.
pub fn link_number(book: &Book, inverter: u8) -> usize
    requires book { IsBookPart book.now }
    requires of_site { inverter < inverters book.now.site }
    ensures number { EachBook book.now (λ whole. result ≡ counted.link_number inverter whole.entries) }
    ensures below { result ≤ calls_of book.now }
{
    link_before(book, inverter) as usize + links(book.entries(), inverter)
}

/// The count of the inverter's requests since its last Link, where there were so many before the entries.
fn requests_from(from: u16, entries: &[Entry], inverter: u8) -> usize
    requires { length entries.now ≤ CALLS_MAX }
    ensures { (before : List Entry) → from ≡ counted.requests inverter before
        → result ≡ counted.requests inverter (before ++ entries.now) }
{
    let mut count = usize::from(from);
    for entry in entries {
        if is_link(entry, inverter) {
            count = 0;
        } else if is_request(entry, inverter) {
            count += 1;
        }
    }
    count
}

/// The count of the inverter's requests since its last Link.
pub fn requests(book: &Book, inverter: u8) -> usize
    requires book { IsBookPart book.now }
    requires of_site { inverter < inverters book.now.site }
    ensures { EachBook book.now (λ whole. result ≡ counted.requests inverter whole.entries) }
{
    requests_from(sent_before(book, inverter), book.entries(), inverter)
}

/// Whether a reply says that a read-back was taken.
pub fn is_seen(reply: &Reply) -> bool
    ensures { result ≡ counted.is_seen reply.now }
{
    matches!(reply, Reply::Freed { .. } | Reply::Strange(_))
}

/// Whether the entry makes or ends the pending read of the inverter.
fn changes_pending(entry: &Entry, inverter: u8) -> bool
    ensures { result ≡ counted.changes_pending inverter entry.now }
{
    match entry.call {
        Call::Link {
            inverter: other,
            ..
        } => other == inverter,
        Call::Saw {
            inverter: other,
            ..
        } => other == inverter && is_seen(&entry.reply),
        Call::Read { .. } =>
            matches!(entry.reply, Reply::ReadAs(read) if read.inverter == inverter),
        _ => false,
    }
}

/// The read that the reply numbers, if it does.
fn read_of(reply: &Reply) -> Option<Read>
    ensures { result ≡ counted.read_of reply.now }
{
    match *reply {
        Reply::ReadAs(read) => Some(read),
        _ => None,
    }
}

/// The pending read of the inverter, where this one was pending before the entries.
fn pending_from(from: Option<Read>, entries: &[Entry], inverter: u8) -> Option<Read>
    ensures { (before : List Entry) → from ≡ counted.pending_read inverter before
        → result ≡ counted.pending_read inverter (before ++ entries.now) }
{
    let mut pending = from;
    for entry in entries {
        if changes_pending(entry, inverter) {
            pending = read_of(&entry.reply);
        }
    }
    pending
}

/// The pending read of the inverter after so many entries of the book.
pub fn pending_first(book: &Book, count: usize, inverter: u8) -> Option<Read>
    requires of_site { inverter < inverters book.now.site }
    requires within { count ≤ length book.now.entries }
    ensures { EachBefore book.now (λ before. result
        ≡ counted.pending_read inverter (before ++ take count book.now.entries)) }
{
    pending_from(
        pending_before(book, inverter),
        &book.entries()[..count],
        inverter,
    )
}

/// The pending read of the inverter.
pub fn pending_read(book: &Book, inverter: u8) -> Option<Read>
    requires { inverter < inverters book.now.site }
    ensures { EachBook book.now (λ whole. result ≡ counted.pending_read inverter whole.entries) }
{
    pending_from(pending_before(book, inverter), book.entries(), inverter)
}
