ghost use Rattle.std.specs.Prelude.{◌≡◌, ℕ, ◌+◌, ◌<◌, ◌≤◌, List, ◌++◌, length};
ghost use Rattle.plant_book.specs.declared.book.Entry.{Entry};
ghost use Rattle.plant_book.specs.Sums.{last_that};
ghost use Rattle.plant_book.specs.Caps as rule;
ghost use Rattle.plant_book.specs.Answer as answers;
ghost use Rattle.plant_book.specs.Ceiling as ceilings;
ghost use Rattle.plant_book.specs.Part.{book_behind, part_first, last_moment_of};
ghost use Rattle.plant_book.specs.Carry.{mark_of, IsBookPart, EachBefore, EachBook};

use crate::before::{cap_before, mark_before};
use crate::book::{Book, Entry};
use crate::call::{Call, Reply};
use crate::carry::CapMark;
use crate::reserved::{total_among, total_at};

/// Whether the entry sets the cap.
fn sets_cap(entry: &Entry) -> bool
    ensures { result ≡ rule.sets_cap entry.now }
{
    matches!(entry.call, Call::Cap { .. }) && matches!(entry.reply, Reply::CapSet { .. })
}

/// The cap that a call wants, in mW, or else this number.
fn cap_by(call: &Call, otherwise: u64) -> u64
    ensures { result ≡ rule.cap_by otherwise call.now }
{
    match *call {
        Call::Cap { mw, .. } => mw,
        _ => otherwise,
    }
}

/// The cap in force, in mW, where it was this one before the entries.
fn cap_from(from: u64, entries: &[Entry]) -> u64
    ensures { (most : ℕ) (before : List Entry)
        → from ≡ rule.cap_after most (last_that rule.sets_cap before)
        → result ≡ rule.cap_after most (last_that rule.sets_cap (before ++ entries.now)) }
{
    let mut cap = from;
    for entry in entries {
        if sets_cap(entry) {
            cap = cap_by(&entry.call, cap);
        }
    }
    cap
}

/// The cap in force, in mW.
#[tactic(auto, unfolding(crate::specs::Caps::cap_of))]
pub fn cap_plain(book: &Book) -> u64
    requires { IsBookPart book.now }
    ensures cap { EachBook book.now (λ whole. result ≡ rule.cap_of whole) }
    ensures high { result ≤ book.now.site.cap }
{
    cap_from(cap_before(book), book.entries())
}

/// The mark that the entry at a place of the book sets, or else this one.
fn mark_after(book: &Book, place: usize, mark: Option<CapMark>) -> Option<CapMark>
    requires book { IsBookPart book.now }
    requires within { place < length book.now.entries }
    ensures { EachBefore book.now (λ before. mark ≡ mark_of (book_behind before (part_first book.now place))
        → result ≡ mark_of (book_behind before (part_first book.now (place + 1)))) }
{
    let entry = &book.entries()[place];
    if !sets_cap(entry) {
        return mark;
    }
    let at = entry.call.at();
    let was = total_among(book, place + 1, at);
    Some(CapMark { at, was })
}

/// The last Cap that was set, with what was reserved right after it.
pub fn cap_mark(book: &Book) -> Option<CapMark>
    requires { IsBookPart book.now }
    ensures { EachBook book.now (λ whole. result ≡ mark_of whole) }
{
    let mut mark = mark_before(book);
    for place in 0..book.entries().len() {
        mark = mark_after(book, place, mark);
    }
    mark
}

/// What all limits together stay under at the last moment of the book, in mW.
#[tactic(auto, unfolding(crate::specs::Ceiling::ceiling))]
pub fn ceiling_plain(book: &Book) -> u64
    requires { IsBookPart book.now }
    ensures { EachBook book.now (λ whole. result ≡ ceilings.ceiling whole) }
{
    if book.latest() <= book.silent_until() {
        return book.site_cap();
    }
    ceiling_since(book, cap_mark(book))
}

/// The same behind the silence, where the cap in force was set so.
fn ceiling_since(book: &Book, mark: Option<CapMark>) -> u64
    requires { IsBookPart book.now }
    ensures { EachBook book.now (λ whole. mark ≡ mark_of whole
        → result ≡ ceilings.ceiling_since whole (last_that rule.sets_cap whole.entries)) }
{
    let cap = cap_plain(book);
    match mark {
        Some(mark) if book.latest() <= mark.at.saturating_add(book.rules().reach()) => {
            cap.max(mark.was)
        }
        Some(_) => cap,
        None => book.site_cap(),
    }
}

/// The ceiling right after a cap is set at a moment from the last of the book on. Both caps are in mW.
pub fn ceiling_with(book: &Book, now: u64, mw: u64) -> u64
    requires book { IsBookPart book.now }
    requires later { last_moment_of book.now ≤ now }
    ensures { EachBook book.now (λ whole. result ≡ answers.ceiling_with whole now mw) }
{
    if now <= book.silent_until() {
        return book.site_cap();
    }
    mw.max(total_at(book, now))
}
