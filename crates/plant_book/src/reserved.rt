ghost use Rattle.std.specs.Prelude.{◌≡◌, ◌≤◌, ◌<◌, ◌*◌, ◌^◌, fold, map, max, length};
ghost use Rattle.limiter_num.specs.Rating.{mw};
ghost use Rattle.plant_book.specs.Site.{inverters};
ghost use Rattle.plant_book.specs.Reserved as sums;
ghost use Rattle.plant_book.specs.Part.{book_behind, part_first, last_moment_of};
ghost use Rattle.plant_book.specs.Carry.{IsBookPart, EachBefore, EachBook};

use crate::book::Book;
use crate::call::Write;
use crate::live::live_among;
use crate::site::Unit;

/// The greatest of the floor and the limits of these writes, in mW.
fn greatest(unit: &Unit, writes: &[Write]) -> u64
    ensures watts { result ≡ fold max (mw unit.now.rating unit.now.floor)
        (map (λ write. mw unit.now.rating write.raw) writes.now) }
    ensures below { result ≤ 65535 * 10 ^ 12 }
{
    let rating = &unit.rating;
    let mut most = rating.mw(unit.floor);
    for write in writes {
        most = most.max(rating.mw(write.raw));
    }
    most
}

/// The greatest of the inverter's floor and the limits of these writes, in mW.
pub fn covering(book: &Book, inverter: u8, writes: &[Write]) -> u64
    requires of_site { inverter < inverters book.now.site }
    ensures watts { result ≡ sums.covering book.now.site inverter writes.now }
    ensures below { result ≤ 65535 * 10 ^ 12 }
{
    greatest(book.unit(inverter), writes)
}

/// What is reserved for the inverter after so many entries of the book, at a moment from their last on, in mW.
#[tactic(auto, unfolding(crate::specs::Reserved::reserved_at))]
fn reserved_among(book: &Book, count: usize, now: u64, inverter: u8) -> u64
    requires book { IsBookPart book.now }
    requires within { count ≤ length book.now.entries }
    requires later { last_moment_of (part_first book.now count) ≤ now }
    requires of_site { inverter < inverters book.now.site }
    ensures watts { EachBefore book.now (λ before. result
        ≡ sums.reserved_at (book_behind before (part_first book.now count)) now inverter) }
    ensures below { result ≤ 65535 * 10 ^ 12 }
{
    covering(
        book,
        inverter,
        live_among(book, count, now, inverter).as_slice(),
    )
}

/// What is reserved in all after so many entries of the book, at a moment from their last on, in mW.
pub fn total_among(book: &Book, count: usize, now: u64) -> u64
    requires book { IsBookPart book.now }
    requires within { count ≤ length book.now.entries }
    requires later { last_moment_of (part_first book.now count) ≤ now }
    ensures { EachBefore book.now (λ before. result
        ≡ sums.total_at (book_behind before (part_first book.now count)) now) }
{
    let mut total = 0;
    for inverter in 0..book.inverters() as u8 {
        total += reserved_among(book, count, now, inverter);
    }
    total
}

/// What is reserved for the inverter at a moment from the last of the book on, in mW.
pub fn reserved_at(book: &Book, now: u64, inverter: u8) -> u64
    requires book { IsBookPart book.now }
    requires later { last_moment_of book.now ≤ now }
    requires of_site { inverter < inverters book.now.site }
    ensures watts { EachBook book.now (λ whole. result ≡ sums.reserved_at whole now inverter) }
    ensures below { result ≤ 65535 * 10 ^ 12 }
{
    reserved_among(book, book.entries().len(), now, inverter)
}

/// What is reserved in all at a moment from the last of the book on, in mW.
pub fn total_at(book: &Book, now: u64) -> u64
    requires book { IsBookPart book.now }
    requires later { last_moment_of book.now ≤ now }
    ensures { EachBook book.now (λ whole. result ≡ sums.total_at whole now) }
{
    total_among(book, book.entries().len(), now)
}
