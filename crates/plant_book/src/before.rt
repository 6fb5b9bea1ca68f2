//! What the books before a book left.
ghost use Rattle.std.specs.Prelude.{◌≡◌, ◌<◌, ◌≤◌, [], length, MatchOption};
ghost use Rattle.plant_book.specs.Site.{inverters};
ghost use Rattle.plant_book.specs.Part.{book_before};
ghost use Rattle.plant_book.specs.Carry.{unit_of, live_writes, mark_of, EachBefore};
ghost use Rattle.plant_book.specs.Requests as counted;
ghost use Rattle.plant_book.specs.Policy as policy;
ghost use Rattle.plant_book.specs.Caps.{cap_of};
ghost use Rattle.plant_book.specs.Answer as rule;

use crate::book::Book;
use crate::call::{Read, Write};
use crate::carry::{CapMark, UnitCarry};

/// What the books before left of the inverter, or nothing where this is the first book.
fn unit_before(book: &Book, inverter: u8) -> Option<&UnitCarry>
    requires { inverter < inverters book.now.site }
    ensures { EachBefore book.now (λ before. MatchOption result (before ≡ [])
        (λ unit. unit.now ≡ unit_of (book_before before book.now) inverter)) }
{
    match &book.carry {
        Some(carry) => carry.units.get(usize::from(inverter)),
        None => None,
    }
}

/// The link number of the inverter before the book.
pub fn link_before(book: &Book, inverter: u8) -> u32
    requires { inverter < inverters book.now.site }
    ensures { EachBefore book.now (λ before. result ≡ counted.link_number inverter before) }
{
    match unit_before(book, inverter) {
        Some(unit) => unit.link,
        None => 0,
    }
}

/// The count of the inverter's requests since its last Link before the book.
pub fn sent_before(book: &Book, inverter: u8) -> u16
    requires { inverter < inverters book.now.site }
    ensures { EachBefore book.now (λ before. result ≡ counted.requests inverter before) }
{
    match unit_before(book, inverter) {
        Some(unit) => unit.sent,
        None => 0,
    }
}

/// The read of the inverter that was pending before the book.
pub fn pending_before(book: &Book, inverter: u8) -> Option<Read>
    requires { inverter < inverters book.now.site }
    ensures { EachBefore book.now (λ before. result ≡ counted.pending_read inverter before) }
{
    match unit_before(book, inverter) {
        Some(unit) => unit.pending,
        None => None,
    }
}

/// Whether the inverter was strange before the book.
pub fn strange_before(book: &Book, inverter: u8) -> bool
    requires { inverter < inverters book.now.site }
    ensures { EachBefore book.now (λ before. result ≡ policy.is_strange inverter before) }
{
    match unit_before(book, inverter) {
        Some(unit) => unit.strange,
        None => false,
    }
}

/// The wish of the inverter before the book, in mW.
pub fn wish_before(book: &Book, inverter: u8) -> u64
    requires { inverter < inverters book.now.site }
    ensures { EachBefore book.now (λ before. result ≡ policy.wish (book_before before book.now) inverter) }
{
    match unit_before(book, inverter) {
        Some(unit) => unit.wish,
        None => book.rated(inverter),
    }
}

/// The writes of the inverter that were live at the last moment before the book.
pub fn writes_before(book: &Book, inverter: u8) -> &[Write]
    requires { inverter < inverters book.now.site }
    ensures { EachBefore book.now (λ before.
        result.now ≡ live_writes (book_before before book.now) inverter) }
{
    match unit_before(book, inverter) {
        Some(unit) => unit.writes.as_slice(),
        None => &[],
    }
}

/// The cap before the book, in mW.
pub fn cap_before(book: &Book) -> u64
    ensures { EachBefore book.now (λ before. result ≡ cap_of (book_before before book.now)) }
{
    match &book.carry {
        Some(carry) => carry.cap,
        None => book.site_cap(),
    }
}

/// The last Cap before the book that was set, with what was reserved right after it.
pub fn mark_before(book: &Book) -> Option<CapMark>
    ensures { EachBefore book.now (λ before. result ≡ mark_of (book_before before book.now)) }
{
    match &book.carry {
        Some(carry) => carry.set,
        None => None,
    }
}

/// Whether a Stop stands before the book.
pub fn stop_before(book: &Book) -> bool
    ensures { EachBefore book.now (λ before. result ≡ rule.is_stopped (book_before before book.now)) }
{
    match &book.carry {
        Some(carry) => carry.stop,
        None => false,
    }
}
