ghost use Rattle.std.specs.Prelude.{◌≡◌, ◌⊎◌, [], Some, IfOk, IfErr, OnOk};
ghost use Rattle.plant_book.specs.Part.{calls_of};
ghost use Rattle.plant_book.specs.Carry.{EachBefore, EachBook};
ghost use Rattle.plant_book.specs.Carry as rule;
ghost use Rattle.plant_ledger.specs.Ledger.{IsAtLast};
ghost use Rattle.plant_ledger.specs.Plant.{IsKept, Rolls, IsFullLife};

use crate::ledger::Ledger;
use limiter_num::NoMemory;
use plant_book::{Book, CALLS_MAX, Carry};
use std::alloc::Global;

/// Why a book didn't roll over. All is as it was.
#[derive(Clone, Copy, Debug, PartialEq, Eq)]
pub enum RollFault {
    /// With one more book of its room the life would have more calls than it may: it has so many.
    LifeFull(u32),
    /// Memory for the next book could not be had.
    NoMemory,
}

/// How many calls the life has, up to and with this book.
fn life_calls(book: &Book) -> u32
    requires { IsKept book.now }
    ensures { result ≡ calls_of book.now }
{
    let before = match &book.carry {
        Some(carry) => carry.calls,
        None => 0,
    };
    let entries = &book.entries;
    before + entries.len() as u32
}

/// An empty book of the same life, with all memory that it will need, that begins with this carry.
fn empty_book(alloc: Global, book: &Book, carry: Carry) -> Result<Book, NoMemory>
    ensures { IfOk result (λ next. next ≡ record {
      site = book.now.site;
      start = book.now.start;
      carry = Some carry;
      entries = [];
    }) }
{
    let Ok(site) = book.site.clone() else {
        return Err(NoMemory);
    };
    Book::new(alloc, site, book.start, Some(carry))
}

/// What the life leaves to its next book: what the ledger keeps, written down.
fn carry_of(alloc: Global, ledger: &Ledger) -> Result<Carry, NoMemory>
    requires { IsAtLast ledger.now }
    ensures { IfOk result (λ carry. EachBook ledger.now.book (λ whole. carry ≡ rule.carry_of whole)) }
{
    let units = ledger.units(alloc)?;
    Ok(Carry {
        last: ledger.now(),
        calls: life_calls(ledger.book()),
        cap: ledger.cap(),
        set: ledger.mark(),
        stop: ledger.is_stopped(),
        units,
    })
}

/// The empty book that goes on behind the ledger's.
fn book_after(alloc: Global, ledger: &Ledger) -> Result<Book, NoMemory>
    requires { IsAtLast ledger.now }
    ensures { IfOk result (λ next. EachBefore ledger.now.book (λ before. Rolls before ledger.now.book next)) }
{
    let carry = carry_of(alloc, ledger)?;
    empty_book(alloc, ledger.book(), carry)
}

/// The next book of the life, where it may have as many calls more.
pub fn next_book(alloc: Global, ledger: &Ledger) -> Result<Book, RollFault>
    requires { IsAtLast ledger.now }
    ensures next { IfOk result (λ next. EachBefore ledger.now.book
        (λ before. Rolls before ledger.now.book next)) }
    ensures kept { IfOk result (λ next. IsKept next) }
    ensures unfilled { OnOk result (¬ IsFullLife ledger.now.book) }
    ensures refused { IfErr result (λ fault.
        (IsFullLife ledger.now.book × (fault ≡ RollFault.LifeFull (calls_of ledger.now.book)))
        ⊎ ((¬ IsFullLife ledger.now.book) × (fault ≡ RollFault.NoMemory))) }
{
    let book = ledger.book();
    let calls = life_calls(book);
    let site = &book.site;
    if calls > CALLS_MAX - site.room {
        return Err(RollFault::LifeFull(calls));
    }
    match book_after(alloc, ledger) {
        Ok(next) => Ok(next),
        Err(NoMemory) => Err(RollFault::NoMemory),
    }
}
