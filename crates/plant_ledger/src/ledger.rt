//! A book, and the account of each inverter.
ghost use Rattle.std.specs.Prelude.{◌≡◌, ℕ, ◌<◌, ◌≤◌, ◌^◌, nat_le, ◌||◌, ◌⊎◌, if◌then◌else◌};
ghost use Rattle.std.specs.Prelude.{[], ◌∷◌, ◌++◌, length, map, Some, None, IfOk, IfErr, IfSome};
ghost use Rattle.std.specs.Prelude.{OnOk, OnErr, slice_get, slice_set, slice_index_or};
ghost use Rattle.plant_book.specs.Site.{inverters, floors, full_at, mw_at};
ghost use Rattle.plant_book.specs.Caps.{sets_cap, cap_by, cap_of};
ghost use Rattle.plant_book.specs.Calls.{moment, named};
ghost use Rattle.plant_book.specs.Answer.{silent_until, stops, is_stopped};
ghost use Rattle.plant_book.specs.Answered.{IsOpenable, IsNext, IsAnswer};
ghost use Rattle.plant_book.specs.Reserved as sums;
ghost use Rattle.plant_book.specs.Policy as rule;
ghost use Rattle.share_policy.specs.Shares.{level_of};
ghost use Rattle.plant_book.specs.Part.{begin_of, calls_of, book_behind};
ghost use Rattle.plant_book.specs.Carry.{mark_of, units_of, IsBookPart, EachBefore, EachBook};
ghost use Rattle.plant_ledger.specs.Account.{Account as Kept};
ghost use Rattle.plant_ledger.specs.Account.{IsAccount, HasRoom, after_call, claim_by};
ghost use Rattle.plant_ledger.specs.Ledger.{IsUnit, IsAtLast, AreSums, IsLevel};
ghost use Rattle.plant_ledger.specs.Plant.{with_one, Rolls, IsFullLife};

mod levels;

use crate::account::Account;
use crate::lists::{claims_by, first_accounts, units_by};
use crate::queue::{expire_due, follow_queue};
use crate::rolling::{RollFault, next_book};
use crate::sums::{Sums, follow, gather};
use limiter_num::{NoMemory, Rules};
use plant_book::{
    Book, CALLS_MAX, Call, CapMark, Claim, Entry, MOMENT_MAX, Policy, Reply, Site, Unit, UnitCarry,
};
use revert_timers::Expiries;
use std::alloc::Global;
use std::marker::Model;
use std::mem;

/// A book with the account of each inverter at a moment from its last one on, so that no reply walks the
/// entries.
#[derive(Debug, Drop)]
pub struct Ledger {
    book: Book,
    moment: u64,
    /// How long after its grant a write may still be held, in ms.
    reach: u64,
    accounts: Vec<Account>,
    /// What the share of each inverter goes by.
    claims: Vec<Claim>,
    expiries: Expiries,
    sums: Sums,
    cap: u64,
    stopped: bool,
}

impl Model for Ledger {
    ghost use Rattle.plant_ledger.specs.Ledger.{LedgerRecord, Keeps};

    ghost Value = { LedgerRecord };

    ghost view = { λ l. record { book = l.book; at = l.moment } };

    ghost invariant = { λ l.
        Keeps l.book l.moment l.accounts.items l.claims.items l.expiries l.sums l.cap l.stopped l.reach };
}

impl Ledger {
    /// Opens the book of a site at a moment in ms, with all memory that it will need.
    pub fn new(alloc: Global, site: Site, start: u64) -> Result<Ledger, NoMemory>
        requires openable { IsOpenable site }
        requires start { start ≤ MOMENT_MAX }
        ensures { IfOk result (λ ledger. ledger ≡ record {
          book = record { site = site; start = start; carry = None; entries = [] };
          at = start;
        }) }
    {
        let accounts = first_accounts(alloc, &site.units)?;
        let claims = claims_by(alloc, &accounts)?;
        let sums = gather(&accounts);
        let expiries = Expiries::new(alloc)?;
        let cap = site.cap;
        let reach = site.rules.reach();
        let book = Book::new(alloc, site, start, None)?;
        Ok(Ledger {
            book,
            moment: start,
            reach,
            accounts,
            claims,
            expiries,
            sums,
            cap,
            stopped: false,
        })
    }

    /// Goes on to a moment in ms: writes that are past by then are live no more.
    pub fn advance(&mut self, now: u64)
        requires later { self.old.at ≤ now }
        requires high { now ≤ MOMENT_MAX }
        ensures { self.new ≡ record self.old { at = now } }
    {
        let reach = self.reach;
        if now <= self.sums.oldest.saturating_add(reach) {
            self.moment = now;
            return;
        }
        let rules = self.rules();
        expire_due(
            &mut self.accounts,
            &mut self.expiries,
            &mut self.sums,
            &rules,
            reach,
            now,
        );
        self.sums.oldest = now.saturating_sub(reach);
        self.moment = now;
    }

    /// Writes one more entry of this moment at the end, and keeps the accounts.
    pub fn enter(&mut self, entry: Entry)
        requires room { length self.old.book.entries < self.old.book.site.room }
        requires life { calls_of self.old.book < CALLS_MAX }
        requires next { IsNext self.old.book.site (begin_of self.old.book) self.old.book.entries entry.call }
        requires answer { EachBefore self.old.book
            (λ before. IsAnswer (book_behind before self.old.book) (before ++ self.old.book.entries) entry) }
        requires now { moment entry.call ≡ self.old.at }
        ensures { self.new ≡ record { book = with_one self.old.book entry; at = self.old.at } }
    {
        let rules = self.rules();
        follow_queue(
            &mut self.expiries,
            &self.accounts,
            &rules,
            self.reach,
            &entry,
        );
        follow(
            &mut self.accounts,
            &mut self.claims,
            &mut self.sums,
            &rules,
            &entry,
        );
        let cap = cap_after(self.cap, &entry);
        self.sums.under(self.cap, cap);
        self.sums.mark(&entry);
        self.cap = cap;
        self.stopped = is_stopped_after(self.stopped, &entry.call);
        self.book.push(entry);
    }

    /// Ends the book, hands it out, and goes on with an empty one that begins with what the life leaves.
    /// After a refusal all is as before.
    pub fn roll(&mut self, alloc: Global) -> Result<Book, RollFault>
        requires { IsAtLast self.old }
        ensures ended { IfOk result (λ ended. ended ≡ self.old.book) }
        ensures lives { OnOk result (EachBefore self.old.book
            (λ before. Rolls before self.old.book self.new.book)) }
        ensures unfilled { OnOk result (¬ IsFullLife self.old.book) }
        ensures refused { IfErr result (λ fault.
            (IsFullLife self.old.book × (fault ≡ RollFault.LifeFull (calls_of self.old.book)))
            ⊎ ((¬ IsFullLife self.old.book) × (fault ≡ RollFault.NoMemory))) }
        ensures unchanged { OnErr result (self.new ≡ self.old) }
        ensures kept { IsAtLast self.new }
    {
        let next = next_book(alloc, self)?;
        Ok(mem::replace(&mut self.book, next))
    }

    /// The book.
    pub fn book(&self) -> &Book
        ensures book { result.now ≡ self.now.book }
        ensures kept { IsBookPart self.now.book }
    {
        &self.book
    }

    /// How many inverters the site has.
    pub fn inverters(&self) -> u8
        ensures count { result ≡ inverters self.now.book.site }
        ensures of_life { IsBookPart self.now.book }
    {
        self.accounts.len() as u8
    }

    /// The last moment at which earlier lives may still act, in ms.
    pub fn silent_until(&self) -> u64
        ensures { EachBook self.now.book (λ whole. result ≡ silent_until whole) }
    {
        self.book.start + self.reach
    }

    /// The cap in force, in mW.
    pub fn cap(&self) -> u64
        ensures cap { EachBook self.now.book (λ whole. result ≡ cap_of whole) }
        ensures high { result ≤ 10 ^ 14 }
    {
        self.cap
    }

    /// The last Cap of the life that was set.
    pub fn mark(&self) -> Option<CapMark>
        ensures { EachBook self.now.book (λ whole. result ≡ mark_of whole) }
    {
        self.sums.set
    }

    /// What the books up to this one leave of all inverters, by their numbers.
    pub fn units(&self, alloc: Global) -> Result<Vec<UnitCarry>, NoMemory>
        requires { IsAtLast self.now }
        ensures { IfOk result (λ units. EachBook self.now.book (λ whole. units.items ≡ units_of whole)) }
    {
        units_by(alloc, &self.accounts)
    }

    /// The moment of the accounts, in ms.
    pub fn now(&self) -> u64
        ensures now { result ≡ self.now.at }
        ensures high { self.now.at ≤ MOMENT_MAX }
    {
        self.moment
    }

    /// What is reserved in all, in mW.
    pub fn total(&self) -> u64
        ensures { EachBook self.now.book (λ whole. result ≡ sums.total_at whole self.now.at) }
    {
        self.sums.total
    }

    /// The account of the inverter.
    pub fn account(&self, inverter: u8) -> &Account
        requires { inverter < inverters self.now.book.site }
        ensures account { EachBook self.now.book (λ whole. IsAccount whole self.now.at inverter result.now) }
        ensures unit { slice_get self.now.book.site.units inverter ≡ Some result.now.unit }
        ensures links { calls_of self.now.book < CALLS_MAX → result.now.link < 4294967295 }
    {
        &self.accounts[usize::from(inverter)]
    }

    /// Whether a Stop stands in the book.
    pub fn is_stopped(&self) -> bool
        ensures { EachBook self.now.book (λ whole. result ≡ is_stopped whole) }
    {
        self.stopped
    }
}

/// The cap in force after one more entry, in mW.
fn cap_after(cap: u64, entry: &Entry) -> u64
    ensures { result ≡ (if sets_cap entry.now then cap_by cap entry.now.call else cap) }
{
    match (&entry.call, &entry.reply) {
        (Call::Cap { mw, .. }, Reply::CapSet { .. }) => *mw,
        _ => cap,
    }
}

/// Whether the plant is to stop after one more call.
fn is_stopped_after(stopped: bool, call: &Call) -> bool
    ensures { result ≡ (stopped || stops call.now) }
{
    stopped || matches!(call, Call::Stop { .. })
}
