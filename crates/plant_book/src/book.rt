ghost use Rattle.std.specs.Prelude.{◌≡◌, ◌<◌, ◌≤◌, ◌*◌, ◌^◌, Some, IfOk, List, [], ◌∷◌, ◌++◌, length, slice_get};
ghost use Rattle.plant_book.specs.Site.{inverters, floors, mw_at, floor_at, floor_raw_at, full_at, rated_at, raw_at};
ghost use Rattle.plant_book.specs.Calls.{latest};
ghost use Rattle.plant_book.specs.Part.{last_moment_of, begin_of};
ghost use Rattle.plant_book.specs.Answer.{silent_until};
ghost use Rattle.plant_book.specs.Carry.{IsBookPart, EachBook};

use crate::call::{Call, Reply};
use crate::carry::Carry;
use crate::site::{Site, Unit};
use limiter_num::{NoMemory, Rules};
use share_policy::Policy;
use std::alloc::Global;
use std::marker::Model;

/// A call as it was entered, with its reply.
#[derive(Clone, Copy, Debug, PartialEq, Eq)]
pub struct Entry {
    /// The call, with the moment at which it was entered.
    pub call: Call,
    /// What the ledger answered.
    pub reply: Reply,
}

/// How many bytes an entry takes at most.
pub const ENTRY_BYTES_MAX: usize = 80;

const _: () = prove!(ENTRY_BYTES_MAX == 80);

const _: () = prove!(size_of::<Entry>() <= ENTRY_BYTES_MAX);

/// A site, the moment in ms at which its book begins, and the calls with their replies in order. A book has
/// memory for its whole room from the start on, so that one more entry takes none.
#[derive(Debug, Drop)]
pub struct Book {
    /// The site of the book.
    pub site: Site,
    /// The moment at which the life begins, in ms.
    pub start: u64,
    /// What the books before it left, or nothing for the first book of a life.
    pub carry: Option<Carry>,
    /// The entries in order.
    pub entries: Vec<Entry>,
}

impl Model for Book {
    ghost use Rattle.std.specs.Prelude.{◌≤◌, vec_capacity};
    ghost use Rattle.plant_book.specs.Part.{PartRecord};

    ghost Value = { PartRecord };

    ghost view = { λ b. record {
      site = b.site;
      start = b.start;
      carry = b.carry;
      entries = b.entries.items;
    } };

    ghost invariant = { λ b. b.site.room ≤ vec_capacity b.entries };
}

impl Book {
    /// A book with no entry, and the memory for its whole room. It begins with what the books before it left,
    /// if it isn't the first of its life.
    pub fn new(
        alloc: Global,
        site: Site,
        start: u64,
        carry: Option<Carry>,
    ) -> Result<Book, NoMemory>
        ensures { IfOk result
            (λ book. book ≡ record { site = site; start = start; carry = carry; entries = [] }) }
    {
        match Vec::with_capacity(alloc, site.room as usize) {
            Ok(entries) => Ok(Book {
                site,
                start,
                carry,
                entries,
            }),
            Err(_) => Err(NoMemory),
        }
    }

    /// The moment of the last entry, or that at which the book begins where there is none, in ms.
    pub fn latest(&self) -> u64
        ensures { result ≡ last_moment_of self.now }
    {
        latest(self.begin(), &self.entries)
    }

    /// The moment at which the book begins: the last one of those before it, or the start of the life, in ms.
    fn begin(&self) -> u64
        ensures { result ≡ begin_of self.now }
    {
        match &self.carry {
            Some(carry) => carry.last,
            None => self.start,
        }
    }

    /// Writes one more entry at the end.
    pub fn push(&mut self, entry: Entry)
        requires { length self.old.entries < self.old.site.room }
        ensures { self.new ≡ record self.old { entries = self.old.entries ++ entry ∷ [] } }
    {
        self.entries.push_reserved(entry);
    }

    /// The entries in order.
    pub(crate) fn entries(&self) -> &[Entry]
        ensures { result.now ≡ self.now.entries }
    {
        &self.entries
    }

    /// How many inverters the site has.
    pub(crate) fn inverters(&self) -> usize
        ensures { result ≡ inverters self.now.site }
    {
        let site = &self.site;
        site.units.len()
    }

    /// The inverter of this number.
    pub(crate) fn unit(&self, inverter: u8) -> &Unit
        requires { inverter < inverters self.now.site }
        ensures { slice_get self.now.site.units inverter ≡ Some result.now }
    {
        let site = &self.site;
        &site.units[usize::from(inverter)]
    }

    /// The rules of the site.
    pub(crate) fn rules(&self) -> Rules
        ensures { result ≡ self.now.site.rules }
    {
        let site = &self.site;
        site.rules
    }

    /// The cap of the site, in mW.
    pub(crate) fn site_cap(&self) -> u64
        ensures { result ≡ self.now.site.cap }
    {
        let site = &self.site;
        site.cap
    }

    /// The milliwatts of all floors.
    pub(crate) fn floors(&self) -> u64
        requires { IsBookPart self.now }
        ensures { result ≡ floors self.now.site }
    {
        let site = &self.site;
        site.floors()
    }

    /// The last moment at which earlier lives may still act, in ms.
    pub(crate) fn silent_until(&self) -> u64
        requires { IsBookPart self.now }
        ensures { EachBook self.now (λ whole. result ≡ silent_until whole) }
    {
        self.start + self.rules().reach()
    }

    /// The policy of the site.
    pub(crate) fn policy(&self) -> Policy
        ensures { result ≡ self.now.site.policy }
    {
        let site = &self.site;
        site.policy
    }

    /// The raw percentage of the inverter's floor.
    pub(crate) fn floor_raw(&self, inverter: u8) -> u16
        requires { inverter < inverters self.now.site }
        ensures { result ≡ floor_raw_at self.now.site inverter }
    {
        self.unit(inverter).floor
    }

    /// The milliwatts of the inverter's floor.
    pub(crate) fn floor(&self, inverter: u8) -> u64
        requires { inverter < inverters self.now.site }
        ensures { result ≡ floor_at self.now.site inverter }
    {
        let unit = self.unit(inverter);
        unit.rating.mw(unit.floor)
    }

    /// The milliwatts of a raw percentage at the inverter.
    pub(crate) fn mw(&self, inverter: u8, raw: u16) -> u64
        requires { inverter < inverters self.now.site }
        ensures watts { result ≡ mw_at self.now.site inverter raw }
        ensures below { result ≤ 65535 * 10 ^ 12 }
    {
        self.unit(inverter).rating.mw(raw)
    }

    /// The inverter's greatest raw percentage.
    pub(crate) fn full(&self, inverter: u8) -> u16
        requires { inverter < inverters self.now.site }
        ensures { result ≡ full_at self.now.site inverter }
    {
        self.unit(inverter).rating.full()
    }

    /// The milliwatts of the inverter's greatest raw percentage.
    pub(crate) fn rated(&self, inverter: u8) -> u64
        requires { inverter < inverters self.now.site }
        ensures { result ≡ rated_at self.now.site inverter }
    {
        let rating = &self.unit(inverter).rating;
        rating.mw(rating.full())
    }

    /// The inverter's greatest raw percentage of at most so many milliwatts.
    pub(crate) fn raw_at_most(&self, inverter: u8, mw: u64) -> u16
        requires { inverter < inverters self.now.site }
        ensures { result ≡ raw_at self.now.site inverter mw }
    {
        self.unit(inverter).rating.raw_at_most(mw)
    }
}

/// The moment of the last of the entries, or the start where there is none, in ms.
fn latest(start: u64, entries: &[Entry]) -> u64
    ensures { result ≡ latest start entries.now }
{
    match entries.last() {
        Some(entry) => entry.call.at(),
        None => start,
    }
}
