//! What a plant tells at the last moment of its book, without a call.
ghost use Rattle.std.specs.Prelude.{◌≡◌, ◌<◌, ◌≤◌, length, Some, None, MatchOption, slice_get};
ghost use Rattle.plant_book.specs.Site.{inverters};
ghost use Rattle.plant_book.specs.Answer.{goal_raw, is_stopped};
ghost use Rattle.plant_book.specs.Reserved as sums;
ghost use Rattle.plant_book.specs.Caps.{cap_of};
ghost use Rattle.plant_book.specs.Ceiling.{ceiling};
ghost use Rattle.plant_book.specs.Part.{last_moment_of};
ghost use Rattle.plant_book.specs.Carry.{EachBook};
ghost use Rattle.plant_ledger.specs.Plant.{IsKept};

use super::{Goal, Plant};
use plant_book::{Book, Carry, Entry, Site};

impl Plant {
    /// What the books of the life before this one left, or nothing where it is the first.
    pub fn carry(&self) -> Option<&Carry>
        ensures { MatchOption result (self.now.carry ≡ None) (λ carry. self.now.carry ≡ Some carry.now) }
    {
        let book = self.ledger.book();
        book.carry.as_ref()
    }

    /// What the inverter may aim at, at the last moment.
    pub fn goal(&self, inverter: u8) -> Goal
        requires { inverter < inverters self.now.site }
        ensures raw { EachBook self.now (λ whole. result.raw ≡ goal_raw whole inverter) }
        ensures reserved { EachBook self.now (λ whole. result.reserved ≡ sums.reserved whole inverter) }
        ensures stop { EachBook self.now (λ whole. result.stop ≡ is_stopped whole) }
    {
        Goal {
            raw: self.ledger.goal(inverter),
            reserved: self.reserved(inverter),
            stop: self.ledger.is_stopped(),
        }
    }

    /// What is reserved for the inverter at the last moment, in mW.
    pub fn reserved(&self, inverter: u8) -> u64
        requires { inverter < inverters self.now.site }
        ensures { EachBook self.now (λ whole. result ≡ sums.reserved whole inverter) }
    {
        self.ledger.reserved(inverter)
    }

    /// What is reserved in all at the last moment, in mW.
    pub fn total(&self) -> u64
        ensures { EachBook self.now (λ whole. result ≡ sums.total whole) }
    {
        self.ledger.total()
    }

    /// The cap in force, in mW: that of the last Cap answered CapSet, or the site's.
    pub fn cap(&self) -> u64
        ensures { EachBook self.now (λ whole. result ≡ cap_of whole) }
    {
        self.ledger.cap()
    }

    /// What all limits together stay under at the last moment, in mW, also right behind a lowering.
    pub fn ceiling(&self) -> u64
        ensures { EachBook self.now (λ whole. result ≡ ceiling whole) }
    {
        self.ledger.ceiling()
    }

    /// What of the cap in force isn't reserved at the last moment, in mW: 0 where more than it is reserved.
    pub fn unreserved(&self) -> u64
        ensures { EachBook self.now (λ whole. result ≡ sums.unreserved whole) }
    {
        self.ledger.unreserved()
    }

    /// The last moment of the life: that of its last call, or the start where there is none, in ms.
    pub fn latest(&self) -> u64
        ensures moment { result ≡ last_moment_of self.now }
        ensures of_life { EachBook self.now (λ whole. result ≡ sums.now_of whole) }
        ensures kept { IsKept self.now }
    {
        self.ledger.now()
    }

    /// How many calls were entered in the book.
    pub fn calls(&self) -> u32
        ensures calls { result ≡ length self.now.entries }
        ensures within { result ≤ self.now.site.room }
        ensures kept { IsKept self.now }
    {
        let book = self.ledger.book();
        book.entries.len() as u32
    }

    /// The entry at a place, counted from 0.
    pub fn entry(&self, place: u32) -> Entry
        requires { place < length self.now.entries }
        ensures { slice_get self.now.entries place ≡ Some result }
    {
        let book = self.ledger.book();
        book.entries[place as usize]
    }

    /// The site of the book.
    pub fn site(&self) -> &Site
        ensures { result.now ≡ self.now.site }
    {
        self.ledger.site()
    }

    /// The book, with its site, its start, its carry and its entries.
    pub fn book(&self) -> &Book
        ensures book { result.now ≡ self.now }
        ensures kept { IsKept self.now }
    {
        self.ledger.book()
    }

    /// The moment at which the life begins, in ms.
    pub fn start(&self) -> u64
        ensures { result ≡ self.now.start }
    {
        let book = self.ledger.book();
        book.start
    }
}
