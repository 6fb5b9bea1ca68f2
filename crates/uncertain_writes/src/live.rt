//! The list of live writes.
ghost use Rattle.std.specs.Prelude.{◌≡◌, ◌-◌, ◌*◌, ◌^◌, ◌≤◌, ◌<◌, ◌↔◌, IsTrue, nat_le, [], ◌∷◌, ◌++◌, Some};
ghost use Rattle.std.specs.Prelude.{length, drop, filter, fold, map, max, IsOk, OnOk, OnErr, IfErr};
ghost use Rattle.std.specs.List.{All, Any, list_any};
ghost use Rattle.limiter_num.specs.Rating.{mw};
ghost use Rattle.plant_book.specs.declared.call.Write.{Write as Written};
ghost use Rattle.plant_book.specs.Writes.{frees};
ghost use Rattle.uncertain_writes.specs.Live.{live_max, moment_max, is_past, has_numbers};
ghost use Rattle.uncertain_writes.specs.Live.{has_raw, without, most_raw, AreInOrder};

use crate::kept::Kept;
use crate::places::{Places, holds};
use crate::rising::{is_first_past_alone, oldest, stays_rising};
use arrayvec::ArrayVec;
use limiter_num::{Rating, Rules};
use plant_book::{LIVE_MAX, Read, Write};
use std::marker::Model;

/// The live writes of one inverter in the order of their grants, at most 32 of them. Contracts see the list.
#[derive(Debug, Drop)]
pub struct Live {
    /// The greatest raw percentage of the writes, or 0 where there is none.
    most: u16,
    /// Whether it is known that no write is older than one before it.
    rising: bool,
    writes: Places,
}

impl Model for Live {
    ghost use Rattle.std.specs.Prelude.{List};
    ghost use Rattle.plant_book.specs.declared.call.Write.{Write};
    ghost use Rattle.uncertain_writes.specs.Live.{IsKept};

    ghost Value = { List Write };

    ghost view = { λ live. live.writes };

    ghost invariant = { λ live. IsKept live.writes live.most live.rising };
}

impl Live {
    /// No live write.
    pub fn new() -> Live
        ensures { result ≡ [] }
    {
        Live {
            most: 0,
            rising: true,
            writes: Places::new(),
        }
    }

    /// Puts a write behind the others. A list of 32 is full: it stays as it is, and the write is handed back.
    pub fn add(&mut self, write: Write) -> Result<(), Write>
        requires { write.at ≤ moment_max }
        ensures room { IsOk result ↔ (length self.old < live_max) }
        ensures full { OnErr result (length self.old ≡ live_max) }
        ensures added { OnOk result (self.new ≡ self.old ++ write ∷ []) }
        ensures handed_back { IfErr result (λ back. (back ≡ write) × (self.new ≡ self.old)) }
    {
        if self.writes.is_full() {
            return Err(write);
        }
        self.rising = stays_rising(self.writes.kept(), self.rising, write.at);
        self.most = self.most.max(write.raw);
        self.writes.push(write);
        Ok(())
    }

    /// Drops the writes whose last moment is below now, and answers how many they were. `now` is in ms.
    pub fn expire(&mut self, rules: &Rules, now: u64) -> u8
        ensures left { self.new ≡ without (is_past rules.now now) self.old }
        ensures count { result ≡ length (filter (is_past rules.now now) self.old) }
    {
        if is_first_past_alone(self.writes.kept(), self.rising, rules, now) {
            self.drop_first();
            return 1;
        }
        let count = self.writes.drop_past(rules, now);
        self.most = most_of(self.writes.kept());
        count
    }

    /// Drops the first write.
    fn drop_first(&mut self)
        requires { 0 < length self.old }
        ensures { self.new ≡ drop 1 self.old }
    {
        let kept = self.writes.kept();
        let raw = kept[0].raw();
        self.writes.drop_first();
        if raw == self.most {
            self.most = most_of(self.writes.kept());
        }
    }

    /// Drops the writes that the read settles and whose raw percentage isn't the one that it showed, and answers how
    /// many they were.
    pub fn seen(&mut self, rules: &Rules, read: &Read, raw: u16) -> u8
        ensures left { self.new ≡ without (frees rules.now (Some read.now) raw) self.old }
        ensures count { result ≡ length (filter (frees rules.now (Some read.now) raw) self.old) }
    {
        let count = self.writes.drop_freed(rules, read, raw);
        self.most = most_of(self.writes.kept());
        count
    }

    /// Drops the write of this link and number, which wasn't sent and never will be, and answers whether it was there.
    pub fn drop_unsent(&mut self, link: u32, number: u16) -> bool
        ensures left { self.new ≡ without (has_numbers link number) self.old }
        ensures held { result ≡ list_any (has_numbers link number) self.old }
    {
        let held = self.writes.drop_numbered(link, number);
        self.most = most_of(self.writes.kept());
        held
    }

    /// What is left of the list where the read showed this raw percentage.
    pub fn left_by(&self, rules: &Rules, read: &Read, raw: u16) -> Live
        ensures { result ≡ without (frees rules.now (Some read.now) raw) self.now }
    {
        let writes = self.writes.left_by(rules, read, raw);
        Live {
            most: most_of(writes.kept()),
            rising: self.rising,
            writes,
        }
    }

    /// How many writes the read frees where it showed this raw percentage.
    pub fn freed(&self, rules: &Rules, read: &Read, raw: u16) -> u8
        ensures { result ≡ length (filter (frees rules.now (Some read.now) raw) self.now) }
    {
        freed(self.writes.kept(), rules, read, raw)
    }

    /// The writes that the read frees where it showed this raw percentage.
    pub fn freed_by(&self, rules: &Rules, read: &Read, raw: u16) -> ArrayVec<Write, LIVE_MAX>
        ensures { result.items ≡ filter (frees rules.now (Some read.now) raw) self.now }
    {
        freed_by(self.writes.kept(), rules, read, raw)
    }

    /// The greatest limit in mW of the writes that are left then, or 0 where there is none.
    pub fn greatest_left(&self, rating: &Rating, rules: &Rules, read: &Read, raw: u16) -> u64
        ensures watts { result ≡ fold max 0 (map (λ write. mw rating.now write.raw)
            (without (frees rules.now (Some read.now) raw) self.now)) }
        ensures below { result ≤ 65535 * 10 ^ 12 }
    {
        greatest_left(self.writes.kept(), rating, rules, read, raw)
    }

    /// How many writes the list has.
    pub fn len(&self) -> u8
        ensures { result ≡ length self.now }
    {
        self.writes.kept().len() as u8
    }

    /// Whether the list has 32 writes.
    pub fn is_full(&self) -> bool
        ensures { result ≡ nat_le live_max (length self.now) }
    {
        self.writes.is_full()
    }

    /// Whether the list has a write of this link and number.
    pub fn holds(&self, link: u32, number: u16) -> bool
        ensures { result ≡ list_any (has_numbers link number) self.now }
    {
        holds(self.writes.kept(), link, number)
    }

    /// Whether a write of the list has this raw percentage.
    pub fn knows(&self, raw: u16) -> bool
        ensures { result ≡ list_any (has_raw raw) self.now }
    {
        knows(self.writes.kept(), raw)
    }

    /// The greatest limit of the list in mW, or 0 where there is no write.
    pub fn greatest(&self, rating: &Rating) -> u64
        ensures watts { result ≡ fold max 0 (map (λ write. mw rating.now write.raw) self.now) }
        ensures below { result ≤ 65535 * 10 ^ 12 }
    {
        rating.mw(self.most)
    }

    /// The writes.
    pub fn writes(&self) -> ArrayVec<Write, LIVE_MAX>
        ensures { result.items ≡ self.now }
    {
        writes(self.writes.kept())
    }

    /// The moment in ms of the oldest write, or `u64::MAX` where there is none.
    pub fn oldest(&self) -> u64
        ensures from { All (λ write. result ≤ write.at) self.now }
        ensures one { 0 < length self.now → Any (λ write. write.at ≡ result) self.now }
        ensures none { self.now ≡ [] → result ≡ 2 ^ 64 - 1 }
    {
        oldest(self.writes.kept(), self.rising)
    }
}

/// The greatest raw percentage of the writes, or 0 where there is none.
fn most_of(writes: &[Kept]) -> u16
    ensures { result ≡ most_raw writes.now }
{
    let mut most: u16 = 0;
    for kept in writes {
        most = most.max(kept.raw());
    }
    most
}

fn freed(writes: &[Kept], rules: &Rules, read: &Read, raw: u16) -> u8
    requires { length writes.now ≤ live_max }
    ensures { result ≡ length (filter (frees rules.now (Some read.now) raw) writes.now) }
{
    let mut count = 0;
    for kept in writes {
        if kept.is_freed_by(rules, read, raw) {
            count += 1;
        }
    }
    count
}

fn freed_by(writes: &[Kept], rules: &Rules, read: &Read, raw: u16) -> ArrayVec<Write, LIVE_MAX>
    requires { length writes.now ≤ live_max }
    ensures { result.items ≡ filter (frees rules.now (Some read.now) raw) writes.now }
{
    let mut found = ArrayVec::new();
    for kept in writes {
        if kept.is_freed_by(rules, read, raw) {
            found.push(kept.write());
        }
    }
    found
}

fn greatest_left(writes: &[Kept], rating: &Rating, rules: &Rules, read: &Read, raw: u16) -> u64
    ensures watts { result ≡ fold max 0 (map (λ write. mw rating.now write.raw)
        (without (frees rules.now (Some read.now) raw) writes.now)) }
    ensures below { result ≤ 65535 * 10 ^ 12 }
{
    let mut most: u16 = 0;
    for kept in writes {
        if !kept.is_freed_by(rules, read, raw) {
            most = most.max(kept.raw());
        }
    }
    rating.mw(most)
}

fn knows(writes: &[Kept], raw: u16) -> bool
    ensures { result ≡ list_any (has_raw raw) writes.now }
{
    writes.iter().any(|kept| kept.raw() == raw)
}

fn writes(kept: &[Kept]) -> ArrayVec<Write, LIVE_MAX>
    requires { length kept.now ≤ live_max }
    ensures { result.items ≡ kept.now }
{
    let mut writes = ArrayVec::new();
    for one in kept {
        writes.push(one.write());
    }
    writes
}
