//! The places in which an inverter's live writes lie.
ghost use Rattle.std.specs.Prelude.{◌≡◌, ◌≤◌, ◌<◌, nat_le, [], ◌∷◌, ◌++◌, Some, length, drop, filter};
ghost use Rattle.std.specs.List.{list_any};
ghost use Rattle.plant_book.specs.Writes.{frees};
ghost use Rattle.uncertain_writes.specs.Live.{live_max, moment_max, is_past, has_numbers, without};

use crate::kept::Kept;
use arrayvec::ArrayVec;
use limiter_num::Rules;
use plant_book::{LIVE_MAX, Read, Write};
use std::marker::Model;

const _: () = prove!(LIVE_MAX == 32);

/// How many places a list has. The places of writes that went from the front are used again once all were used.
const PLACES: usize = 64;

type Writes = ArrayVec<Kept, PLACES>;

/// Up to 32 writes in order. Contracts see the list.
#[derive(Debug, Drop)]
pub struct Places {
    writes: Writes,
    /// How many of the writes are gone.
    gone: usize,
}

impl Model for Places {
    ghost use Rattle.std.specs.Prelude.{List, drop};
    ghost use Rattle.plant_book.specs.declared.call.Write.{Write};
    ghost use Rattle.uncertain_writes.specs.Live.{AreFew};

    ghost Value = { List Write };

    ghost view = { λ places. drop places.gone places.writes.items };

    ghost invariant = { λ places. AreFew places.writes.items places.gone };
}

impl Places {
    /// No write.
    pub fn new() -> Places
        ensures { result ≡ [] }
    {
        Places {
            writes: Writes::new(),
            gone: 0,
        }
    }

    /// Puts a write behind the others.
    pub fn push(&mut self, write: Write)
        requires room { length self.old < live_max }
        requires high { write.at ≤ moment_max }
        ensures { self.new ≡ self.old ++ write ∷ [] }
    {
        if self.writes.is_full() {
            move_up(&mut self.writes, self.gone);
            self.gone = 0;
        }
        self.writes.push(Kept::new(write));
    }

    /// Drops the first write.
    pub fn drop_first(&mut self)
        requires { 0 < length self.old }
        ensures { self.new ≡ drop 1 self.old }
    {
        let count = self.writes.len();
        prove!(self.gone < count);
        self.gone += 1;
    }

    /// Drops the writes whose last moment is below now, and answers how many they were. `now` is in ms.
    #[tactic(auto, using(crate::proofs::Lists::without_few))]
    pub fn drop_past(&mut self, rules: &Rules, now: u64) -> u8
        ensures left { self.new ≡ without (is_past rules.now now) self.old }
        ensures count { result ≡ length (filter (is_past rules.now now) self.old) }
    {
        move_up(&mut self.writes, self.gone);
        self.gone = 0;
        drop_past(&mut self.writes, rules, now)
    }

    /// Drops the writes that the read settles and whose raw percentage isn't the one that it showed, and answers how
    /// many they were.
    #[tactic(auto, using(crate::proofs::Lists::without_few))]
    pub fn drop_freed(&mut self, rules: &Rules, read: &Read, raw: u16) -> u8
        ensures left { self.new ≡ without (frees rules.now (Some read.now) raw) self.old }
        ensures count { result ≡ length (filter (frees rules.now (Some read.now) raw) self.old) }
    {
        move_up(&mut self.writes, self.gone);
        self.gone = 0;
        drop_freed(&mut self.writes, rules, read, raw)
    }

    /// Drops the write of this link and number, and answers whether it was there.
    #[tactic(auto, using(crate::proofs::Lists::without_few))]
    pub fn drop_numbered(&mut self, link: u32, number: u16) -> bool
        ensures left { self.new ≡ without (has_numbers link number) self.old }
        ensures held { result ≡ list_any (has_numbers link number) self.old }
    {
        move_up(&mut self.writes, self.gone);
        self.gone = 0;
        drop_numbered(&mut self.writes, link, number)
    }

    /// What is left of the list where the read showed this raw percentage.
    pub fn left_by(&self, rules: &Rules, read: &Read, raw: u16) -> Places
        ensures { result ≡ without (frees rules.now (Some read.now) raw) self.now }
    {
        Places {
            writes: left_by(self.kept(), rules, read, raw),
            gone: 0,
        }
    }

    /// Whether there are 32 writes.
    pub fn is_full(&self) -> bool
        ensures full { result ≡ nat_le live_max (length self.now) }
        ensures few { length self.now ≤ live_max }
    {
        self.kept().len() >= LIVE_MAX
    }

    /// The writes.
    #[inline(always)]
    pub fn kept(&self) -> &[Kept]
        ensures writes { result.now ≡ self.now }
        ensures few { length self.now ≤ live_max }
    {
        &self.writes.as_slice()[self.gone..]
    }
}

/// Moves the writes behind those that are gone to the front.
fn move_up(writes: &mut Writes, gone: usize)
    requires within { gone ≤ length writes.old.items }
    requires few { length (drop gone writes.old.items) ≤ live_max }
    ensures { writes.new.items ≡ drop gone writes.old.items }
{
    if gone > 0 {
        *writes = copied(&writes.as_slice()[gone..]);
    }
}

fn copied(kept: &[Kept]) -> Writes
    requires { length kept.now ≤ live_max }
    ensures { result.items ≡ kept.now }
{
    let mut writes = Writes::new();
    for one in kept {
        writes.push(*one);
    }
    writes
}

fn drop_past(writes: &mut Writes, rules: &Rules, now: u64) -> u8
    ensures left { writes.new.items ≡ without (is_past rules.now now) writes.old.items }
    ensures count { result ≡ length (filter (is_past rules.now now) writes.old.items) }
{
    let before = writes.len();
    writes.retain(|kept| !kept.is_past(rules, now));
    (before - writes.len()) as u8
}

fn drop_freed(writes: &mut Writes, rules: &Rules, read: &Read, raw: u16) -> u8
    ensures left { writes.new.items ≡ without (frees rules.now (Some read.now) raw) writes.old.items }
    ensures count { result ≡ length (filter (frees rules.now (Some read.now) raw) writes.old.items) }
{
    let before = writes.len();
    writes.retain(|kept| !kept.is_freed_by(rules, read, raw));
    (before - writes.len()) as u8
}

fn drop_numbered(writes: &mut Writes, link: u32, number: u16) -> bool
    ensures left { writes.new.items ≡ without (has_numbers link number) writes.old.items }
    ensures held { result ≡ list_any (has_numbers link number) writes.old.items }
{
    let held = holds(writes.as_slice(), link, number);
    writes.retain(|kept| !kept.has_numbers(link, number));
    held
}

/// Whether a write has this link and number.
pub fn holds(writes: &[Kept], link: u32, number: u16) -> bool
    ensures { result ≡ list_any (has_numbers link number) writes.now }
{
    writes.iter().any(|kept| kept.has_numbers(link, number))
}

fn left_by(writes: &[Kept], rules: &Rules, read: &Read, raw: u16) -> Writes
    requires { length writes.now ≤ live_max }
    ensures { result.items ≡ without (frees rules.now (Some read.now) raw) writes.now }
{
    let mut left = Writes::new();
    for write in writes {
        if !write.is_freed_by(rules, read, raw) {
            left.push(*write);
        }
    }
    left
}
