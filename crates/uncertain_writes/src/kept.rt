//! One write as the list keeps it.
ghost use Rattle.std.specs.Prelude.{◌≡◌, ◌≤◌, Some};
ghost use Rattle.plant_book.specs.Writes.{settles, frees};
ghost use Rattle.uncertain_writes.specs.Live.{moment_max, is_past, has_numbers};

use limiter_num::Rules;
use plant_book::{MOMENT_MAX, Read, Write};
use revert_timers::{last_act, last_moment};
use std::marker::Model;

const _: () = prove!(MOMENT_MAX == 1_000_000_000_000_000);

/// A write as it stands in a list, with a moment in ms that is at most the greatest. Contracts see the write.
#[derive(Clone, Copy, Debug, PartialEq, Eq)]
pub struct Kept {
    write: Write,
}

impl Model for Kept {
    ghost use Rattle.std.specs.Prelude.{◌≤◌};
    ghost use Rattle.plant_book.specs.declared.call.Write.{Write};
    ghost use Rattle.uncertain_writes.specs.Live.{moment_max};

    ghost Value = { Write };

    ghost view = { λ k. k.write };

    ghost invariant = { λ k. k.write.at ≤ moment_max };

    ghost inverse = { λ w. record { write = w } };
}

impl Default for Kept {
    /// What stands in a place of the list that isn't used.
    fn default() -> Kept {
        Kept {
            write: Write {
                inverter: 0,
                link: 0,
                number: 0,
                at: 0,
                raw: 0,
            },
        }
    }
}

impl Kept {
    /// A write whose moment is at most the greatest.
    pub fn new(write: Write) -> Kept
        requires { write.at ≤ moment_max }
        ensures { result ≡ write }
    {
        Kept { write }
    }

    /// Whether the write is past its last moment.
    pub fn is_past(&self, rules: &Rules, now: u64) -> bool
        ensures { result ≡ is_past rules.now now self.now }
    {
        last_moment(rules, self.write.at) < now
    }

    /// Whether the read frees the write where it showed this raw percentage.
    pub fn is_freed_by(&self, rules: &Rules, read: &Read, raw: u16) -> bool
        ensures { result ≡ frees rules.now (Some read.now) raw self.now }
    {
        self.is_settled_by(rules, read) && self.write.raw != raw
    }

    /// Whether the write can act no more once the read was looked at: the read came behind it on its own link, or
    /// behind the last moment at which it may act.
    fn is_settled_by(&self, rules: &Rules, read: &Read) -> bool
        ensures { result ≡ settles rules.now read.now self.now }
    {
        self.write.inverter == read.inverter
            && (self.write.link == read.link && self.write.number < read.number
                || last_act(rules, self.write.at) < read.at)
    }

    /// Whether the write has this link and number.
    pub fn has_numbers(&self, link: u32, number: u16) -> bool
        ensures { result ≡ has_numbers link number self.now }
    {
        self.write.link == link && self.write.number == number
    }

    /// The write.
    pub fn write(&self) -> Write
        ensures { result ≡ self.now }
    {
        self.write
    }

    /// The moment of the write, in ms.
    pub fn at(&self) -> u64
        ensures { result ≡ self.now.at }
    {
        self.write.at
    }

    /// The raw percentage of the write.
    pub fn raw(&self) -> u16
        ensures { result ≡ self.now.raw }
    {
        self.write.raw
    }
}
