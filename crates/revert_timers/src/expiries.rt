//! The queue of writes in the order of their last moments.
ghost use Rattle.std.specs.Prelude.{◌≡◌, ◌≤◌, ◌<◌, [], ◌∷◌, ◌++◌, length, IfOk, None};
ghost use Rattle.std.specs.List.{All, list_any, position};
ghost use Rattle.std.specs.Option.{option_to_list};
ghost use Rattle.revert_timers.specs.Expiries.{expiries_max, IsRising, has_numbers, without_first, first_past};

use limiter_num::NoMemory;
use std::alloc::Global;
use std::collections::VecDeque;
use std::marker::Model;

/// The most entries of a queue: 32 live writes of each of 64 inverters.
pub const EXPIRIES_MAX: usize = 2_048;

const _: () = prove!(EXPIRIES_MAX == 2_048);

/// A write that may be held until its last moment.
#[derive(Clone, Copy, Debug, PartialEq, Eq)]
pub struct Due {
    /// The last moment at which the write may be held, in ms.
    pub last: u64,
    /// Which inverter it is for.
    pub inverter: u8,
    /// The number of the link that it was granted on.
    pub link: u32,
    /// Its number among the requests of that link.
    pub number: u16,
}

/// Writes in rising order of their last moments, at most 2,048. Contracts see the list. It takes its memory
/// when it is made, and none later.
#[derive(Debug, Drop)]
pub struct Expiries {
    entries: VecDeque<Due>,
}

impl Model for Expiries {
    ghost use Rattle.std.specs.Prelude.{List};
    ghost use Rattle.revert_timers.specs.declared.expiries.Due.{Due};

    ghost Value = { List Due };

    ghost use Rattle.std.specs.VecDeque.{deque_capacity};
    ghost use Rattle.revert_timers.specs.Expiries.{IsKept};

    ghost view = { λ e. e.entries.items };

    ghost invariant = { λ e. IsKept e.entries.items (deque_capacity e.entries) };
}

impl Due {
    /// Whether the write is this one of an inverter.
    fn has_numbers(&self, inverter: u8, link: u32, number: u16) -> bool
        ensures { result ≡ has_numbers inverter link number self.now }
    {
        self.inverter == inverter && self.link == link && self.number == number
    }
}

impl Expiries {
    /// A queue with no entry, and memory for 2,048.
    pub fn new(alloc: Global) -> Result<Expiries, NoMemory>
        ensures { IfOk result (λ expiries. expiries ≡ []) }
    {
        match VecDeque::with_capacity(alloc, EXPIRIES_MAX) {
            Ok(entries) => Ok(Expiries { entries }),
            Err(_) => Err(NoMemory),
        }
    }

    /// Puts a write behind the others, none of which has a later last moment.
    pub fn add(&mut self, due: Due)
        requires room { length self.old < expiries_max }
        requires latest { All (λ other. other.last ≤ due.last) self.old }
        ensures added { self.new ≡ self.old ++ due ∷ [] }
        ensures rising { IsRising self.new }
    {
        self.entries.push_back_reserved(due);
    }

    /// How many writes the queue has.
    pub fn len(&self) -> usize
        ensures { result ≡ length self.now }
    {
        self.entries.len()
    }

    /// Takes out the write of these numbers, and answers whether it was there. Of several the first goes, which
    /// has the earliest last moment.
    pub fn remove(&mut self, inverter: u8, link: u32, number: u16) -> bool
        ensures held { result ≡ list_any (has_numbers inverter link number) self.old }
        ensures left { self.new ≡ without_first (has_numbers inverter link number) self.old }
        ensures rising { IsRising self.new }
    {
        match place_of(&self.entries, inverter, link, number) {
            Some(place) => {
                let _taken = self.entries.remove(place);
                true
            }
            None => false,
        }
    }

    /// Takes out the first write, where its last moment is below now, in ms. None is taken exactly where no write
    /// is past.
    pub fn pop_past(&mut self, now: u64) -> Option<Due>
        ensures popped { result ≡ first_past now self.old }
        ensures left { self.old ≡ option_to_list result ++ self.new }
        ensures all { result ≡ None → All (λ due. now ≤ due.last) self.new }
        ensures rising { IsRising self.new }
    {
        if self.entries.front()?.last >= now {
            return None;
        }
        self.entries.pop_front()
    }
}

/// The place of the first write of these numbers.
fn place_of(entries: &VecDeque<Due>, inverter: u8, link: u32, number: u16) -> Option<usize>
    ensures { result ≡ position (has_numbers inverter link number) entries.now.items }
{
    entries
        .iter()
        .position(|due| due.has_numbers(inverter, link, number))
}
