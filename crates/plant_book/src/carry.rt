use crate::call::{LIVE_MAX, Read, Write};
use arrayvec::ArrayVec;
use std::marker::Model;

/// How many calls a life has at most, over all its books.
pub const CALLS_MAX: u32 = 4_294_967_295;

const _: () = prove!(CALLS_MAX == 4_294_967_295);

/// The last Cap of a life that was set.
#[derive(Clone, Copy, Debug, PartialEq, Eq)]
pub struct CapMark {
    /// Its moment, in ms.
    pub at: u64,
    /// What was reserved in all right after it, in mW.
    pub was: u64,
}

/// What a book leaves of an inverter to the next book of its life.
#[derive(Clone, Debug, Drop)]
pub struct UnitCarry {
    /// The number of its last link, or 0.
    pub link: u32,
    /// How many requests it had since its last Link.
    pub sent: u16,
    /// Its read that was not seen yet.
    pub pending: Option<Read>,
    /// Whether its last read-back was strange.
    pub strange: bool,
    /// Its wish, in mW.
    pub wish: u64,
    /// Its writes that are live at the last moment, in the order of their grants.
    pub writes: ArrayVec<Write, LIVE_MAX>,
}

impl Model for UnitCarry {
    ghost use Rattle.plant_book.specs.Part.{UnitRecord};

    ghost Value = { UnitRecord };

    ghost view = { λ u. record {
      link = u.link;
      sent = u.sent;
      pending = u.pending;
      strange = u.strange;
      wish = u.wish;
      writes = u.writes.items;
    } };
}

/// What a book leaves to the next book of its life, so that every reply is still that of the whole life.
#[derive(Debug, Drop)]
pub struct Carry {
    /// The last moment, in ms.
    pub last: u64,
    /// How many calls the life had so far.
    pub calls: u32,
    /// The cap, in mW.
    pub cap: u64,
    /// The last Cap that was set, if one was.
    pub set: Option<CapMark>,
    /// Whether the plant is to stop.
    pub stop: bool,
    /// What is left of each inverter, by their numbers.
    pub units: Vec<UnitCarry>,
}

impl Model for Carry {
    ghost use Rattle.plant_book.specs.Part.{CarryRecord};

    ghost Value = { CarryRecord };

    ghost view = { λ c. record {
      last = c.last;
      calls = c.calls;
      cap = c.cap;
      set = c.set;
      stop = c.stop;
      units = c.units.items;
    } };
}
