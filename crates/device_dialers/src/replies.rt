ghost use Rattle.std.specs.Prelude.{◌≡◌, ◌↔◌, ◌++◌, ◌+◌, ◌≤◌, [], IsTrue, OnOk, drop, length, min, take};

use limiter_num::NoMemory;
use std::alloc::Global;
use std::marker::Model;
use world_traits::copy_front;

/// Reply bytes that wait for a receive. Contracts see those that are left, and for how many more there is room.
#[derive(Debug, Drop)]
pub(crate) struct Replies {
    bytes: Vec<u8>,
    place: usize,
}

impl Model for Replies {
    ghost use Rattle.std.specs.Prelude.{◌-◌, ◌≤◌, drop, vec_len};
    ghost use Rattle.std.specs.Vec.{vec_capacity};
    ghost use Rattle.device_dialers.specs.Device.{Waiting};

    ghost Value = { Waiting };

    ghost view = { λ r. record { left = drop r.place r.bytes.items; room = vec_capacity r.bytes - vec_len r.bytes } };

    ghost invariant = { λ r. r.place ≤ vec_len r.bytes };
}

impl Replies {
    /// No bytes.
    pub(crate) fn new(alloc: Global) -> Self
        ensures { result.left ≡ [] }
    {
        Replies {
            bytes: Vec::new(alloc),
            place: 0,
        }
    }

    /// Whether no byte is left.
    pub(crate) fn is_empty(&self) -> bool
        ensures { IsTrue result ↔ (self.now.left ≡ []) }
    {
        self.bytes[self.place..].is_empty()
    }

    /// Makes room for so many more bytes.
    pub(crate) fn make_room(&mut self, count: usize) -> Result<(), NoMemory>
        ensures room { OnOk result (count ≤ self.new.room) }
        ensures left { self.new.left ≡ self.old.left }
    {
        self.bytes.reserve(count).map_err(|_| NoMemory)
    }

    /// Puts bytes behind those that are left.
    pub(crate) fn add(&mut self, bytes: &[u8])
        requires { length bytes.now ≤ self.old.room }
        ensures left { self.new.left ≡ self.old.left ++ bytes.now }
        ensures room { self.old.room ≤ self.new.room + length bytes.now }
    {
        if self.bytes.extend_from_slice(bytes).is_err() {
            unreachable!()
        }
    }

    /// Copies as many bytes as are left and find room to the front of `into`, and tells how many. They are left no
    /// more.
    pub(crate) fn give(&mut self, into: &mut [u8]) -> usize
        ensures count { result ≡ min (length self.old.left) (length into.old) }
        ensures front { take result into.new ≡ take result self.old.left }
        ensures left { self.new.left ≡ drop result self.old.left }
    {
        let count = copy_front(&self.bytes[self.place..], into);
        self.place += count;
        count
    }
}
