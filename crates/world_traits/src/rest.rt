ghost use Rattle.std.specs.Prelude.{◌≡◌, ◌↔◌, [], ◌++◌, IsTrue, length, take, drop, min};

use std::marker::Model;

/// Bytes that are given out in parts, from the front. Contracts see those that are left.
#[derive(Debug, Drop)]
pub struct Rest {
    bytes: Vec<u8>,
    place: usize,
}

impl Model for Rest {
    ghost use Rattle.std.specs.Prelude.{ℕ, ◌≤◌, List, vec_len, drop};

    ghost Value = { List ℕ };

    ghost view = { λ r. drop r.place r.bytes.items };

    ghost invariant = { λ r. r.place ≤ vec_len r.bytes };
}

impl Rest {
    /// All of the bytes.
    pub fn new(bytes: Vec<u8>) -> Self
        ensures { result ≡ bytes.items }
    {
        Rest { bytes, place: 0 }
    }

    /// Whether no byte is left.
    pub fn is_empty(&self) -> bool
        ensures { IsTrue result ↔ (self.now ≡ []) }
    {
        self.bytes[self.place..].is_empty()
    }

    /// Copies as many bytes as are left and find room to the front of `into`, and tells how many. They are left no more.
    pub fn give(&mut self, into: &mut [u8]) -> usize
        ensures count { result ≡ min (length self.old) (length into.old) }
        ensures front { take result into.new ≡ take result self.old }
        ensures whole { into.new ≡ take result self.old ++ drop result into.old }
        ensures left { self.new ≡ drop result self.old }
    {
        let count = copy_front(&self.bytes[self.place..], into);
        self.place += count;
        count
    }
}

/// Copies as many bytes as both have to the front of `into`, and tells how many.
pub fn copy_front(from: &[u8], into: &mut [u8]) -> usize
    ensures count { result ≡ min (length from.now) (length into.old) }
    ensures front { take result into.new ≡ take result from.now }
    ensures whole { into.new ≡ take result from.now ++ drop result into.old }
{
    let count = from.len().min(into.len());
    into[..count].copy_from_slice(&from[..count]);
    count
}
