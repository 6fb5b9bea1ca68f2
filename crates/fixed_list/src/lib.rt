//! A short list that lies in the value itself, and takes no memory.
//!
//! The bytes of a protocol data unit and the registers of one read or write (`Pdu` and `Regs` of
//! `modbus_pdu`) and the bytes of a frame (`FrameBytes` of `mbap_frames`) are such lists. Contracts see a
//! `FixedList` as the list of its elements. It is `Clone` and not `Copy`, as the vector of fixed capacity
//! that it is kept in; a clone takes no memory where those of its elements take none.
#![tactic(auto)]

ghost use Rattle.std.specs.Prelude.{◌≡◌, ℕ, slice_index_or, ◌+◌, ◌≤◌, ◌<◌, ◌==◌, ◌++◌, ◌∷◌, [], length};
ghost use Rattle.std.specs.List.{AllZip};

use arrayvec::ArrayVec;
use std::alloc::AllocError;
use std::marker::Model;

/// A list of at most `CAP` elements, which lie in the value itself: it takes no memory.
#[derive(Debug, PartialEq, Eq, Drop)]
pub struct FixedList<T, const CAP: usize> {
    cells: ArrayVec<T, CAP>,
}

impl<T, const CAP: usize> Model for FixedList<T, CAP> {
    ghost use Rattle.std.specs.Prelude.{List};

    ghost Value = { List T };

    ghost view = { λ list. list.cells.items };

    ghost inverse = { λ items. record { cells = record { items = items } } };
}

impl<T: Default, const CAP: usize> FixedList<T, CAP> {
    /// An empty list.
    pub fn new() -> Self
        ensures { result ≡ [] }
    {
        FixedList {
            cells: ArrayVec::new(),
        }
    }
}

impl<T: Default + Copy, const CAP: usize> FixedList<T, CAP> {
    /// A list of these elements.
    pub fn from_slice(elements: &[T]) -> Self
        requires { length elements.now ≤ CAP }
        ensures { result ≡ elements.now }
    {
        let mut list = FixedList::new();
        list.extend_from_slice(elements);
        list
    }
}

impl<T: Drop, const CAP: usize> FixedList<T, CAP> {
    /// Appends an element.
    pub fn push(&mut self, element: T)
        requires { length self.old < CAP }
        ensures { self.new ≡ self.old ++ element ∷ [] }
    {
        self.cells.push(element);
    }

    /// Appends these elements.
    pub fn extend_from_slice(&mut self, elements: &[T])
    where
        T: Copy,
        requires { length self.old + length elements.now ≤ CAP }
        ensures { self.new ≡ self.old ++ elements.now }
    {
        let _fits = self.cells.try_extend_from_slice(elements);
    }
}

impl<T, const CAP: usize> FixedList<T, CAP> {
    /// The elements.
    pub fn as_slice(&self) -> &[T]
        ensures value { result.now ≡ self.now }
        ensures fits { length result.now ≤ CAP }
    {
        self.cells.as_slice()
    }

    /// How many elements there are.
    pub fn len(&self) -> usize
        ensures value { result ≡ length self.now }
        ensures fits { result ≤ CAP }
    {
        self.cells.len()
    }

    /// How many elements fit.
    pub fn capacity(&self) -> usize
        ensures { result ≡ CAP }
    {
        self.cells.capacity()
    }

    /// Whether there is no element.
    pub fn is_empty(&self) -> bool
        ensures { result ≡ (length self.now == 0) }
    {
        self.cells.is_empty()
    }

    /// The vector that the list is kept in.
    pub fn into_inner(self) -> ArrayVec<T, CAP>
        ensures { result.items ≡ self }
    {
        self.cells
    }
}

impl<T, const CAP: usize> From<ArrayVec<T, CAP>> for FixedList<T, CAP> {
    ghost from_gives = { λ cells list. list ≡ cells.items };

    fn from(cells: ArrayVec<T, CAP>) -> Self {
        FixedList { cells }
    }
}

impl<T: Default + Clone, const CAP: usize> Clone for FixedList<T, CAP> {
    ghost is_clone = { λ list copy. AllZip T.is_clone list copy };

    ghost is_infallible = { λ list.
        (i : ℕ) (d : T) → i < length list → T.is_infallible (slice_index_or list i d) };

    fn clone(&self) -> Result<Self, AllocError> {
        Ok(FixedList {
            cells: self.cells.clone()?,
        })
    }
}
