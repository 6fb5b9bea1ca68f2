ghost use Rattle.std.specs.Prelude.{ℕ, List, Option};
ghost use Rattle.std.specs.Io.{ReadsAtMost};
ghost use Rattle.std.specs.Io.KnownBytes.{ReadConsumes};
ghost use Rattle.world_traits.specs.Causes.{HasCause};

/// A read failed. No byte was given.
#[derive(Clone, Copy, Debug, PartialEq, Eq)]
pub struct ReadFailed;

/// Bytes that come from outside, in order.
pub trait Source {
    /// The bytes that are left, where the source tells them.
    ghost left: { Self → Option (List ℕ) };

    /// How often a read has failed.
    ghost faults: { Self → ℕ };

    /// Reads the first of the bytes that are left into the front of `into`, and tells how many. For an `into`
    /// that isn't empty, 0 is the end of the input.
    fn read(&mut self, into: &mut [u8]) -> Result<usize, ReadFailed>
        ensures bound { ReadsAtMost result into.new }
        ensures bytes { ReadConsumes (left self.old) (left self.new) result into.new }
        ensures cause { HasCause (faults self.old) (faults self.new) result };
}
