ghost use Rattle.std.specs.Prelude.{◌≡◌, ◌<◌, ◌≤◌, ℕ, Option, IfOk, IfSome, IsErr, OnErr, OnOk, length};
ghost use Rattle.std.specs.Io.{WritesAtMost};
ghost use Rattle.std.specs.Option.{option_map};
ghost use Rattle.world_traits.specs.Causes.{HasCause};
ghost use Rattle.world_traits.specs.Links.{FitsInto, IsCutShort, IsDown, Links, with_bytes};
ghost use Rattle.world_traits.specs.Links.{after_dial, after_hang_up, after_receive, after_send};

/// A dial failed. It made no link, and a link that was up is up as before.
#[derive(Clone, Copy, Debug, PartialEq, Eq)]
pub struct DialFailed;

/// A send failed. No byte of it was sent.
#[derive(Clone, Copy, Debug, PartialEq, Eq)]
pub struct SendFailed;

/// A receive failed. The link that was up, if one was, is over.
#[derive(Clone, Copy, Debug, PartialEq, Eq)]
pub struct RecvFailed;

/// What a receive came to.
#[derive(Clone, Copy, Debug, PartialEq, Eq)]
pub enum Received {
    /// So many bytes stand at the front of the buffer, one at least.
    Bytes(usize),
    /// Nothing came within the time to wait that was given when the link was dialed.
    Quiet,
    /// The peer closed the link.
    Closed,
}

/// Links to the outside, one at a time, each a stream of bytes in both directions.
///
/// A link is up from a dial that works to a hang-up, to a receive that fails, or to the next dial that works. A send or a
/// receive where none is up fails.
///
/// Each call may wait, and none is handed the runtime: a dialer that waits holds what it waits by, a handle whose type
/// is a parameter of its own under the bound `Wait`, and one in memory holds none.
pub trait Dialer {
    /// The record of the links so far, where the dialer tells it.
    ghost links: { Self → Option Links };

    /// How often a dial, a send or a receive has failed.
    ghost faults: { Self → ℕ };

    /// Makes a link to a host's TCP port, which is up from then on. `wait` says how long this dial and each receive on
    /// the link waits at most, in ms.
    fn dial(&mut self, host: &str, port: u16, wait: u32) -> Result<(), DialFailed>
        ensures links { links self.new ≡ option_map (after_dial host.now port result) (links self.old) }
        ensures cause { HasCause (faults self.old) (faults self.new) result };

    /// Sends the first bytes of a piece on the link that is up, and tells how many. Of a piece that isn't empty it sends
    /// at least one.
    fn send(&mut self, bytes: &[u8]) -> Result<usize, SendFailed>
        ensures bound { WritesAtMost result bytes.now }
        ensures some { IfOk result (λ count. 0 < length bytes.now → 0 < count) }
        ensures down { IfSome (links self.old) (λ before. IsDown before → IsErr result) }
        ensures links { links self.new ≡ option_map (after_send bytes.now result) (links self.old) }
        ensures cause { HasCause (faults self.old) (faults self.new) result };

    /// Receives from the link that is up into the front of `into`.
    fn recv(&mut self, into: &mut [u8]) -> Result<Received, RecvFailed>
        ensures bound { IfOk result (FitsInto into.new) }
        ensures down { IfSome (links self.old) (λ before. IsDown before → IsErr result) }
        ensures links { links self.new ≡ option_map (after_receive into.new result) (links self.old) }
        ensures cause { HasCause (faults self.old) (faults self.new) result };

    /// Ends the link that is up, if one is. It can't fail.
    fn hang_up(&mut self)
        ensures links { links self.new ≡ option_map after_hang_up (links self.old) }
        ensures faults { faults self.new ≡ faults self.old };
}

/// Sends all of the bytes on the link that is up, one piece after another. Where a send fails, some first bytes were
/// sent, or none.
pub fn send_whole<N: Dialer>(dialer: &mut N, bytes: &[u8]) -> Result<(), SendFailed>
    ensures whole { OnOk result (N.links dialer.new ≡ option_map (with_bytes bytes.now) (N.links dialer.old)) }
    ensures short { OnErr result (IsCutShort bytes.now (N.links dialer.old) (N.links dialer.new)) }
    ensures cause { HasCause (N.faults dialer.old) (N.faults dialer.new) result }
{
    let mut rest = bytes;
    while !rest.is_empty() {
        let count = dialer.send(rest)?;
        rest = &rest[count..];
    }
    Ok(())
}
