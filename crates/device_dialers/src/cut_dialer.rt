ghost use Rattle.std.specs.Prelude.{◌≡◌, ◌+◌, ◌<◌, ◌≤◌, IfOk, IfSome, IsErr, OnErr, OnOk, length, take};
ghost use Rattle.std.specs.Io.{WritesAtMost};
ghost use Rattle.std.specs.Option.{option_map};
ghost use Rattle.world_traits.specs.Causes.{HasCause};
ghost use Rattle.world_traits.specs.Links.{FitsInto, IsDown};
ghost use Rattle.world_traits.specs.Links.{after_dial, after_hang_up, after_receive, after_send};
ghost use Rattle.device_dialers.specs.Cuts.{IsOpen, Sends, handed, handing_after, handing_of, handing_on_new_link, is_write};

use modbus_pdu::WRITE_REGISTERS;
use std::marker::Model;
use world_traits::{DialFailed, Dialer, Received, RecvFailed, SendFailed};

/// Where a frame has its function, behind the header.
const FUNCTION: usize = 7;

/// What a `CutDialer` hands on.
#[derive(Clone, Copy, Debug)]
pub enum Handing {
    /// All bytes.
    Whole,
    /// All bytes up to the first write, and of that one so many first bytes.
    CutAt(u32),
    /// Nothing, until the next link is made.
    Blocked,
}

/// A dialer over another, which cuts one frame short. Of the first piece that is a write it hands so many first
/// bytes on, and each later send on that link fails. It cuts once. All other calls are those of the dialer below.
#[derive(Debug, Drop)]
pub struct CutDialer<N: Dialer> {
    inner: N,
    handing: Handing,
    /// How many sends failed behind the cut.
    blocked: u64,
}

impl<N: Dialer> Model for CutDialer<N> {
    ghost use Rattle.device_dialers.specs.Cuts.{CutState, CutsSome};

    ghost Value = { CutState N };

    ghost view = { λ d. record { inner = d.inner; handing = d.handing; blocked = d.blocked } };

    ghost invariant = { λ d. CutsSome d.handing };
}

impl<N: Dialer> CutDialer<N> {
    /// A dialer over this one that has cut nothing yet. With no cut it hands everything on.
    pub fn new(inner: N, cut: Option<u32>) -> Self
        requires { IfSome cut (λ bytes. 1 ≤ bytes) }
        ensures { result ≡ record { inner = inner; handing = handing_of cut; blocked = 0 } }
    {
        let handing = match cut {
            Some(bytes) => Handing::CutAt(bytes),
            None => Handing::Whole,
        };
        CutDialer {
            inner,
            handing,
            blocked: 0,
        }
    }

    /// The dialer below.
    pub fn inner(&self) -> &N
        ensures { result.now ≡ self.now.inner }
    {
        &self.inner
    }

    /// The bytes of a piece that are handed on, where some are.
    fn next_handed<'b>(&mut self, bytes: &'b [u8]) -> &'b [u8]
        requires { IsOpen self.old.handing }
        ensures handed { result.now ≡ handed self.old.handing bytes.now }
        ensures some { 0 < length bytes.now → 0 < length result.now }
        ensures state { self.new ≡ record self.old { handing = handing_after self.old.handing bytes.now } }
    {
        if let Handing::CutAt(cut) = self.handing {
            if is_write(bytes) {
                self.handing = Handing::Blocked;
                return first(bytes, cut);
            }
        }
        bytes
    }
}

impl<N: Dialer> Dialer for CutDialer<N> {
    ghost links = { λ d. N.links d.inner };

    ghost faults = { λ d. N.faults d.inner + d.blocked };

    fn dial(&mut self, host: &str, port: u16, wait: u32) -> Result<(), DialFailed>
        ensures links { N.links self.new.inner ≡ option_map (after_dial host.now port result) (N.links self.old.inner) }
        ensures cause { HasCause (N.faults self.old.inner + self.old.blocked)
            (N.faults self.new.inner + self.new.blocked) result }

        // It fails only where the dialer below does. On a new link nothing was cut.
        ensures below { HasCause (N.faults self.old.inner) (N.faults self.new.inner) result }
        ensures blocked { self.new.blocked ≡ self.old.blocked }
        ensures ok { OnOk result (self.new.handing ≡ handing_on_new_link self.old.handing) }
        ensures err { OnErr result (self.new.handing ≡ self.old.handing) }
    {
        self.inner.dial(host, port, wait)?;
        if let Handing::Blocked = self.handing {
            self.handing = Handing::Whole;
        }
        Ok(())
    }

    fn send(&mut self, bytes: &[u8]) -> Result<usize, SendFailed>
        ensures bound { WritesAtMost result bytes.now }
        ensures some { IfOk result (λ count. 0 < length bytes.now → 0 < count) }
        ensures down { IfSome (N.links self.old.inner) (λ before. IsDown before → IsErr result) }
        ensures links { N.links self.new.inner ≡ option_map (after_send bytes.now result) (N.links self.old.inner) }
        ensures cause { HasCause (N.faults self.old.inner + self.old.blocked)
            (N.faults self.new.inner + self.new.blocked) result }

        // Behind the cut it fails. Else what is handed on is sent below, and the first write is the last piece on
        // its link.
        ensures sends { Sends self.old.handing bytes.now result
            (N.faults self.old.inner) (N.faults self.new.inner) self.old.blocked self.new.blocked }
        ensures handing { self.new.handing ≡ handing_after self.old.handing bytes.now }
    {
        if let Handing::Blocked = self.handing {
            self.blocked = self.blocked.saturating_add(1);
            return Err(SendFailed);
        }
        let handed = self.next_handed(bytes);
        self.inner.send(handed)
    }

    fn recv(&mut self, into: &mut [u8]) -> Result<Received, RecvFailed>
        ensures bound { IfOk result (FitsInto into.new) }
        ensures down { IfSome (N.links self.old.inner) (λ before. IsDown before → IsErr result) }
        ensures links { N.links self.new.inner ≡ option_map (after_receive into.new result) (N.links self.old.inner) }
        ensures cause { HasCause (N.faults self.old.inner + self.old.blocked)
            (N.faults self.new.inner + self.new.blocked) result }

        // It fails only where the dialer below does, and cuts nothing.
        ensures below { HasCause (N.faults self.old.inner) (N.faults self.new.inner) result }
        ensures blocked { self.new.blocked ≡ self.old.blocked }
        ensures handing { self.new.handing ≡ self.old.handing }
    {
        self.inner.recv(into)
    }

    fn hang_up(&mut self)
        ensures links { N.links self.new.inner ≡ option_map after_hang_up (N.links self.old.inner) }
        ensures faults { N.faults self.new.inner + self.new.blocked ≡ N.faults self.old.inner + self.old.blocked }
        ensures blocked { self.new.blocked ≡ self.old.blocked }
        ensures handing { self.new.handing ≡ self.old.handing }
    {
        self.inner.hang_up();
    }
}

/// Whether a piece has the function of a write behind the header of a frame.
fn is_write(bytes: &[u8]) -> bool
    ensures { result ≡ is_write bytes.now }
{
    bytes.get(FUNCTION) == Some(&WRITE_REGISTERS)
}

/// So many first bytes, or all where there are fewer.
fn first(bytes: &[u8], count: u32) -> &[u8]
    ensures { result.now ≡ take count bytes.now }
{
    &bytes[..bytes.len().min(count as usize)]
}
