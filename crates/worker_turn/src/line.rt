ghost use Rattle.std.specs.Prelude.{◌≡◌, ℕ, Bool, List, [], Option, OnErr, OnOk};
ghost use Rattle.std.specs.Option.{option_map};
ghost use Rattle.world_traits.specs.Causes.{HasCause};
ghost use Rattle.world_traits.specs.Links.{Links, IsCutShort, after_hang_up, with_bytes};
ghost use Rattle.frame_inbox.specs.Waiting.{Counts, IsWait};
ghost use Rattle.worker_turn.specs.Lines.{IsDialed};

use frame_inbox::{Inbox, NoFrame};
use mbap_frames::Frame;
use world_traits::{DialFailed, Dialer, SendFailed, send_whole};

/// What a worker does with its link: it dials one, sends whole frames on it, waits for frames, and hangs up.
///
/// Each call may wait, and none is handed the runtime: a line that waits holds what it waits by.
pub trait Line {
    /// Whether others use the link too.
    ghost shares: { Bool };

    /// The record of the links so far, where the line tells it.
    ghost links: { Self → Option Links };

    /// How often a dial, a send or a receive has failed.
    ghost faults: { Self → ℕ };

    /// The bytes that came on the link and weren't handed out as frames.
    ghost unread: { Self → List ℕ };

    /// What of it no call changes: which line it is.
    ghost Kept: { Type 0 };

    ghost kept: { Self → Self.Kept };

    /// Makes a link to a host's TCP port, which is up from then on, and on which nothing came yet. `wait` says how long
    /// this dial and each receive on the link waits at most, in ms. A dial that fails leaves the links, and what came, as
    /// before.
    ///
    /// A line that is shared makes no link where one is up: that one stands, with what came on it.
    fn dial(&mut self, host: &str, port: u16, wait: u32) -> Result<(), DialFailed>
        ensures dialed { OnOk result (IsDialed shares host.now port (links self.old) (links self.new)
            (unread self.old) (unread self.new)) }
        ensures failed { OnErr result ((links self.new ≡ links self.old)
            × (unread self.new ≡ unread self.old)) }
        ensures cause { HasCause (faults self.old) (faults self.new) result }
        ensures kept { kept self.new ≡ kept self.old };

    /// Sends the bytes of a whole frame on the link that is up. Where that fails, some first bytes were sent, or none.
    fn send_whole(&mut self, bytes: &[u8]) -> Result<(), SendFailed>
        ensures whole { OnOk result (links self.new ≡ option_map (with_bytes bytes.now) (links self.old)) }
        ensures short { OnErr result (IsCutShort bytes.now (links self.old) (links self.new)) }
        ensures unread { unread self.new ≡ unread self.old }
        ensures cause { HasCause (faults self.old) (faults self.new) result }
        ensures kept { kept self.new ≡ kept self.old };

    /// Waits for the next frame: takes one piece after another from the link that is up, as long as what came is less
    /// than a frame. An error says what came in its place. After a receive that failed the link is over.
    fn next_frame(&mut self) -> Result<Frame, NoFrame>
        ensures wait { IsWait result (unread self.old) (unread self.new) (links self.old) (links self.new) }
        ensures counts { Counts result (faults self.old) (faults self.new) }
        ensures kept { kept self.new ≡ kept self.old };

    /// Ends the link that is up, if one is, and forgets what came on it. It can't fail.
    fn hang_up(&mut self)
        ensures links { links self.new ≡ option_map after_hang_up (links self.old) }
        ensures faults { faults self.new ≡ faults self.old }
        ensures unread { unread self.new ≡ [] }
        ensures kept { kept self.new ≡ kept self.old };
}

/// A line that nobody shares: a dialer, and the inbox of what came over its link.
#[derive(Drop)]
pub struct OwnLine<'a, N: Dialer> {
    /// What makes the links.
    pub dialer: &'a mut N,
    /// What came on the link that is up and wasn't handed out as frames.
    pub inbox: &'a mut Inbox,
}

impl<'a, N: Dialer> Line for OwnLine<'a, N> {
    ghost use Rattle.std.specs.Prelude.{ℕ, false};

    ghost shares = { false };

    ghost links = { λ line. N.links line.dialer.now };

    ghost faults = { λ line. N.faults line.dialer.now };

    ghost unread = { λ line. line.inbox.now };

    ghost Kept = { ℕ × ℕ };

    ghost kept = { λ line. (line.dialer.ghost_name, line.inbox.ghost_name) };

    fn dial(&mut self, host: &str, port: u16, wait: u32) -> Result<(), DialFailed> {
        self.dialer.dial(host, port, wait)?;
        self.inbox.clear();
        Ok(())
    }

    fn send_whole(&mut self, bytes: &[u8]) -> Result<(), SendFailed> {
        send_whole(self.dialer, bytes)
    }

    fn next_frame(&mut self) -> Result<Frame, NoFrame> {
        self.inbox.next_frame(self.dialer)
    }

    fn hang_up(&mut self) {
        self.dialer.hang_up();
        self.inbox.clear();
    }
}
