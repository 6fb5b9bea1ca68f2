ghost use Rattle.std.specs.Prelude.{◌≡◌, ◌<◌, ◌≤◌, [], length, take, IfOk, IfErr};
ghost use Rattle.std.specs.List.{slice_range};
ghost use Rattle.std.specs.Option.{option_map};
ghost use Rattle.world_traits.specs.Links.{Bytes, with_receipt};
ghost use Rattle.frame_inbox.specs.Waiting.{Counts, GivesNone, IsAdvance, IsWait};

use mbap_frames::{Frame, FrameFault, Frames, Got, MAX_FRAME};
use std::marker::Model;
use world_traits::{Dialer, Received};

/// Why no frame came.
#[derive(Clone, Copy, Debug, PartialEq, Eq)]
pub enum NoFrame {
    /// Nothing more came in time.
    Quiet,
    /// The peer closed the link.
    Closed,
    /// A receive failed.
    RecvFailed,
    /// What came is no frame.
    BadFrame(FrameFault),
}

/// The bytes that came over a link and weren't handed out as frames. Contracts see them as one list.
#[derive(Debug, Drop)]
pub struct Inbox {
    frames: Frames,
    piece: [u8; MAX_FRAME],
    begin: usize,
    end: usize,
}

impl Model for Inbox {
    ghost use Rattle.std.specs.Prelude.{◌≤◌, ℕ, List, ◌++◌};
    ghost use Rattle.std.specs.List.{slice_range};

    ghost Value = { List ℕ };

    ghost view = { λ inbox. inbox.frames ++ slice_range inbox.piece inbox.begin inbox.end };

    ghost invariant = { λ inbox. (inbox.begin ≤ inbox.end) × (inbox.end ≤ 260) };
}

impl Inbox {
    /// Nothing came yet.
    pub fn new() -> Inbox
        ensures { result ≡ [] }
    {
        Inbox {
            frames: Frames::new(),
            piece: [0; MAX_FRAME],
            begin: 0,
            end: 0,
        }
    }

    /// Forgets what came, for a new link.
    pub fn clear(&mut self)
        ensures { self.new ≡ [] }
    {
        *self = Inbox::new();
    }

    /// Waits for the next frame: takes one piece after another from the link that is up, as long as what came is less
    /// than a frame.
    pub fn next_frame<N: Dialer>(&mut self, dialer: &mut N) -> Result<Frame, NoFrame>
        ensures wait { IsWait result self.old self.new (N.links dialer.old) (N.links dialer.new) }
        ensures faults { Counts result (N.faults dialer.old) (N.faults dialer.new) }
    {
        loop {
            if let Some(frame) = self.advance(dialer)? {
                return Ok(frame);
            }
        }
    }

    /// Hands out the next frame. Where none is whole yet it receives one piece, and hands out none.
    pub fn advance<N: Dialer>(&mut self, dialer: &mut N) -> Result<Option<Frame>, NoFrame>
        ensures advance { IsAdvance result self.old self.new (N.links dialer.old) (N.links dialer.new) }
        ensures bound { length self.new < 520 }
        ensures faults { Counts result (N.faults dialer.old) (N.faults dialer.new) }
        ensures later { N.faults dialer.old ≤ N.faults dialer.new }
    {
        let fed = self.frames.feed(part(&self.piece, self.begin, self.end));
        self.begin += fed.used;
        match fed.got {
            Got::One(frame) => Ok(Some(frame)),
            Got::Bad(fault) => Err(NoFrame::BadFrame(fault)),
            Got::More => {
                let count = receive(dialer, &mut self.piece)?;
                self.begin = 0;
                self.end = count;
                Ok(None)
            }
        }
    }
}

/// The bytes of a buffer from a place on, up to another.
fn part(buffer: &[u8], begin: usize, end: usize) -> &[u8]
    requires begins { begin ≤ end }
    requires ends { end ≤ length buffer.now }
    ensures { result.now ≡ slice_range buffer.now begin end }
{
    &buffer[begin..end]
}

/// Receives into the front of a buffer, and tells how many bytes came.
fn receive<N: Dialer>(dialer: &mut N, into: &mut [u8]) -> Result<usize, NoFrame>
    ensures some { IfOk result (λ count. (0 < count) × (count ≤ length into.new)) }
    ensures links { IfOk result (λ count. N.links dialer.new
        ≡ option_map (with_receipt (Bytes (take count into.new))) (N.links dialer.old)) }
    ensures none { IfErr result (λ why. GivesNone why (N.links dialer.old) (N.links dialer.new)) }
    ensures faults { Counts result (N.faults dialer.old) (N.faults dialer.new) }
    ensures later { N.faults dialer.old ≤ N.faults dialer.new }
{
    match dialer.recv(into) {
        Ok(Received::Bytes(count)) => Ok(count),
        Ok(Received::Quiet) => Err(NoFrame::Quiet),
        Ok(Received::Closed) => Err(NoFrame::Closed),
        Err(_) => Err(NoFrame::RecvFailed),
    }
}
