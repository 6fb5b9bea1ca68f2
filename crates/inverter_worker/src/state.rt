//! Where a worker stands.
use limiter_num::Point;
use plant_book::{Read, Write};

/// How many frames of other requests are passed over in one wait, at most: the next one hangs up.
pub const SKIPPED_MAX: u8 = 7;

const _: () = prove!(SKIPPED_MAX == 7);

/// What a worker keeps between an output and the next input.
#[derive(Clone, Copy, Debug, PartialEq, Eq)]
pub struct State {
    /// What it does.
    pub step: Step,
    /// Whether its link is up.
    pub up: bool,
    /// The last write that was sent on this link.
    pub last: Option<Write>,
    /// How many turns it has left.
    pub turns: u32,
    /// How many frames of other requests were passed over in this wait.
    pub skipped: u8,
}

/// What a worker does. A number that is carried along is the goal's limit as a raw percentage, or the one that
/// a read-back showed.
#[derive(Clone, Copy, Debug, PartialEq, Eq)]
pub enum Step {
    /// Begins a turn.
    Ready,
    /// Waits for the goal.
    Aiming,
    /// Dials, to aim at this raw percentage then.
    Dialing(u16),
    /// Takes the time for the call that enters the new link.
    LinkTiming(u16),
    /// Enters the new link.
    Linking(u16),
    /// Takes the time for the next request.
    Timing(u16),
    /// Asks for a limit.
    Asking,
    /// Takes the time to send a granted write.
    Window(Write),
    /// Gives back a write whose send window has passed.
    ReleaseTiming(Write),
    /// Sends a write.
    Sending(Write),
    /// Waits for the reply to a write.
    WaitWrite(Write),
    /// Takes the time for the call that enters a read-back.
    ReadTiming,
    /// Enters a read-back.
    ReadAsking,
    /// Takes the time to send a read-back.
    ReadWindow(Read),
    /// Sends a read-back.
    SendingRead(Read),
    /// Waits for the reply to a read-back.
    WaitRead(Read),
    /// Takes the time for the call that enters what a read-back showed.
    SawTiming(Read, u16),
    /// Enters what a read-back showed.
    SawAsking,
    /// Hangs up.
    Closing,
    /// Hangs up for good, since a point isn't as it was written: which, what was wanted, and what was found.
    UnfitClosing(Point, u32, u32),
    /// Rests until its next turn.
    Resting,
    /// Is over.
    Over(End),
}

/// Why a worker is over.
#[derive(Clone, Copy, Debug, PartialEq, Eq)]
pub enum End {
    /// Its turns are used up.
    TurnsDone,
    /// The plant is to stop.
    Stopped,
    /// The book has no room for a call.
    BookFull,
    /// A read-back showed a point that isn't as it was written.
    Unfit {
        point: Point,
        wanted: u32,
        found: u32,
    },
    /// Memory ran out.
    NoMemory,
}
