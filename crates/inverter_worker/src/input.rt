//! What happens to a worker.
use mbap_frames::Frame;
use plant_book::Reply;
use plant_ledger::Goal;

/// What came of the last output.
#[derive(Clone, Debug, PartialEq, Eq, Drop)]
pub enum Input {
    /// A turn begins, and there is no memory for what it may enter in its log.
    NoRoom,
    /// A turn begins.
    Go,
    /// What the ledger lets the inverter aim at.
    Goal(Goal),
    /// The dial failed.
    DialFailed,
    /// A link is up.
    Dialed,
    /// The clock's reading, in ms.
    Time(u64),
    /// The ledger's reply to a call.
    Reply(Reply),
    /// The book had no room for the call.
    Full,
    /// The frame went out whole.
    SentAll,
    /// A send failed.
    SendFailed,
    /// A frame came.
    Frame(Frame),
    /// Nothing came in time.
    Quiet,
    /// The peer closed the link.
    Closed,
    /// A receive failed.
    RecvFailed,
    /// What came is no frame.
    BadFrame,
    /// The link is down.
    HungUp,
    /// The rest is over.
    Rested,
}
