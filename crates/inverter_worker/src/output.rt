//! What a worker does next.
use plant_book::{Call, Read, Write};

/// What is to be done; what comes of it is the next input.
#[derive(Clone, Copy, Debug, PartialEq, Eq)]
pub enum Output {
    /// Nothing: the worker is over.
    End,
    /// Ask the ledger for the goal.
    Goal,
    /// Make a link.
    Dial,
    /// Read the clock.
    Now,
    /// Make a call on the ledger.
    Call(Call),
    /// Give back a write that wasn't sent, at this moment in ms.
    Release(Write, u64),
    /// Send the frame of a request, at this reading of the clock in ms.
    Send(Asked, u64),
    /// Wait for a frame.
    Receive,
    /// Take the link down.
    HangUp,
    /// Rest for so many ms.
    Rest(u32),
    /// Nothing: the turn is over.
    Nothing,
}

/// A request to the inverter, as the ledger numbered it.
#[derive(Clone, Copy, Debug, PartialEq, Eq)]
pub enum Asked {
    /// A limit that was granted.
    Write(Write),
    /// A read-back.
    Read(Read),
}

/// A request that was sent, whole, in part or not at all where a send failed.
#[derive(Clone, Copy, Debug, PartialEq, Eq)]
pub struct Sent {
    /// The request.
    pub request: Asked,
    /// The reading of the clock before the send, in ms.
    pub clock: u64,
}
