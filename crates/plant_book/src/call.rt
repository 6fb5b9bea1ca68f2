ghost use Rattle.std.specs.Prelude.{◌≡◌};

use crate::site::CAP_MAX;

/// The greatest moment, in ms.
pub const MOMENT_MAX: u64 = limiter_num::MOMENT_MAX;

const _: () = prove!(MOMENT_MAX == 1_000_000_000_000_000);

/// The greatest wish, in mW.
pub const WISH_MAX: u64 = 100_000_000_000_000;

const _: () = prove!(WISH_MAX == 100_000_000_000_000);

/// How many requests a link takes.
pub const REQUESTS_MAX: u16 = 65_535;

const _: () = prove!(REQUESTS_MAX == 65_535);

/// How many writes of an inverter may be live at once.
pub const LIVE_MAX: usize = 32;

const _: () = prove!(LIVE_MAX == 32);

/// A limit that was granted: the right to send one write of the six registers of WMaxLimPct.
#[derive(Clone, Copy, Debug, Default, PartialEq, Eq)]
pub struct Write {
    /// The moment of the grant, in ms.
    pub at: u64,
    /// The number of the link on which it may be sent, from 1.
    pub link: u32,
    /// The number of the request on its link, from 1.
    pub number: u16,
    /// The limit as a raw percentage.
    pub raw: u16,
    /// The number of the inverter, from 0.
    pub inverter: u8,
}

/// A read-back that was numbered.
#[derive(Clone, Copy, Debug, PartialEq, Eq)]
pub struct Read {
    /// The number of the inverter, from 0.
    pub inverter: u8,
    /// The number of the link on which it may be sent, from 1.
    pub link: u32,
    /// The number of the request on its link, from 1.
    pub number: u16,
    /// The moment of the call, in ms.
    pub at: u64,
}

/// A call on the ledger. `at` is its moment in ms.
#[derive(Clone, Copy, Debug, PartialEq, Eq)]
pub enum Call {
    /// A new link to the inverter is up.
    Link {
        at: u64,
        inverter: u8,
    },
    /// The inverter's worker asks for a limit as a raw percentage.
    Ask {
        at: u64,
        inverter: u8,
        raw: u16,
    },
    /// The inverter's worker wants to read the limit back.
    Read {
        at: u64,
        inverter: u8,
    },
    /// The read of this number showed a raw percentage.
    Saw {
        at: u64,
        inverter: u8,
        number: u16,
        raw: u16,
    },
    /// A granted write of this link and number was not sent and never will be.
    Back {
        at: u64,
        inverter: u8,
        link: u32,
        number: u16,
    },
    /// The inverter wishes for so many mW.
    Want {
        at: u64,
        inverter: u8,
        mw: u64,
    },
    /// Nothing but the time has changed.
    Tick {
        at: u64,
    },
    /// The plant is to stop.
    Stop {
        at: u64,
    },
    /// From now on the cap is to be so many mW.
    Cap {
        at: u64,
        mw: u64,
    },
}

impl Call {
    ghost use Rattle.std.specs.Prelude.{◌↔◌, IsTrue};
    ghost use Rattle.plant_book.specs.Calls.{moment, named, at_moment};
    ghost use Rattle.plant_book.specs.Answered.{IsInRange};

    /// The moment of the call, in ms.
    pub fn at(&self) -> u64
        ensures { result ≡ moment self.now }
    {
        match *self {
            Call::Link { at, .. }
            | Call::Ask { at, .. }
            | Call::Read { at, .. }
            | Call::Saw { at, .. }
            | Call::Back { at, .. }
            | Call::Want { at, .. }
            | Call::Tick { at }
            | Call::Stop { at }
            | Call::Cap { at, .. } => at,
        }
    }

    /// The inverter that the call names, if it names one.
    pub fn inverter(&self) -> Option<u8>
        ensures { result ≡ named self.now }
    {
        match *self {
            Call::Link { inverter, .. }
            | Call::Ask { inverter, .. }
            | Call::Read { inverter, .. }
            | Call::Saw { inverter, .. }
            | Call::Back { inverter, .. }
            | Call::Want { inverter, .. } => Some(inverter),
            Call::Tick { .. } | Call::Stop { .. } | Call::Cap { .. } => None,
        }
    }

    /// Whether the numbers of the call are in their ranges: only a wish or a cap may be above the greatest.
    pub fn is_in_range(&self) -> bool
        ensures { IsTrue result ↔ IsInRange self.now }
    {
        match *self {
            Call::Want { mw, .. } => mw <= WISH_MAX,
            Call::Cap { mw, .. } => mw <= CAP_MAX,
            Call::Ask { raw: _raw, .. } => true,
            Call::Saw {
                number: _number,
                raw: _raw,
                ..
            } => true,
            Call::Back {
                link: _link,
                number: _number,
                ..
            } => true,
            Call::Link { .. } | Call::Read { .. } | Call::Tick { .. } | Call::Stop { .. } => true,
        }
    }

    /// The same call at another moment, in ms.
    pub fn at_moment(self, at: u64) -> Call
        ensures { result ≡ at_moment at self }
    {
        match self {
            Call::Link { inverter, .. } => Call::Link { at, inverter },
            Call::Ask { inverter, raw, .. } => Call::Ask { at, inverter, raw },
            Call::Read { inverter, .. } => Call::Read { at, inverter },
            Call::Saw {
                inverter,
                number,
                raw,
                ..
            } => Call::Saw {
                at,
                inverter,
                number,
                raw,
            },
            Call::Back {
                inverter,
                link,
                number,
                ..
            } => Call::Back {
                at,
                inverter,
                link,
                number,
            },
            Call::Want { inverter, mw, .. } => Call::Want { at, inverter, mw },
            Call::Tick { .. } => Call::Tick { at },
            Call::Stop { .. } => Call::Stop { at },
            Call::Cap { mw, .. } => Call::Cap { at, mw },
        }
    }
}

/// What the ledger answers.
#[derive(Clone, Copy, Debug, PartialEq, Eq)]
pub enum Reply {
    /// The number of the new link.
    Linked(u32),
    /// The limit is reserved, and may be sent.
    Granted(Write),
    /// The read is numbered, and may be sent.
    ReadAs(Read),
    /// The read-back freed so many writes; so many mW are reserved for the inverter now.
    Freed { count: u8, reserved: u64 },
    /// The call is entered.
    Taken,
    /// The mW that are reserved for all inverters.
    Total(u64),
    /// The inverter had no link yet.
    Unlinked,
    /// The link has had 65,535 requests.
    Spent,
    /// The raw percentage is above the greatest, which is told.
    Over(u16),
    /// Earlier lives may still act up to and with the moment that is told, in ms.
    Silent(u64),
    /// The policy allows at most the raw percentage that is told.
    NotAllowed(u16),
    /// Only so many mW are unreserved.
    NoWatts(u64),
    /// The inverter has 32 live writes.
    Crowded,
    /// No read of this number is pending.
    NoRead,
    /// The raw percentage is neither the floor nor that of a live write.
    Strange(u16),
    /// There is no live write of these numbers.
    NoWrite,
    /// The cap is set, in mW. All limits together stay under the ceiling while writes from before may act.
    CapSet { cap: u64, ceiling: u64 },
    /// The cap stays: the one wanted is below the floors of all inverters, or above the site's cap.
    CapOut { least: u64, most: u64 },
}
