use plant_book::Policy;

/// The numbers of a line as they are spelled, whatever they mean. A number that is too great for its type is the
/// greatest, which is out of each range.
#[derive(Clone, Copy, Debug, PartialEq, Eq)]
pub enum Fields {
    Site {
        /// What all limits together stay under, in mW.
        cap: u64,
        /// The send window of a frame, in ms.
        send: u64,
        /// The delay of a frame, in ms.
        delay: u64,
        /// The reversion timer, in s.
        timer: u64,
        /// The tolerance of the timer, in thousandths.
        per_mille: u64,
        /// The tolerance of the timer besides, in ms.
        slack: u64,
        /// How the watts that are free are shared.
        policy: Policy,
        /// How many calls a book has room for.
        room: u64,
    },
    Inverter {
        /// WMax of model 702.
        wmax: u64,
        /// W_SF of model 702.
        wsf: i32,
        /// WMaxLimPct_SF of model 704.
        psf: i32,
        /// The limit to go back to, as a raw percentage.
        floor: u64,
    },
    Begin {
        at: u64,
    },
    Link {
        at: u64,
        inverter: u64,
    },
    Ask {
        at: u64,
        inverter: u64,
        raw: u64,
    },
    Read {
        at: u64,
        inverter: u64,
    },
    Saw {
        at: u64,
        inverter: u64,
        number: u64,
        raw: u64,
    },
    Back {
        at: u64,
        inverter: u64,
        link: u64,
        number: u64,
    },
    Want {
        at: u64,
        inverter: u64,
        mw: u64,
    },
    Tick {
        at: u64,
    },
    Stop {
        at: u64,
    },
    Cap {
        at: u64,
        mw: u64,
    },
    Restart {
        at: u64,
    },
    Roll,
}
