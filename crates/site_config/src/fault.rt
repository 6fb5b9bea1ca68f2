use crate::key::Key;
use limiter_num::RatingFault;
use std::alloc::{AllocError, AllocFailed};

/// Why bytes are no site file. A fault of a key has the number of the inverter whose table it is, from 0, or none
/// for the site's own keys.
#[derive(Clone, Copy, Debug, PartialEq, Eq)]
pub enum SiteFault {
    /// The bytes are no TOML text in UTF-8.
    NotToml,
    /// The key isn't there.
    Missing {
        key: Key,
        inverter: Option<u32>,
    },
    /// The key holds another kind of value; `inverter` holds something else than an array of tables.
    WrongKind {
        key: Key,
        inverter: Option<u32>,
    },
    /// The integer is out of the key's range.
    OutOfRange {
        key: Key,
        inverter: Option<u32>,
        value: i64,
    },
    /// The string isn't one of the key's.
    BadText {
        key: Key,
        inverter: Option<u32>,
    },
    /// The file has no inverter.
    NoInverter,
    /// The file has more than 64 inverters: so many.
    TooManyInverters(u32),
    /// The points of the inverter make no rating.
    Unrated {
        inverter: u32,
        cause: RatingFault,
    },
    /// The floor of the inverter is above its greatest raw percentage.
    FloorOut {
        inverter: u32,
        /// The greatest raw percentage.
        full: u16,
    },
    /// A limit would be written anew too often.
    RenewTooShort {
        /// The least time that `renew` may be, in ms.
        least: u32,
    },
    /// The floors of all inverters sum to more than the cap: to so many mW.
    FloorsOverCap(u64),
}

/// Why there is no site file.
#[derive(Clone, Copy, Debug, PartialEq, Eq)]
pub enum SiteError {
    /// Memory ran out.
    NoMemory,
    /// The bytes are no site file.
    Bad(SiteFault),
}

impl From<SiteFault> for SiteError {
    ghost use Rattle.std.specs.Prelude.{◌≡◌};
    ghost use Rattle.site_config.specs.declared.fault.SiteError.TheVariants.{Bad};

    ghost from_gives = { λ fault e. e ≡ Bad fault };

    fn from(fault: SiteFault) -> SiteError {
        SiteError::Bad(fault)
    }
}

impl From<AllocError> for SiteError {
    ghost use Rattle.std.specs.Prelude.{◌≡◌};
    ghost use Rattle.site_config.specs.declared.fault.SiteError.TheVariants.{NoMemory};

    ghost from_gives = { λ _ e. e ≡ NoMemory };

    fn from(_refused: AllocError) -> SiteError {
        SiteError::NoMemory
    }
}

impl<T: Drop> From<AllocFailed<T>> for SiteError {
    ghost use Rattle.std.specs.Prelude.{◌≡◌};
    ghost use Rattle.site_config.specs.declared.fault.SiteError.TheVariants.{NoMemory};

    ghost from_gives = { λ _ e. e ≡ NoMemory };

    fn from(_refused: AllocFailed<T>) -> SiteError {
        SiteError::NoMemory
    }
}
