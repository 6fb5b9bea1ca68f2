//! How long models have to be.
ghost use Rattle.std.specs.Prelude.{◌≡◌};
ghost use Rattle.der_models.specs.Layout.{least_length, least_block};

use crate::identifiers::{AC_CONTROLS, AC_MEASUREMENT, CAPACITY, ENTER_SERVICE};

/// How many registers the header of a model has: its identifier and its length.
pub const HEADER: u16 = 2;

/// The least length of model 701, up to W_SF.
const M701_LEAST_LENGTH: u16 = 115;

/// The least length of model 702, up to W_SF.
const M702_LEAST_LENGTH: u16 = 44;

/// The least length of model 703.
const M703_LEAST_LENGTH: u16 = 17;

/// The least length of model 704, up to WMaxLimPct_SF.
const M704_LEAST_LENGTH: u16 = 53;

/// How long a model of this identifier has to be at least, in registers behind its header, for the points
/// that are used of it. Models that aren't used may have any length.
pub fn least_length(id: u16) -> u16
    ensures { result ≡ least_length id }
{
    match id {
        AC_MEASUREMENT => M701_LEAST_LENGTH,
        CAPACITY => M702_LEAST_LENGTH,
        ENTER_SERVICE => M703_LEAST_LENGTH,
        AC_CONTROLS => M704_LEAST_LENGTH,
        _ => 0,
    }
}

/// How many registers a model of this identifier has at least, its header among them. So many from its
/// start on have each point that is used of it.
pub fn least_block(id: u16) -> u16
    ensures { result ≡ least_block id }
{
    HEADER + least_length(id)
}
