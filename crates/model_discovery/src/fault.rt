//! Why a register map has no chain.

use thiserror::Error;

/// The first fault of a map's chain.
#[derive(Clone, Copy, Debug, PartialEq, Eq, Error)]
pub enum WalkFault {
    /// No base has the mark.
    #[error("nomark")]
    NoMark,
    /// The next header would need a register past 65535; its address.
    #[error("chainleaves {0}")]
    ChainLeaves(u32),
    /// A 129th model came.
    #[error("toomanymodels")]
    TooManyModels,
    /// The first model of an identifier from 701 to 704 is shorter than its points need.
    #[error("tooshort {id} {length}")]
    TooShort {
        /// The model's identifier.
        id: u16,
        /// How many registers stand behind its header.
        length: u16,
    },
    /// The chain ended without this model.
    #[error("missing {0}")]
    Missing(u16),
    /// A header's read was answered by an exception; its code.
    #[error("exception {0}")]
    Exception(u8),
}
