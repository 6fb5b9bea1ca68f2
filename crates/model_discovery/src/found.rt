//! A model of the chain.

/// A model that stands in a register map.
#[derive(Clone, Copy, Debug, Default, PartialEq, Eq)]
pub struct Found {
    /// The model's identifier, as 701.
    pub id: u16,
    /// The address of the identifier's register, behind which the length stands.
    pub start: u16,
    /// How many registers stand behind the length.
    pub length: u16,
}
