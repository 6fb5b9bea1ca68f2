ghost use Rattle.std.specs.Prelude.{◌≡◌};

use crate::board::Place;
use std::marker::Model;

/// The right of one caller to enter calls at a desk. It may go to another thread. Contracts see in it the
/// entries that it made, each with its place, and its rolls; they take no memory.
#[derive(Drop)]
pub struct Pass {
    pub(crate) number: u32,
    pub(crate) place: Place,
}

impl Model for Pass {
    ghost use Rattle.plant_desk.specs.Passes.{PassRecord};

    ghost Value = { PassRecord };

    ghost use Rattle.plant_desk.specs.Kept.{pass_of, IsPass};

    ghost view = { λ p. pass_of p };

    ghost invariant = { λ p. IsPass p };
}

impl Pass {
    /// The number of the pass among those of its desk, from 1.
    pub fn number(&self) -> u32
        ensures { result ≡ self.now.number }
    {
        self.number
    }
}
