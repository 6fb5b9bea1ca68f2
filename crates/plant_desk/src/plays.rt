//! What each step on the table tells.

use crate::board::View;
use atomic_table::{Join, Play, Split};
use plant_ledger::Plant;

/// Tries the turn.
pub struct Try;

impl Play<Option<Plant>, View> for Try {
    ghost use Rattle.plant_desk.specs.Rule.{Tries};

    ghost then = { Tries };
}

/// Looks at the front, with the turn.
pub struct SeeFront;

impl Play<Option<Plant>, View> for SeeFront {
    ghost use Rattle.plant_desk.specs.Rule.{SeesFront};

    ghost then = { SeesFront };
}

/// Looks at the base, with the turn.
pub struct SeeBase;

impl Play<Option<Plant>, View> for SeeBase {
    ghost use Rattle.plant_desk.specs.Rule.{SeesBase};

    ghost then = { SeesBase };
}

/// Raises the front by one, with the entry.
pub struct Raise;

impl Play<Option<Plant>, View> for Raise {
    ghost use Rattle.plant_desk.specs.Rule.{Raises};

    ghost then = { Raises };
}

/// Sets the base to the front, with the roll.
pub struct Cut;

impl Play<Option<Plant>, View> for Cut {
    ghost use Rattle.plant_desk.specs.Rule.{Cuts};

    ghost then = { Cuts };
}

/// Gives the turn back.
pub struct Give;

impl Play<Option<Plant>, View> for Give {
    ghost use Rattle.plant_desk.specs.Rule.{Gives};

    ghost then = { Gives };
}

/// Parts the first pass of a seat from the others.
pub struct Part;

impl Split<View> for Part {
    ghost use Rattle.plant_desk.specs.Hands.{others_of, first_of};

    ghost left = { others_of };

    ghost right = { first_of };
}

/// Puts the passes of two seats into one.
pub struct Merge;

impl Join<View> for Merge {
    ghost use Rattle.plant_desk.specs.Hands.{both, spent};

    ghost both = { both };

    ghost spent = { spent };
}

/// Comes to the table without a pass.
pub struct Come;

impl Play<Option<Plant>, View> for Come {
    ghost use Rattle.plant_desk.specs.Rule.{Comes};

    ghost then = { Comes };
}
