use crate::deed::Deed;
use atomic_table::{Seat, Shared, Table, TableRule};
use plant_ledger::Plant;
use std::alloc::Global;
use std::collections::LinkedList;
use std::snapshot::Snapshot;

/// The word that counts the calls of the joined book.
pub const FRONT: usize = 0;

/// The word that is 0, or the number of the pass that has the turn.
pub const TURN: usize = 1;

/// The word that counts the calls before the current book.
pub const BASE: usize = 2;

/// The slot of the plant.
pub const PLANT: usize = 0;

/// The plant as it came to the desk, and how many passes were made.
#[derive(Drop)]
pub struct Opening {
    pub plant: Snapshot<Plant>,
    pub passes: u32,
}

/// What one pass knows. No value of it is made.
pub struct Hand {
    pub plant: Plant,
    pub passes: u32,
    pub number: u32,
    pub seen: LinkedList<Deed>,
}

/// What a seat knows: the hands of its passes, and whether it has the turn. No value of it is made.
pub struct View {
    pub hands: LinkedList<Hand>,
    pub holds: bool,
}

/// The rule that each step keeps.
pub struct DeskRule;

impl TableRule<Option<Plant>, View, Opening> for DeskRule {
    ghost use Rattle.plant_desk.specs.Rule.{IsDesk, first_view};

    ghost holds = { λ about. IsDesk about.plant.value about.passes };

    ghost first = { λ about. first_view about.plant.value about.passes };
}

/// The words and the slot, as threads share them.
pub type Board = Shared<Option<Plant>, View, Opening, DeskRule>;

/// The same with its memory.
pub type Boards = Table<Option<Plant>, View, Opening, DeskRule, Global>;

/// What a pass steps with.
pub type Place = Seat<Option<Plant>, View>;
