ghost use Rattle.std.specs.Prelude.{◌≡◌, ◌+◌, ◌-◌, ◌<◌, ◌≤◌, ◌↔◌, [], ◌∷◌, ◌++◌, List, All, map, false, vec_len, length, Some, IfOk, IfErr, IsOk};
ghost use Rattle.atomic_table.specs.Seated.{TableId};
ghost use Rattle.plant_desk.specs.Passes.{IsClosed, PassRecord};
ghost use Rattle.plant_desk.specs.Kept.{as_hand};
ghost use Rattle.plant_desk.specs.Rule.{IsBoard, IsOver};

use crate::board::{Board, FRONT, PLANT, Place};
use crate::desk::PlantDesk;
use crate::pass::Pass;
use crate::plays::{Come, Merge};
use plant_ledger::Plant;

/// Some passes of the desk weren't handed in. All is handed back.
#[derive(Drop)]
pub struct CloseRefused {
    /// The desk, which goes on.
    pub desk: PlantDesk,
    /// The passes that were handed in.
    pub passes: Vec<Pass>,
    /// How many were not.
    pub missing: u32,
}

/// One seat with all these passes.
fn merge(board: &Board, mut passes: Vec<Pass>) -> Place
    requires board { IsBoard board.now.table_id }
    requires passes { All (λ pass. pass.desk.name ≡ board.now.table_id) passes.items }
    ensures same { result.table_id ≡ board.now.table_id }
    ensures all { result.me ≡ (record { hands = map as_hand passes.items; holds = false }, []) }
{
    let (_, mut all) = board.load_new_seat::<Come>(FRONT);
    while let Some(pass) = passes.pop() {
        let Pass { place, .. } = pass;
        board.join_seat::<Merge>(&mut all, place);
    }
    all
}

/// The plant out of a desk that no thread shares any more.
fn take_out(desk: PlantDesk, place: Place) -> Plant
    requires place { place.table_id ≡ desk.name }
    requires free { place.me.0.holds ≡ false }
    requires all { desk.passes ≤ length place.me.0.hands }
    ensures { IsOver desk.book desk.passes place.me.0.hands (Some result) }
{
    let PlantDesk { boards, passes: _ } = desk;
    let mut closed = boards.close_with(place);
    let slot = closed.take(PLANT);
    closed.free();
    match slot {
        Some(plant) => plant,
        None => unreachable!(),
    }
}

impl PlantDesk {
    /// Ends the desk, and hands the plant back. It is refused where a pass wasn't handed in.
    pub fn close(self, passes: Vec<Pass>) -> Result<Plant, CloseRefused>
        requires of_desk { All (λ pass. pass.desk ≡ self) passes.items }
        ensures closed { IfOk result (λ plant. IsClosed self passes.items plant) }
        ensures all { IsOk result ↔ (self.passes ≤ vec_len passes) }
        ensures refused { IfErr result (λ refused. (refused.desk ≡ self) × (refused.passes.items ≡ passes.items)
            × (refused.missing + vec_len passes ≡ self.passes) × (0 < refused.missing)) }
    {
        let handed = passes.len();
        let made = self.passes;
        if handed < made as usize {
            return Err(CloseRefused {
                desk: self,
                passes,
                missing: made - handed as u32,
            });
        }
        let place = merge(&self.boards.shared, passes);
        Ok(take_out(self, place))
    }
}
