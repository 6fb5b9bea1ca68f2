ghost use Rattle.std.specs.Prelude.{◌≡◌, ◌+◌, ◌<◌, ◌≤◌, [], ◌∷◌, List, All, map, false, None, IfOk};
ghost use Rattle.plant_ledger.specs.Plant.{IsKept};
ghost use Rattle.plant_desk.specs.declared.board.Hand.{Hand};
ghost use Rattle.plant_desk.specs.Hands.{first_view, hand};
ghost use Rattle.plant_desk.specs.Passes.{IsNewDesk, new_pass};

use crate::board::{Opening, Place};
use crate::desk::PlantDesk;
use crate::pass::Pass;
use crate::plays::Part;
use atomic_table::Table;
use limiter_num::NoMemory;
use plant_ledger::Plant;
use std::alloc::Global;
use std::snapshot::Snapshot;

/// How many passes a desk has at most.
pub const PASSES_MAX: u32 = 65;

const _: () = prove!(PASSES_MAX == 65);

/// A table with the plant, and the seat that has all passes.
fn lay(alloc: Global, plant: Plant, passes: u32) -> Result<(PlantDesk, Place), NoMemory>
    requires { plant.carry ≡ None }
    ensures desk { IfOk result (λ laid. (laid.0.book ≡ plant) × (laid.0.passes ≡ passes)) }
    ensures place { IfOk result (λ laid. (laid.1.table_id ≡ laid.0.name)
        × (laid.1.me ≡ (first_view plant passes, []))) }
{
    let calls = u64::from(plant.calls());
    let about = Opening {
        plant: Snapshot::of(&plant),
        passes,
    };
    let Ok(mut slots) = Vec::with_capacity(alloc, 1) else {
        return Err(NoMemory);
    };
    slots.push_reserved(Some(plant));
    match Table::new(alloc, &[calls, 0, 0], slots, &about) {
        Ok((boards, place)) => Ok((PlantDesk { boards, passes }, place)),
        Err(_) => Err(NoMemory),
    }
}

/// Parts the pass of this number from the others.
fn part(desk: &PlantDesk, place: &mut Place, number: u32) -> Pass
    requires desk { place.old.table_id ≡ desk.now.name }
    requires first { (others : List Hand) × (place.old.me
        ≡ (record { hands = hand desk.now.book desk.now.passes number [] ∷ others; holds = false }, [])) }
    ensures pass { result ≡ new_pass desk.now number }
    ensures same { place.new.table_id ≡ place.old.table_id }
    ensures others { (others : List Hand) → place.old.me
        ≡ (record { hands = hand desk.now.book desk.now.passes number [] ∷ others; holds = false }, [])
        → place.new.me ≡ (record { hands = others; holds = false }, []) }
{
    let place = desk.boards.shared.split_seat::<Part>(place);
    Pass { number, place }
}

impl PlantDesk {
    /// A desk with a plant on the first book of its life, and its passes. At `NoMemory` the plant is dropped.
    pub fn new(alloc: Global, plant: Plant, passes: u32) -> Result<(PlantDesk, Vec<Pass>), NoMemory>
        requires some { 1 ≤ passes }
        requires few { passes ≤ PASSES_MAX }
        requires first { plant.carry ≡ None }
        ensures made { IfOk result (λ made. IsNewDesk plant passes made.0 made.1.items) }
        ensures of_desk { IfOk result (λ made. All (λ pass. pass.desk ≡ made.0) made.1.items) }
    {
        let Ok(mut made) = Vec::with_capacity(alloc, passes as usize) else {
            return Err(NoMemory);
        };
        let (desk, mut place) = lay(alloc, plant, passes)?;
        for before in 0..passes {
            made.push_reserved(part(&desk, &mut place, before + 1));
        }
        Ok((desk, made))
    }
}
