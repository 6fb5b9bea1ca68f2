//! The steps of one call on the table of a desk: take the turn with the plant, enter or roll, and give both
//! back.
ghost use Rattle.std.specs.Prelude.{◌≡◌, ◌<◌, ◌^◌, [], ◌∷◌, length, Option, Some, None, MatchBool};
ghost use Rattle.plant_book.specs.declared.book.Entry.{Entry};
ghost use Rattle.plant_book.specs.Part.{PartRecord};
ghost use Rattle.plant_desk.specs.declared.deed.Deed.TheVariants as deeds;
ghost use Rattle.plant_desk.specs.declared.board.Hand.{Hand};
ghost use Rattle.plant_desk.specs.Deeds.{front, base};
ghost use Rattle.plant_desk.specs.Rule.{IsBoard, Takes, TakesOut, HasOneMore, HasRolled, resting, holding, plant_of, told};

use crate::board::{BASE, Board, FRONT, PLANT, Place, TURN};
use crate::plays::{Cut, Give, Raise, SeeBase, SeeFront, Try};
use plant_ledger::{BookFull, Plant};
use std::sync::Wait;
use std::thread;

/// Tries to take the turn for the pass of this number.
fn try_turn(board: &Board, place: &mut Place, number: u32) -> bool
    requires board { IsBoard board.now.table_id }
    requires place { place.old.table_id ≡ board.now.table_id }
    requires rests { (one : Hand) × (place.old.me ≡ resting one) × (one.number ≡ number) }
    ensures same { place.new.table_id ≡ place.old.table_id }
    ensures taken { (one : Hand) → place.old.me ≡ resting one
        → MatchBool result (Takes one place.new.me) (place.new.me ≡ place.old.me) }
{
    board.compare_exchange::<Try>(place, TURN, 0, u64::from(number)) == 0
}

/// Takes the plant out of the slot.
fn take_plant(board: &Board, place: &mut Place) -> Plant
    requires place { place.old.table_id ≡ board.now.table_id }
    requires holds { (one : Hand) × (place.old.me ≡ holding one (Some (plant_of one))) }
    ensures same { place.new.table_id ≡ place.old.table_id }
    ensures taken { (one : Hand) → place.old.me ≡ holding one (Some (plant_of one))
        → (result ≡ plant_of one) × (place.new.me ≡ holding one None) }
{
    match board.exchange(place, PLANT, None) {
        Some(plant) => plant,
        None => unreachable!(),
    }
}

/// Waits for the turn, and takes it with the plant.
pub fn take_turn<R: Wait>(rt: &R, board: &Board, place: &mut Place, number: u32) -> Plant
    requires board { IsBoard board.now.table_id }
    requires place { place.old.table_id ≡ board.now.table_id }
    requires rests { (one : Hand) × (place.old.me ≡ resting one) × (one.number ≡ number) }
    ensures same { place.new.table_id ≡ place.old.table_id }
    ensures taken { (one : Hand) → place.old.me ≡ resting one → TakesOut one result place.new.me }
{
    for _ in rt.forever() {
        if try_turn(board, place, number) {
            return take_plant(board, place);
        }
        thread::yield_now();
    }
    unreachable!()
}

/// Puts a plant into the slot.
fn put_plant(board: &Board, place: &mut Place, plant: Plant)
    requires place { place.old.table_id ≡ board.now.table_id }
    requires holds { (one : Hand) × (place.old.me ≡ holding one None) }
    ensures same { place.new.table_id ≡ place.old.table_id }
    ensures put { (one : Hand) → place.old.me ≡ holding one None → place.new.me ≡ holding one (Some plant) }
{
    drop(board.exchange(place, PLANT, Some(plant)));
}

/// Gives the turn back.
fn give_turn(board: &Board, place: &mut Place)
    requires board { IsBoard board.now.table_id }
    requires place { place.old.table_id ≡ board.now.table_id }
    requires holds { (one : Hand) × (place.old.me ≡ holding one (Some (plant_of one))) }
    ensures same { place.new.table_id ≡ place.old.table_id }
    ensures given { (one : Hand) → place.old.me ≡ holding one (Some (plant_of one)) → place.new.me ≡ resting one }
{
    board.store::<Give>(place, TURN, 0);
}

/// Gives the turn back with the plant as it was taken.
pub fn give_back(board: &Board, place: &mut Place, plant: Plant)
    requires board { IsBoard board.now.table_id }
    requires place { place.old.table_id ≡ board.now.table_id }
    requires holds { (one : Hand) × (place.old.me ≡ holding one None) × (plant ≡ plant_of one) }
    ensures same { place.new.table_id ≡ place.old.table_id }
    ensures given { (one : Hand) → place.old.me ≡ holding one None → place.new.me ≡ resting one }
{
    put_plant(board, place, plant);
    give_turn(board, place);
}

/// How many calls the joined book has.
fn front_now(board: &Board, place: &mut Place) -> u64
    requires board { IsBoard board.now.table_id }
    requires place { place.old.table_id ≡ board.now.table_id }
    ensures same { (place.new.table_id ≡ place.old.table_id) × (place.new.me ≡ place.old.me) }
    ensures front { (one : Hand) (slot : Option PartRecord) → place.old.me ≡ holding one slot
        → result ≡ front one.plant one.seen }
{
    board.load::<SeeFront>(place, FRONT)
}

/// How many of them are before the current book.
fn base_now(board: &Board, place: &mut Place) -> u64
    requires board { IsBoard board.now.table_id }
    requires place { place.old.table_id ≡ board.now.table_id }
    ensures same { (place.new.table_id ≡ place.old.table_id) × (place.new.me ≡ place.old.me) }
    ensures base { (one : Hand) (slot : Option PartRecord) → place.old.me ≡ holding one slot
        → result ≡ base one.plant one.seen }
{
    board.load::<SeeBase>(place, BASE)
}

/// Raises the front by one, with the entry that the plant in the slot has more.
fn raise_front(board: &Board, place: &mut Place)
    requires board { IsBoard board.now.table_id }
    requires place { place.old.table_id ≡ board.now.table_id }
    requires holds { (one : Hand) × (plant : PartRecord) × (place.old.me ≡ holding one (Some plant))
        × HasOneMore one plant }
    ensures same { place.new.table_id ≡ place.old.table_id }
    ensures raised { (one : Hand) (plant : PartRecord) (more : HasOneMore one plant)
        → place.old.me ≡ holding one (Some plant)
        → place.new.me ≡ holding (told one (deeds.Entered one.number more.entry ∷ [])) (Some plant) }
{
    let front = front_now(board, place);
    board.store::<Raise>(place, FRONT, front + 1);
}

/// Sets the base to the front, with the roll of the plant in the slot.
fn cut_base(board: &Board, place: &mut Place)
    requires board { IsBoard board.now.table_id }
    requires place { place.old.table_id ≡ board.now.table_id }
    requires holds { (one : Hand) × (plant : PartRecord) × (place.old.me ≡ holding one (Some plant))
        × HasRolled one plant }
    ensures same { place.new.table_id ≡ place.old.table_id }
    ensures cut { (one : Hand) (plant : PartRecord) → place.old.me ≡ holding one (Some plant)
        → place.new.me ≡ holding (told one (deeds.Rolled one.number ∷ [])) (Some plant) }
{
    let front = front_now(board, place);
    board.store::<Cut>(place, BASE, front);
}

/// Gives the turn back with the plant after one more entry.
pub fn give_entered(board: &Board, place: &mut Place, plant: Plant)
    requires board { IsBoard board.now.table_id }
    requires place { place.old.table_id ≡ board.now.table_id }
    requires holds { (one : Hand) × (place.old.me ≡ holding one None) × HasOneMore one plant }
    ensures same { place.new.table_id ≡ place.old.table_id }
    ensures given { (one : Hand) (more : HasOneMore one plant) → place.old.me ≡ holding one None
        → place.new.me ≡ resting (told one (deeds.Entered one.number more.entry ∷ [])) }
{
    put_plant(board, place, plant);
    raise_front(board, place);
    give_turn(board, place);
}

/// Gives the turn back with the plant after a roll.
pub fn give_rolled(board: &Board, place: &mut Place, plant: Plant)
    requires board { IsBoard board.now.table_id }
    requires place { place.old.table_id ≡ board.now.table_id }
    requires holds { (one : Hand) × (place.old.me ≡ holding one None) × HasRolled one plant }
    ensures same { place.new.table_id ≡ place.old.table_id }
    ensures given { (one : Hand) → place.old.me ≡ holding one None
        → place.new.me ≡ resting (told one (deeds.Rolled one.number ∷ [])) }
{
    put_plant(board, place, plant);
    cut_base(board, place);
    give_turn(board, place);
}

/// How many calls the current book has.
pub fn calls_now(board: &Board, place: &mut Place) -> u64
    requires board { IsBoard board.now.table_id }
    requires place { place.old.table_id ≡ board.now.table_id }
    requires holds { (one : Hand) × (slot : Option PartRecord) × (place.old.me ≡ holding one slot) }
    ensures same { (place.new.table_id ≡ place.old.table_id) × (place.new.me ≡ place.old.me) }
    ensures calls { (one : Hand) (slot : Option PartRecord) → place.old.me ≡ holding one slot
        → result ≡ length (plant_of one).entries }
{
    let front = front_now(board, place);
    let base = base_now(board, place);
    front - base
}

/// Gives the turn back with the plant as it was taken, and tells how many calls its full book has.
pub fn refuse_full(board: &Board, place: &mut Place, plant: Plant) -> BookFull
    requires board { IsBoard board.now.table_id }
    requires place { place.old.table_id ≡ board.now.table_id }
    requires holds { (one : Hand) × (place.old.me ≡ holding one None) × (plant ≡ plant_of one) }
    requires few { length plant.entries < 2 ^ 32 }
    ensures same { place.new.table_id ≡ place.old.table_id }
    ensures given { (one : Hand) → place.old.me ≡ holding one None → place.new.me ≡ resting one }
    ensures calls { result.calls ≡ length plant.entries }
{
    let calls = calls_now(board, place);
    give_back(board, place, plant);
    BookFull {
        calls: calls as u32,
    }
}
