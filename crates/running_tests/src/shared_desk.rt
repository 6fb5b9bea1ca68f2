ghost use Rattle.std.specs.Prelude.{◌≡◌, ◌≤◌, All, None, IfOk, OnOk, length};

use limiter_num::{Rating, Rules};
use plant_book::{Policy, Site, Unit};
use plant_desk::{Pass, PlantDesk};
use plant_ledger::Plant;
use std::alloc::Global;
use std::process::Abort;
use std::test::Fail;

mod desk_of;
mod threads;

/// The first book of two inverters of 6 kW with floors of 600 W.
fn plant(alloc: Global, room: u32) -> Result<Plant, Fail>
    requires { (1 ≤ room) × (room ≤ 1048576) }
    ensures { IfOk result (λ plant. (plant.carry ≡ None) × (length plant.site.units ≡ 2)) }
{
    let rules = Rules::new(1_000, 4_000, 60, 20, 500).ok().ok_or("rules")?;
    let rating = Rating::new(6_000, 0, -1).ok().ok_or("rating")?;
    let unit = Unit::new(rating, 100).ok().ok_or("unit")?;
    let units = vec![in alloc; unit, unit]?;
    let site = Site::new(10_000_000, rules, Policy::Open, room, units);
    Ok(Plant::open(alloc, site, 0).ok().ok_or("open")?)
}

/// A desk over such a plant, and its passes.
fn desk(alloc: Global, room: u32, count: u32) -> Result<(PlantDesk, Vec<Pass>), Fail>
    requires room { (1 ≤ room) × (room ≤ 1048576) }
    requires count { (1 ≤ count) × (count ≤ 65) }
    ensures of_desk { IfOk result (λ made. All (λ pass. pass.desk ≡ made.0) made.1.items) }
    ensures units { IfOk result (λ made. length made.0.book.site.units ≡ 2) }
{
    let plant = plant(alloc, room)?;
    Ok(PlantDesk::new(alloc, plant, count).ok().ok_or("memory")?)
}

/// One of the passes of a desk.
fn taken(desk: &PlantDesk, passes: &mut Vec<Pass>) -> Result<Pass, Fail>
    requires { All (λ pass. pass.desk ≡ desk.now) passes.old.items }
    ensures pass { IfOk result (λ pass. pass.desk ≡ desk.now) }
    ensures others { All (λ pass. pass.desk ≡ desk.now) passes.new.items }
{
    Ok(passes.pop().ok_or("a pass")?)
}

/// Hands a pass in.
fn hand_in(desk: &PlantDesk, passes: &mut Vec<Pass>, pass: Pass) -> Result<(), Fail>
    requires passes { All (λ pass. pass.desk ≡ desk.now) passes.old.items }
    requires pass { pass.desk ≡ desk.now }
    ensures { OnOk result (All (λ pass. pass.desk ≡ desk.now) passes.new.items) }
{
    Ok(passes.push(pass).ok().ok_or("memory")?)
}

/// The plant of a desk of which all passes are handed in.
fn closed(desk: PlantDesk, passes: Vec<Pass>) -> Result<Plant, Fail>
    requires { All (λ pass. pass.desk ≡ desk) passes.items }
{
    Ok(desk.close(passes).ok().ok_or("closed")?)
}

/// Sees that a desk isn't closed without one of its 65 passes, and hands it back with the others.
fn stays_open(rt: &impl Abort, desk: PlantDesk, passes: Vec<Pass>) -> (PlantDesk, Vec<Pass>)
    requires { All (λ pass. pass.desk ≡ desk) passes.items }
    ensures { (result.0 ≡ desk) × (result.1.items ≡ passes.items) }
{
    match desk.close(passes) {
        Ok(_) => panic!(rt; "closed"),
        Err(refused) => {
            assert_eq!(rt; (refused.passes.len(), refused.missing), (64, 1));
            (refused.desk, refused.passes)
        }
    }
}

#[test]
fn a_desk_is_closed_with_all_its_passes(rt: HostRuntime) -> Result<(), Fail> {
    let (desk, mut passes) = desk(rt.alloc(), 1, 65)?;
    let last = taken(&desk, &mut passes)?;
    assert_eq!(rt; last.number(), 65);
    let (desk, mut passes) = stays_open(&rt, desk, passes);
    hand_in(&desk, &mut passes, last)?;
    assert_eq!(rt; closed(desk, passes)?.calls(), 0);
    Ok(())
}
