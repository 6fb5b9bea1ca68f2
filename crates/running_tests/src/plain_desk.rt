use ledger_desk::*;
use limiter_num::{Rating, Rules};
use plant_book::{Call, Policy, Site, Unit};
use plant_ledger::Plant;
use std::alloc::Global;
use std::test::Fail;

/// The desk of a plant of one inverter.
fn desk(alloc: Global) -> Result<PlainDesk, Fail> {
    let rules = Rules::new(1_000, 4_000, 60, 20, 500).ok().ok_or("rules")?;
    let rating = Rating::new(6_000, 0, -1).ok().ok_or("rating")?;
    let unit = Unit::new(rating, 100).ok().ok_or("unit")?;
    let site = Site::new(10_000_000, rules, Policy::Open, 2, vec![in alloc; unit]?);
    let plant = Plant::open(alloc, site, 0).ok().ok_or("plant")?;
    Ok(PlainDesk::new(alloc, plant))
}

#[test]
fn a_full_book_is_rolled_and_handed_out(rt: HostRuntime) -> Result<(), Fail> {
    let mut desk = desk(rt.alloc())?;
    for _ in 0..2 {
        assert!(rt; desk.call(Call::Tick { at: 7 }).is_ok());
    }
    assert!(rt; desk.call(Call::Tick { at: 7 }).is_err());
    let ended = desk.roll(rt.alloc()).ok().ok_or("roll")?;
    assert_eq!(rt; ended.entries.len(), 2);
    assert!(rt; desk.call(Call::Tick { at: 7 }).is_ok());
    assert_eq!(rt; desk.into_plant().calls(), 1);
    Ok(())
}
