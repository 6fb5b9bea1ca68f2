ghost use Rattle.std.specs.Prelude.{◌≡◌, ◌<◌, ◌^◌, IfSome, length, vec_len};

use limiter_num::{Rating, Rules};
use plant_book::{Call, MOMENT_MAX, Policy, Read, Reply, Site, Unit, Write};
use plant_ledger::{BookFull, Goal, OpenFault, Plant, RollFault, Ticket};
use std::alloc::Global;
use std::process::Abort;
use std::test::Fail;

/// An inverter of 6 kW with a floor of so many tenths of a percent.
fn unit(floor: u16) -> Option<Unit> {
    let rating = Rating::new(6_000, 0, -1).ok()?;
    Unit::new(rating, floor).ok()
}

fn rules() -> Option<Rules> {
    Rules::new(1_000, 4_000, 60, 20, 500).ok()
}

/// So many inverters with floors of 600 W.
fn units(alloc: Global, count: usize) -> Option<Vec<Unit>>
    ensures { IfSome result (λ units. vec_len units ≡ count) }
{
    let unit = unit(100)?;
    vec![in alloc; unit; count].ok()
}

/// A site of so many inverters.
fn site_of(units: Vec<Unit>, cap: u64, policy: Policy, room: u32) -> Option<Site>
    requires units { vec_len units < 2 ^ 32 }
    ensures { IfSome result (λ site. site.units ≡ units.items) }
{
    let rules = rules()?;
    if cap > 100_000_000_000_000 || room == 0 || room > 1_048_576 {
        return None;
    }
    Some(Site::new(cap, rules, policy, room, units))
}

/// A plant of two inverters of 6 kW with floors of 600 W, from 0 ms on.
fn opened(alloc: Global, cap: u64, policy: Policy, room: u32) -> Option<Plant>
    ensures { IfSome result (λ plant. length plant.site.units ≡ 2) }
{
    let site = site_of(units(alloc, 2)?, cap, policy, room)?;
    Plant::open(alloc, site, 0).ok()
}

/// Enters a call of a test.
fn enter(rt: &impl Abort, plant: &mut Plant, call: Call) -> Result<Reply, BookFull> {
    assert!(rt; call.at() <= MOMENT_MAX);
    assert!(rt; call.is_in_range());
    if let Some(inverter) = call.inverter() {
        assert!(rt; usize::from(inverter) < plant.site().units.len());
    }
    plant.apply(call).map(|outcome| outcome.reply)
}

/// How a site of so many inverters with this cap is refused.
fn fault(alloc: Global, count: u8, cap: u64) -> Option<OpenFault> {
    let site = site_of(units(alloc, usize::from(count))?, cap, Policy::Open, 1)?;
    Plant::open(alloc, site, 0).err()
}

#[test]
fn a_site_is_refused_by_its_first_fault(rt: HostRuntime) {
    let faults = [
        (2, 1_199_999, Some(OpenFault::FloorsOverCap(1_200_000))),
        (0, 0, Some(OpenFault::NoInverter)),
        (65, 0, Some(OpenFault::TooManyInverters(65))),
        (2, 1_200_000, None),
    ];
    for (count, cap, refused) in faults {
        assert_eq!(rt; fault(rt.alloc(), count, cap), refused);
    }
}

/// The ticket of a grant to the second inverter, which has no link yet.
fn ticket_of(rt: &impl Abort, plant: &mut Plant) -> Option<Ticket> {
    let link = Call::Link { at: 0, inverter: 1 };
    assert_eq!(rt; enter(rt, plant, link), Ok(Reply::Linked(1)));
    let asked = Call::Ask {
        at: 66_701,
        inverter: 1,
        raw: 1_000,
    };
    assert!(rt; plant.site().units.len() == 2);
    let outcome = plant.apply(asked).ok()?;
    outcome.ticket
}

#[test]
fn a_grant_comes_with_the_one_ticket_of_its_write(rt: HostRuntime) -> Result<(), Fail> {
    let mut plant = opened(rt.alloc(), 10_000_000, Policy::Open, 2).ok_or("open")?;
    let ticket = ticket_of(&rt, &mut plant).ok_or("ticket")?;
    let write = ticket.write();
    assert_eq!(rt; (write.inverter, write.raw), (1, 1_000));
    assert_eq!(rt; ticket.spend(), write);
    assert!(rt; plant.site().units.len() == 2);
    assert_eq!(rt; plant.reserved(1), 6_000_000);
    assert_eq!(rt;
        (plant.calls(), plant.start(), plant.latest()),
        (2, 0, 66_701)
    );
    let tick = Call::Tick { at: 0 };
    assert_eq!(rt; enter(&rt, &mut plant, tick), Err(BookFull { calls: 2 }));
    Ok(())
}

#[test]
fn a_released_ticket_gives_its_watts_back(rt: HostRuntime) -> Result<(), Fail> {
    let mut plant = opened(rt.alloc(), 10_000_000, Policy::Open, 3).ok_or("open")?;
    let ticket = ticket_of(&rt, &mut plant).ok_or("ticket")?;
    assert!(rt; plant.site().units.len() == 2);
    assert!(rt; usize::from(ticket.write().inverter) < plant.site().units.len());
    assert!(rt; matches!(plant.release(ticket, 66_800), Ok(Reply::Taken)));
    assert_eq!(rt; (plant.total(), plant.unreserved()), (1_200_000, 8_800_000));
    assert_eq!(rt; plant.entry(0).call, Call::Link { at: 0, inverter: 1 });
    Ok(())
}

#[test]
fn a_plant_that_shares_has_its_share_as_its_goal(rt: HostRuntime) -> Result<(), Fail> {
    let plant = opened(rt.alloc(), 10_000_000, Policy::Fair, 1_000).ok_or("open")?;
    let goal = Goal {
        raw: 833,
        reserved: 600_000,
        stop: false,
    };
    assert_eq!(rt; plant.site().units.len(), 2);
    assert_eq!(rt; plant.goal(0), goal);
    Ok(())
}

/// Rolls the book of a test, which has so many calls.
fn roll(rt: &impl Abort, alloc: Global, plant: &mut Plant, calls: usize) {
    match plant.roll(alloc) {
        Ok(ended) => {
            let entries = &ended.entries;
            assert_eq!(rt; entries.len(), calls);
        }
        Err(fault) => assert_ne!(rt; fault, RollFault::NoMemory),
    }
    assert_eq!(rt; plant.calls(), 0);
}

#[test]
fn a_lowered_cap_is_the_ceiling_past_its_reach_over_a_roll(rt: HostRuntime) -> Result<(), Fail> {
    let mut plant = opened(rt.alloc(), 10_000_000, Policy::Open, 2).ok_or("open")?;
    let _ticket = ticket_of(&rt, &mut plant).ok_or("ticket")?;
    roll(&rt, rt.alloc(), &mut plant, 2);
    assert!(rt; matches!(plant.carry(), Some(carry) if carry.calls == 2 && carry.last == 66_701));
    let (cap, ceiling) = (5_000_000, 6_600_000);
    let lowered = Call::Cap {
        at: 70_000,
        mw: cap,
    };
    let set = Reply::CapSet { cap, ceiling };
    assert_eq!(rt; enter(&rt, &mut plant, lowered), Ok(set));
    roll(&rt, rt.alloc(), &mut plant, 1);
    for (at, ceiling) in [(136_700, ceiling), (136_701, cap)] {
        let tick = Call::Tick { at };
        assert_eq!(rt; enter(&rt, &mut plant, tick), Ok(Reply::Total(1_200_000)));
        assert_eq!(rt; (plant.cap(), plant.ceiling()), (cap, ceiling));
    }
    Ok(())
}

#[test]
fn a_link_has_65_535_requests(rt: HostRuntime) -> Result<(), Fail> {
    let mut plant = opened(rt.alloc(), 10_000_000, Policy::Open, 100_000).ok_or("open")?;
    let link = Call::Link { at: 0, inverter: 0 };
    let asked = Call::Read { at: 0, inverter: 0 };
    assert_eq!(rt; enter(&rt, &mut plant, link), Ok(Reply::Linked(1)));
    for number in 1..=65_535 {
        let reply = enter(&rt, &mut plant, asked);
        assert!(rt; matches!(reply, Ok(Reply::ReadAs(read)) if read.number == number));
    }
    assert_eq!(rt; enter(&rt, &mut plant, asked), Ok(Reply::Spent));
    assert_eq!(rt; enter(&rt, &mut plant, link), Ok(Reply::Linked(2)));
    let reply = enter(&rt, &mut plant, asked);
    assert!(rt; matches!(reply, Ok(Reply::ReadAs(read)) if read.number == 1));
    Ok(())
}

#[test]
fn a_call_costs_the_same_in_a_long_book(rt: HostRuntime) -> Result<(), Fail> {
    let room = 1_048_576;
    let mut plant = opened(rt.alloc(), 10_000_000, Policy::Open, room).ok_or("open")?;
    for _ in 0..room {
        let reply = enter(&rt, &mut plant, Call::Tick { at: 0 });
        assert_eq!(rt; reply, Ok(Reply::Total(1_200_000)));
    }
    assert_eq!(rt; plant.calls(), room);
    Ok(())
}

/// Asks for a write at these moments, and gives each back at once. Answers whether all were granted and taken.
fn ask_and_give_back(rt: &impl Abort, plant: &mut Plant, from: u64, count: u64) -> bool {
    let mut all = true;
    for step in 0..count {
        let at = from.saturating_add(step);
        let ask = Call::Ask {
            at,
            inverter: 0,
            raw: 1_000,
        };
        let Ok(Reply::Granted(write)) = enter(rt, plant, ask) else {
            return false;
        };
        let back = Call::Back {
            at,
            inverter: 0,
            link: write.link,
            number: write.number,
        };
        all = all && enter(rt, plant, back) == Ok(Reply::Taken);
    }
    all
}

#[test]
fn writes_given_back_take_no_place(rt: HostRuntime) -> Result<(), Fail> {
    let mut plant = opened(rt.alloc(), 10_000_000, Policy::Open, 10_000).ok_or("open")?;
    let link = Call::Link { at: 0, inverter: 0 };
    assert_eq!(rt; enter(&rt, &mut plant, link), Ok(Reply::Linked(1)));
    assert!(rt; ask_and_give_back(&rt, &mut plant, 66_701, 2_100));
    assert_eq!(rt; plant.total(), 1_200_000);
    let ask = Call::Ask {
        at: 70_000,
        inverter: 0,
        raw: 1_000,
    };
    assert!(rt; matches!(enter(&rt, &mut plant, ask), Ok(Reply::Granted(_))));
    assert_eq!(rt; plant.total(), 6_600_000);
    Ok(())
}

mod plain;
