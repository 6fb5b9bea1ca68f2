use limiter_num::{Rating, Rules};
use plant_book::{Call, Policy, Reply, Site, Unit};
use restart_silence::*;
use std::alloc::Global;
use std::process::Abort;
use std::test::Fail;

/// The first life, from 0 ms on, of two inverters of 6 kW with floors of 600 W.
fn begun(alloc: Global) -> Option<Lives> {
    let rules = Rules::new(1_000, 4_000, 60, 20, 500).ok()?;
    let rating = Rating::new(6_000, 0, -1).ok()?;
    let unit = Unit::new(rating, 100).ok()?;
    let units = vec![in alloc; unit, unit].ok()?;
    let site = Site::new(10_000_000, rules, Policy::Open, 1_000, units);
    Lives::begin(alloc, site, 0).ok()
}

/// The reply to a call of a test on the first inverter of one.
fn reply(rt: &impl Abort, lives: &mut Lives, call: Call) -> Option<Reply> {
    assert!(rt; call.at() <= 1_000_000_000_000_000);
    assert!(rt; call.is_in_range());
    if let Some(inverter) = call.inverter() {
        assert!(rt; usize::from(inverter) < lives.plant().site().units.len());
    }
    Some(lives.apply(call).ok()?.reply)
}

fn link(rt: &impl Abort, lives: &mut Lives, at: u64) -> Option<Reply> {
    reply(rt, lives, Call::Link { at, inverter: 0 })
}

/// The reply to an Ask for all that the first inverter can give.
fn ask(rt: &impl Abort, lives: &mut Lives, at: u64) -> Option<Reply> {
    let call = Call::Ask {
        at,
        inverter: 0,
        raw: 1_000,
    };
    reply(rt, lives, call)
}

#[test]
fn a_restart_at_the_last_moment_hands_the_book_back(rt: HostRuntime) -> Result<(), Fail> {
    let mut lives = begun(rt.alloc()).ok_or("begin")?;
    assert_eq!(rt; link(&rt, &mut lives, 66_701), Some(Reply::Linked(1)));
    let early = lives.restart(rt.alloc(), 66_700);
    assert!(rt; matches!(early, Err(RestartFault::TimeBack(66_701))));
    let ended = lives.restart(rt.alloc(), 66_701).ok().ok_or("restart")?;
    assert_eq!(rt; (ended.calls(), lives.plant().calls()), (1, 0));
    Ok(())
}

#[test]
fn a_restart_is_silent_until_earlier_writes_are_past(rt: HostRuntime) -> Result<(), Fail> {
    let mut lives = begun(rt.alloc()).ok_or("begin")?;
    assert_eq!(rt; link(&rt, &mut lives, 0), Some(Reply::Linked(1)));
    let granted = ask(&rt, &mut lives, 66_701);
    assert!(rt; matches!(granted, Some(Reply::Granted(_))));
    let ended = lives.restart(rt.alloc(), 80_000).ok().ok_or("restart")?;
    assert_eq!(rt; ended.total(), 6_600_000);
    assert_eq!(rt; link(&rt, &mut lives, 80_000), Some(Reply::Linked(1)));
    assert_eq!(rt; ask(&rt, &mut lives, 146_700), Some(Reply::Silent(146_700)));
    let granted = ask(&rt, &mut lives, 146_701);
    assert!(rt; matches!(granted, Some(Reply::Granted(write)) if write.at == 146_701));
    Ok(())
}
