use plant_simulator::*;
use std::alloc::Global;
use std::process::Abort;
use std::test::Fail;

/// The text of a simulation.
fn text(
    rt: &impl Abort,
    alloc: Global,
    seed: u64,
    inverters: u32,
    steps: u32,
) -> Result<Vec<u8>, Fail> {
    assert!(rt; (1..=64).contains(&inverters));
    assert!(rt; (1..=1_000_000).contains(&steps));
    let summary = simulate(alloc, seed, inverters, steps)
        .ok()
        .ok_or("memory")?;
    let mut text = Vec::new(alloc);
    assert_eq!(rt;
        summary_text(&mut text, seed, inverters, steps, &summary),
        Ok(())
    );
    Ok(text)
}

#[test]
fn a_thousand_steps_of_four_inverters_are_the_same_twice(rt: HostRuntime) -> Result<(), Fail> {
    let once = text(&rt, rt.alloc(), 7, 4, 1_000)?;
    let wanted =
        b"seed 7 inverters 4 steps 1000\ncap 12000000\nlives 1\ngranted 171\nfreed 80\npeak 8604000\n";
    assert_eq!(rt; once.as_slice(), wanted.as_slice());
    let again = text(&rt, rt.alloc(), 7, 4, 1_000)?;
    assert_eq!(rt; again.as_slice(), wanted.as_slice());
    Ok(())
}

#[test]
fn a_restarted_plant_comes_up_to_its_cap(rt: HostRuntime) -> Result<(), Fail> {
    let summary = simulate(rt.alloc(), 5, 3, 20_000).ok().ok_or("memory")?;
    let wanted = Summary {
        cap: 9_000_000,
        lives: 20,
        granted: 3_321,
        freed: 1_548,
        peak: 9_000_000,
    };
    assert_eq!(rt; summary, wanted);
    Ok(())
}

/// Nothing is granted in so few steps, and the floors are all that is held.
fn holds_its_floors(rt: &impl Abort, alloc: Global, seed: u64, inverters: u32, steps: u32) {
    assert!(rt; (1..=64).contains(&inverters));
    assert!(rt; (1..=33).contains(&steps));
    if let Ok(summary) = simulate(alloc, seed, inverters, steps) {
        assert_eq!(rt; (summary.granted, summary.freed), (0, 0));
        assert_eq!(rt; summary.peak, u64::from(inverters) * 600_000);
    }
}

#[test]
fn the_silence_outlasts_thirty_three_steps(rt: HostRuntime) {
    for seed in 0..20 {
        for steps in 1..34 {
            holds_its_floors(&rt, rt.alloc(), seed, 3, steps);
        }
    }
    holds_its_floors(&rt, rt.alloc(), u64::MAX, 1, 33);
    holds_its_floors(&rt, rt.alloc(), 3, 64, 33);
}

#[test]
fn a_full_plant_runs_for_long(rt: HostRuntime) -> Result<(), Fail> {
    let summary = simulate(rt.alloc(), 7, 64, 100_000).ok().ok_or("memory")?;
    assert_eq!(rt; summary.cap, 192_000_000);
    // A step restarts the controller once in 1,024 times.
    assert!(rt; summary.lives > 60 && summary.lives < 140);
    assert!(rt; summary.freed <= summary.granted && summary.granted > 0);
    assert!(rt; summary.peak > 38_400_000 && summary.peak <= summary.cap);
    Ok(())
}
