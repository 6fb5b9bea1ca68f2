ghost use Rattle.std.specs.Prelude.{◌≡◌, ◌+◌, ◌≤◌, ℕ};
ghost use Rattle.limiter_num.specs.Timers.{tmin, tmax, last_act};
ghost use Rattle.plant_simulator.specs.Site.{rules, unit};
ghost use Rattle.plant_simulator.specs.Summary.{plant_after, peak_after};
ghost use Rattle.plant_simulator.specs.Peak.{IsPeak};
ghost use Rattle.plant_simulator.specs.Devices.{ended_after, AreDevices};

/// The peak of a summary is the greatest sum of the limits that were held: it was held at the beginning or at the
/// end of a step, and no more was held at any of these moments.
pub fn peaks_are_greatest()
    ensures { (seed count steps : ℕ) → IsPeak seed count steps (peak_after seed count steps) }
{}

/// Whatever was lost, repeated, late or out of order, each inverter of a simulation followed the timed device over
/// the books that were made: so what the ledger promises of such inverters holds of it. This is said of 1 to 64
/// inverters and of the plant behind any count of steps up to 1,000,000.
pub fn inverters_follow_the_device()
    ensures { (seed count steps : ℕ) → 1 ≤ count → count ≤ 64 → steps ≤ 1000000
        → AreDevices count (ended_after seed count steps) (plant_after seed count steps) }
{}

/// The numbers by which an inverter is simulated are those of the site: how long after its grant a write may act, how
/// long after an act its revert comes, and the floor.
pub fn numbers_are_those_of_the_site()
    ensures act { (at : ℕ) → last_act rules at ≡ at + 5000 }
    ensures shortest { tmin rules ≡ 58300 }
    ensures longest { tmax rules ≡ 61700 }
    ensures floor { unit.floor ≡ 100 }
{}
