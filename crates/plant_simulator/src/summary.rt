ghost use Rattle.std.specs.Prelude.{◌≡◌, ◌+◌, ◌<◌, ◌≤◌, IfOk};
ghost use Rattle.plant_simulator.specs.World.{held_in};
ghost use Rattle.plant_simulator.specs.Summary.{plant_after, peak_after, summary_of};

use crate::simulation::Simulation;
use crate::site::CAP_EACH;
use limiter_num::NoMemory;
use std::alloc::Global;

/// What a simulation came to.
#[derive(Clone, Copy, Debug, PartialEq, Eq)]
pub struct Summary {
    /// The cap of the site, in mW.
    pub cap: u64,
    /// How many lives the plant had: one more than its restarts.
    pub lives: u32,
    /// How many Asks were granted, over all lives.
    pub granted: u32,
    /// How many live writes were freed by read-backs, over all lives.
    pub freed: u32,
    /// The greatest sum of the limits that were held at the beginning and at the ends of the steps, in mW.
    pub peak: u64,
}

/// Simulates so many steps of a plant of so many inverters: 1 to 64 inverters, and 1 to 1,000,000 steps. All of it
/// follows from the seed.
#[tactic(auto, unfolding(crate::specs::Summary::summary_of))]
pub fn simulate(alloc: Global, seed: u64, inverters: u32, steps: u32) -> Result<Summary, NoMemory>
    requires some { 1 ≤ inverters }
    requires few { inverters ≤ 64 }
    requires steps_low { 1 ≤ steps }
    requires steps_high { steps ≤ 1000000 }
    ensures summary { IfOk result (λ summary. summary ≡ summary_of seed inverters steps) }

    // As each inverter follows the timed device, all of them together never held more than the cap.
    ensures under_the_cap { IfOk result (λ summary. summary.peak ≤ summary.cap) }
{
    let mut simulation = Simulation::begin(alloc, seed, inverters)?;
    let mut peak = simulation.held();
    for _step in 0..steps {
        simulation.step()?;
        peak = peak.max(simulation.held());
    }
    Ok(Summary {
        cap: u64::from(inverters) * CAP_EACH,
        lives: simulation.life(),
        granted: simulation.granted(),
        freed: simulation.freed(),
        peak,
    })
}
