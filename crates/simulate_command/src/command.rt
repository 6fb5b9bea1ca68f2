ghost use Rattle.std.specs.Prelude.{◌≡◌, ◌≤◌, IfOk};
ghost use Rattle.stream_io.specs.Streams.{change};
ghost use Rattle.simulate_command.specs.Simulate.{IsSimulated, IsSimulateDue, IsSimulateEnd};

use command_io::Ended;
use limiter_num::NoMemory;
use plant_simulator::{peaks_are_greatest, summary_text};
use std::alloc::Global;
use stream_io::write_whole;
use world_traits::Sink;

/// The greatest count of inverters of a simulation.
pub const INVERTERS_MAX: u64 = 64;

/// The greatest count of its steps.
pub const STEPS_MAX: u64 = 1_000_000;

const _: () = prove!(INVERTERS_MAX == 64 && STEPS_MAX == 1_000_000);

/// A plant to be simulated.
#[derive(Clone, Copy)]
pub struct Simulation {
    /// The seed from which all of it follows.
    pub seed: u64,
    /// How many inverters the plant has: 1 to 64.
    pub inverters: u32,
    /// How many steps it goes: 1 to 1,000,000.
    pub steps: u32,
}

/// The text of what a simulation comes to.
fn text_of(alloc: Global, simulation: Simulation) -> Result<Vec<u8>, NoMemory>
    requires some { 1 ≤ simulation.inverters }
    requires few { simulation.inverters ≤ 64 }
    requires steps_low { 1 ≤ simulation.steps }
    requires steps_high { simulation.steps ≤ 1000000 }
    ensures { IfOk result (λ text. IsSimulated simulation text.items) }
{
    peaks_are_greatest();
    let Simulation {
        seed,
        inverters,
        steps,
    } = simulation;
    let summary = plant_simulator::simulate(alloc, seed, inverters, steps)?;
    let mut text = Vec::new(alloc);
    summary_text(&mut text, seed, inverters, steps, &summary)?;
    Ok(text)
}

/// Simulates a plant, and writes the summary of what it comes to.
pub fn simulate<O: Sink>(alloc: Global, simulation: Simulation, out: &mut O) -> Ended
    requires some { 1 ≤ simulation.inverters }
    requires few { simulation.inverters ≤ 64 }
    requires steps_low { 1 ≤ simulation.steps }
    requires steps_high { simulation.steps ≤ 1000000 }
    ensures ends { IsSimulateEnd simulation result (change O.taken O.faults out.old out.new) }
    ensures due { IsSimulateDue result (change O.taken O.faults out.old out.new) }
    ensures nothing { (result ≡ Ended.Done → ⊥) → (result ≡ Ended.WriteFault → ⊥) → out.new ≡ out.old }
    ensures write_faults_stay { O.faults out.old ≤ O.faults out.new }
    ensures stops { O.faults out.old ≡ 0 → O.late out.new ≡ O.late out.old }
{
    let Ok(text) = text_of(alloc, simulation) else {
        return Ended::NoMemory;
    };
    match write_whole(out, &text) {
        Ok(()) => Ended::Done,
        Err(_) => Ended::WriteFault,
    }
}
