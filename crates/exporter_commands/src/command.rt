ghost use Rattle.std.specs.Prelude.{◌≡◌, List, [], ◌∷◌, IfNone, IfSome, map};
ghost use Rattle.std.specs.String.{string_bytes};
ghost use Rattle.simulate_command.specs.declared.command.Simulation.{Simulation};
ghost use Rattle.exporter_commands.specs.Words.{AreCheck, AreNested, AreReplay, AreSimulate, Asks};

use crate::words::number_of;
use simulate_command::{INVERTERS_MAX, STEPS_MAX, Simulation};

/// What is to be done with an input and an output.
#[derive(Clone, Copy)]
pub enum Command {
    /// Replays a script.
    Replay,
    /// Replays a script of one life under the caps of buses.
    Nested,
    /// Checks a site file.
    Check,
    /// Simulates a plant.
    Simulate(Simulation),
}

/// The command of one word.
fn command_of_one(name: &str) -> Option<Command>
    ensures some { IfSome result (Asks (name.now ∷ [])) }
    ensures no_replay { IfNone result (AreReplay (name.now ∷ []) → ⊥) }
    ensures no_nested { IfNone result (AreNested (name.now ∷ []) → ⊥) }
    ensures no_check { IfNone result (AreCheck (name.now ∷ []) → ⊥) }
{
    match name {
        "replay" => Some(Command::Replay),
        "nested" => Some(Command::Nested),
        "check" => Some(Command::Check),
        _ => None,
    }
}

/// The simulation of four words.
fn simulation_of(name: &str, seed: &str, inverters: &str, steps: &str) -> Option<Simulation>
    ensures some { IfSome result
        (AreSimulate (name.now ∷ seed.now ∷ inverters.now ∷ steps.now ∷ [])) }
    ensures none { IfNone result ((simulation : Simulation)
        → AreSimulate (name.now ∷ seed.now ∷ inverters.now ∷ steps.now ∷ []) simulation → ⊥) }
{
    if name != "simulate" {
        return None;
    }
    let seed = number_of(seed, 0, u64::MAX)?;
    let inverters = number_of(inverters, 1, INVERTERS_MAX)?;
    let steps = number_of(steps, 1, STEPS_MAX)?;
    Some(Simulation {
        seed,
        inverters: inverters as u32,
        steps: steps as u32,
    })
}

/// The command that the words ask for.
pub fn command_of(words: &Vec<String>) -> Option<Command>
    ensures some { IfSome result (Asks (map string_bytes words.now.items)) }
    ensures no_replay { IfNone result (AreReplay (map string_bytes words.now.items) → ⊥) }
    ensures no_nested { IfNone result (AreNested (map string_bytes words.now.items) → ⊥) }
    ensures no_check { IfNone result (AreCheck (map string_bytes words.now.items) → ⊥) }
    ensures no_simulation { IfNone result ((simulation : Simulation)
        → AreSimulate (map string_bytes words.now.items) simulation → ⊥) }
{
    match words.as_slice() {
        [name] => command_of_one(name.as_str()),
        [name, seed, inverters, steps] => {
            simulation_of(
                name.as_str(),
                seed.as_str(),
                inverters.as_str(),
                steps.as_str(),
            )
            .map(Command::Simulate)
        }
        _ => None,
    }
}
