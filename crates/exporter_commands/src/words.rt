ghost use Rattle.exporter_commands.specs.declared.words.Task.{Task};
ghost use Rattle.std.specs.Prelude.{◌≡◌, ◌<◌, ◌≤◌, ◌^◌, ℕ, List, [], ◌∷◌, codes, IfNone, IfSome, map};
ghost use Rattle.std.specs.String.{string_bytes};
ghost use Rattle.std.specs.Fmt.{decimal};
ghost use Rattle.exporter_commands.specs.Words.{AreRun, Ask};

use itoa::Buffer;

/// The greatest number of an inverter.
const INVERTER_MAX: u64 = 63;

/// The greatest count of turns.
const TURNS_MAX: u64 = 1_000_000;

/// What is to be done over links.
#[derive(Clone, Copy)]
pub enum Task {
    /// Commissions the inverter of this number.
    Commission { inverter: u8 },
    /// Serves a simulation of the inverter of this number, for so many turns.
    Serve { inverter: u8, turns: u32 },
}

/// The number that a word is: decimal, without a sign or a leading zero.
fn plain_number(word: &str) -> Option<u64>
    ensures some { IfSome result (λ number. (word.now ≡ decimal number) × (number < 2 ^ 64)) }
    ensures none { IfNone result ((number : ℕ) → number < 2 ^ 64 → word.now ≡ decimal number → ⊥) }
{
    let Ok(number) = word.parse::<u64>() else {
        return None;
    };
    if Buffer::new().format(number) == word {
        Some(number)
    } else {
        None
    }
}

/// The number in this range that a word is.
pub fn number_of(word: &str, least: u64, most: u64) -> Option<u64>
    ensures some { IfSome result (λ number.
        (word.now ≡ decimal number) × (least ≤ number) × (number ≤ most)) }
    ensures none { IfNone result ((number : ℕ)
        → least ≤ number → number ≤ most → word.now ≡ decimal number → ⊥) }
{
    match plain_number(word) {
        Some(number) if least <= number && number <= most => Some(number),
        _ => None,
    }
}

/// The number of an inverter that a word is.
fn inverter_of(word: &str) -> Option<u8>
    ensures some { IfSome result (λ inverter. (word.now ≡ decimal inverter) × (inverter ≤ 63)) }
    ensures none { IfNone result ((inverter : ℕ) → inverter ≤ 63 → word.now ≡ decimal inverter → ⊥) }
{
    match number_of(word, 0, INVERTER_MAX) {
        Some(number) => Some(number as u8),
        None => None,
    }
}

/// The task of two words.
fn task_of_two(name: &str, inverter: &str) -> Option<Task>
    ensures some { IfSome result (Ask (name.now ∷ inverter.now ∷ [])) }
    ensures none { IfNone result ((task : Task) → Ask (name.now ∷ inverter.now ∷ []) task → ⊥) }
{
    if name != "commission" {
        return None;
    }
    match inverter_of(inverter) {
        Some(inverter) => Some(Task::Commission { inverter }),
        None => None,
    }
}

/// The task of three words.
fn task_of_three(name: &str, inverter: &str, turns: &str) -> Option<Task>
    ensures some { IfSome result (Ask (name.now ∷ inverter.now ∷ turns.now ∷ [])) }
    ensures none { IfNone result ((task : Task) → Ask (name.now ∷ inverter.now ∷ turns.now ∷ []) task → ⊥) }
{
    if name != "serve" {
        return None;
    }
    match (inverter_of(inverter), number_of(turns, 1, TURNS_MAX)) {
        (Some(inverter), Some(turns)) => {
            let turns = turns as u32;
            Some(Task::Serve { inverter, turns })
        }
        _ => None,
    }
}

/// How many turns each worker makes in the run of two words.
fn turns_of(name: &str, turns: &str) -> Option<u32>
    ensures some { IfSome result (AreRun (name.now ∷ turns.now ∷ [])) }
    ensures none { IfNone result ((asked : ℕ) → AreRun (name.now ∷ turns.now ∷ []) asked → ⊥) }
{
    if name != "run" {
        return None;
    }
    let turns = number_of(turns, 1, TURNS_MAX)?;
    Some(turns as u32)
}

/// How many turns each worker makes in the run that the words ask for, if they ask for one.
pub fn turns_of_run(words: &Vec<String>) -> Option<u32>
    ensures some { IfSome result (AreRun (map string_bytes words.now.items)) }
    ensures none { IfNone result ((turns : ℕ) → AreRun (map string_bytes words.now.items) turns → ⊥) }
{
    match words.as_slice() {
        [name, turns] => turns_of(name.as_str(), turns.as_str()),
        _ => None,
    }
}

/// The task that the words ask for.
pub fn task_of(words: &Vec<String>) -> Option<Task>
    ensures some { IfSome result (Ask (map string_bytes words.now.items)) }
    ensures none { IfNone result ((task : Task) → Ask (map string_bytes words.now.items) task → ⊥) }
{
    match words.as_slice() {
        [name, inverter] => task_of_two(name.as_str(), inverter.as_str()),
        [name, inverter, turns] => {
            task_of_three(name.as_str(), inverter.as_str(), turns.as_str())
        }
        _ => None,
    }
}
