ghost use Rattle.std.specs.Prelude.{◌≡◌, ◌<◌};
ghost use Rattle.plant_simulator.specs.Words.{seeded, behind, draw};

use rand_core::SeedableRng;
use rand_core::utils::NextWord;
use rand_pcg::Pcg32;

/// The generator of a seed.
#[tactic(auto, unfolding(crate::specs::Words::seeded))]
pub fn seeded(seed: u64) -> Pcg32
    ensures { result ≡ seeded seed }
{
    Pcg32::seed_from_u64(seed)
}

/// Draws a number below a bound from the next word.
#[tactic(auto, unfolding(crate::specs::Words::word, crate::specs::Words::later))]
pub fn draw(words: &mut Pcg32, bound: u64) -> u64
    requires { 0 < bound }
    ensures number { result ≡ draw 0 bound words.old }
    ensures below { result < bound }
    ensures behind { words.new ≡ behind 1 words.old }
{
    u64::from(words.next_word()) % bound
}
