//! Ranges of levels, narrowed until one level is left.
ghost use Rattle.std.specs.Prelude.{◌≡◌, ℕ, ◌+◌, ◌-◌, ◌*◌, ◌<◌, ◌≤◌, nat_le, true, false};
ghost use Rattle.share_policy.specs.LevelRange.{Has, width};

/// The levels from the lowest to the highest, both among them, in mW.
#[derive(Clone, Copy, Debug, PartialEq, Eq)]
pub(crate) struct LevelRange {
    pub(crate) lowest: u64,
    pub(crate) highest: u64,
}

impl LevelRange {
    /// The level of the upper half that is nearest to the lower one.
    pub(crate) fn middle(self) -> u64
        requires { self.lowest < self.highest }
        ensures above { self.lowest < result }
        ensures within { result ≤ self.highest }
        ensures lower_half { 2 * (result - 1 - self.lowest) ≤ width self }
        ensures upper_half { 2 * (self.highest - result) ≤ width self }
    {
        self.highest - (self.highest - self.lowest) / 2
    }

    /// The level above the lowest that is nearest to a guess.
    pub(crate) fn nearest(self, guess: u64) -> u64
        requires { self.lowest < self.highest }
        ensures above { self.lowest < result }
        ensures within { result ≤ self.highest }
    {
        guess.max(self.lowest + 1).min(self.highest)
    }

    /// What is left where a level was looked at, which is reached or isn't: the levels from it on, or those below it.
    pub(crate) fn narrowed(self, level: u64, is_reached: bool) -> LevelRange
        requires above { self.lowest < level }
        requires within { level ≤ self.highest }

        // It has each level that it had and that agrees with what was found.
        ensures has { (sought : ℕ) → Has self sought → is_reached ≡ nat_le level sought → Has result sought }
        ensures inside { result.highest ≤ self.highest }
        ensures lower_half { is_reached ≡ false → width result ≡ level - 1 - self.lowest }
        ensures upper_half { is_reached ≡ true → width result ≡ self.highest - level }
    {
        if is_reached {
            LevelRange {
                lowest: level,
                ..self
            }
        } else {
            LevelRange {
                highest: level - 1,
                ..self
            }
        }
    }
}
