ghost use Rattle.std.specs.Prelude.{◌≤◌, ◌^◌};

use limiter_num::Rules;
use plant_book::{Policy, Unit};

/// The numbers of a `site` line.
#[derive(Clone, Copy, Debug, PartialEq, Eq)]
pub struct SiteLine {
    /// What all limits together stay under, in mW.
    pub cap: u64,
    /// The send window, the delay, the timer and its tolerances.
    pub rules: Rules,
    /// How the watts that are free are shared.
    pub policy: Policy,
    /// How many calls a book of the site has room for.
    pub room: u32,
    pub ghost cap_high: { cap ≤ 10 ^ 14 },
    pub ghost room_low: { 1 ≤ room },
    pub ghost room_high: { room ≤ 1048576 },
}

/// A line of a head behind the `site` line.
#[derive(Clone, Copy, Debug, PartialEq, Eq)]
pub enum HeadLine {
    /// The next inverter.
    Inverter(Unit),
    /// The moment in ms at which the book begins.
    Begin(u64),
}
