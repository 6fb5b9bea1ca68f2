//! What a worker is told once.

use limiter_num::Rules;
use plant_book::{Port, Unit};

/// One inverter, where it is reached, and how its limit is kept.
#[derive(Clone, Debug, Drop)]
pub struct Job {
    /// The number of the inverter, from 0.
    pub inverter: u8,
    /// Its rating and floor.
    pub unit: Unit,
    /// Where it is reached.
    pub port: Port,
    /// What is taken for granted of links and timers.
    pub rules: Rules,
    /// How long after its grant a limit is asked for anew, in ms.
    pub renew: u32,
    /// How long the worker rests after a turn, in ms.
    pub pause: u32,
    /// How long a dial, and a receive, waits, in ms.
    pub wait: u32,
}
