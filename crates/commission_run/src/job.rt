//! What is to be commissioned.
use limiter_num::Rules;
use plant_book::{Port, Unit};

/// An inverter of the site file, and how long its link waits.
#[derive(Debug, Drop)]
pub struct Job {
    /// The inverter's number in the site file.
    pub inverter: u8,
    /// Its rating and its floor.
    pub unit: Unit,
    /// Where it is reached.
    pub port: Port,
    /// The rules of the site.
    pub rules: Rules,
    /// How long the dial and each receive wait at most, in ms.
    pub wait: u32,
}
