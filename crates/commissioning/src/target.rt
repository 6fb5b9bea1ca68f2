//! What is commissioned.
use limiter_num::Rules;
use plant_book::{Port, Unit};

/// An inverter as the site file has it: its rating and floor, and where it is reached, with the rules of the site.
#[derive(Debug, Drop)]
pub(crate) struct Target {
    pub(crate) unit: Unit,
    pub(crate) port: Port,
    pub(crate) rules: Rules,
}
