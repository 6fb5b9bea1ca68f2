//! Tests of the layer of the device.
#![tactic(auto)]

#[cfg(test)]
mod commissionings;
#[cfg(test)]
mod discovery;
#[cfg(test)]
mod models;
#[cfg(test)]
mod points;
#[cfg(test)]
mod readbacks;
#[cfg(test)]
mod runs;
