//! Tests of the layer of the simulated devices.
#![tactic(auto)]

#[cfg(test)]
mod bank;
#[cfg(test)]
mod dialers;
#[cfg(test)]
mod plants;
#[cfg(test)]
mod server;
