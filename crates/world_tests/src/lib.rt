//! Tests of the world: the fakes in memory, and the adapters over files, TCP connections and the clock.
#![tactic(auto)]

#[cfg(test)]
mod adapters;
#[cfg(test)]
mod fakes;
