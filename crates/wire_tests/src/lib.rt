//! Tests of the layer of the wire.
#![tactic(auto)]

#[cfg(test)]
mod frames;
#[cfg(test)]
mod inbox;
#[cfg(test)]
mod pdus;
#[cfg(test)]
mod short_lists;
