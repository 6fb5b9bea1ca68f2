//! Tests of the layer of the ledger.
#![tactic(auto)]

#[cfg(test)]
mod buses;
#[cfg(test)]
mod live_writes;
#[cfg(test)]
mod lives;
#[cfg(test)]
mod numbers;
#[cfg(test)]
mod plant;
#[cfg(test)]
mod shares;
#[cfg(test)]
mod timers;
