//! Tests of what runs: workers, desks, the console and the whole plant.
#![tactic(auto)]

#[cfg(test)]
mod console;
#[cfg(test)]
mod plain_desk;
#[cfg(test)]
mod runs;
#[cfg(test)]
mod shared_desk;
#[cfg(test)]
mod table;
#[cfg(test)]
mod turns;
#[cfg(test)]
mod twelve;
