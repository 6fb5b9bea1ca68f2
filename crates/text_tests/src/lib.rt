//! Tests of the layer of the texts.
#![tactic(auto)]

#[cfg(test)]
mod nested;
#[cfg(test)]
mod one_life;
#[cfg(test)]
mod scripts;
#[cfg(test)]
mod sites;
