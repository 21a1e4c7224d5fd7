//! Tests of whole runs over sinks of each length, and over sinks that fail or stall: replays, reaches, comparisons,
//! and generated scripts.
#![tactic(auto)]

#[cfg(test)]
mod cases;
#[cfg(test)]
mod checks;
#[cfg(test)]
mod isolate;
#[cfg(test)]
mod making;
#[cfg(test)]
mod reach;
#[cfg(test)]
mod running;
#[cfg(test)]
mod sinks;
