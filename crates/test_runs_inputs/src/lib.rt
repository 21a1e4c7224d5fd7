//! Tests of whole runs over inputs: failing ones, cut ones, ones at their limits, and the topology of a file.
#![tactic(auto)]

#[cfg(test)]
mod checks;
#[cfg(test)]
mod inputs;
#[cfg(test)]
mod limits;
#[cfg(test)]
mod objects;
#[cfg(test)]
mod running;
#[cfg(test)]
mod topologies;
