//! Tests of a kernel's power calls: the events that they become, and their answers.
#![tactic(auto)]

#[cfg(test)]
mod answers;
#[cfg(test)]
mod lowered;
#[cfg(test)]
mod tables;
