//! Tests of the comparison of two runs over a small chip, in which one number is a master's node and another unit's.
#![tactic(auto)]

#[cfg(test)]
mod comparing;
#[cfg(test)]
mod rows;
