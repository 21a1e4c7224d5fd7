//! Tests of two runs side by side over a small chip, in which one number is a master's node and another unit's.
#![tactic(auto)]

#[cfg(test)]
mod both;
#[cfg(test)]
mod rows;
#[cfg(test)]
mod running;
#[cfg(test)]
mod sides;
