//! Tests of the commands that follow a step: their order, and the kept values after them.
#![tactic(auto)]

#[cfg(test)]
mod carrying;
#[cfg(test)]
mod rows;
