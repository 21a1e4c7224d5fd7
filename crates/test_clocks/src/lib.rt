//! Tests of the clocks: their calls and checks, and the effects of steps on them.
#![tactic(auto)]

#[cfg(test)]
mod clocks;
