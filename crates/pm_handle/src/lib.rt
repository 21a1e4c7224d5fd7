//! What the calls on a handle do: a controller behind a pointer takes events and gives out commands, and each call answers
//! a number of `include/pmu.h`.
#![tactic(auto)]

pub mod answers;
pub mod buffer;
pub mod commands;
pub mod events;
pub mod opening;
