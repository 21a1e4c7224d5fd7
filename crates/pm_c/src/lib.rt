//! The library for C: a whole run in one call, and a controller behind a handle. `include/pmu.h` declares it. Each
//! export calls the function that does its work, and has that function's contract.
#![tactic(auto)]

pub mod commands;
pub mod events;
mod exits;
pub mod handles;
mod held_reads;
pub mod reading;
pub mod running;
mod telling;
pub mod version;
mod whole_run;
