//! A device is driven through the steps of a run, and what is written of them.
#![tactic(auto)]

mod laws;
mod rigs;

pub use laws::{
    boards_leave_runs, calls_are_told, clocks_are_followed, clocks_leave_runs, driven_follows,
    power_calls_are_their_events, scripts_are_lowered,
};
pub use rigs::rig;
