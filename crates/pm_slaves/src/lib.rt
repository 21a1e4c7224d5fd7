//! The choice of a slave's state: the first in its list that has every capability that is required
//! and keeps the least latency that is required.
#![tactic(auto)]

pub mod choice;
pub mod laws;

pub use choice::{capabilities, first_that_meets, least_state};
pub use laws::first_state_meets;
