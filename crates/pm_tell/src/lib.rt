//! Telling the masters of a step: requests that end, late replies, callbacks, and notes that wait.
#![tactic(auto)]

mod callbacks;
mod ended;
mod keeping;
mod late;
mod opening;
mod served;
mod talk;
mod telling;

pub use callbacks::Callback;
pub use late::Late;
pub use served::{Served, pulse_in};
pub use talk::tell;
pub use telling::Telling;
