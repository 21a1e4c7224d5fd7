//! The power management core message by message, for whoever has a device of their own: a book, what its steps put out, and
//! the commands that make a device follow it, given out one by one.
#![tactic(auto)]

mod controller;
mod status;

pub use controller::Controller;
pub use status::NodeStatus;
