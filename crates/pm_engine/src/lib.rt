//! A run step by step over a device: the book goes on, the device is made to follow it, and the text is written piece by
//! piece while the sink takes it.
#![tactic(auto)]

mod clocks;
mod engine;
mod tasks;
mod writing;

pub use clocks::clocks_on;
pub use engine::Engine;
pub use tasks::tasks_on;
pub use writing::{call_on, note_on, write_closing, write_on, write_step};
