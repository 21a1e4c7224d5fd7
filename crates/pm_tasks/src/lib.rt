//! Timed tasks: handlers with state that a board brings, called as time passes. They are stored as boxed objects
//! under keys, and are known through the meaning of their interface alone.
#![tactic(auto)]

pub mod handler;
pub mod history;
mod stored;
pub mod tasks;

pub use handler::{Counter, Handler};
pub use history::{Happening, Line, run};
pub use tasks::{Fired, Tasks, TasksOf};
