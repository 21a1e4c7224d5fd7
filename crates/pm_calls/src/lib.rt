//! The calls of the power management API (UG1200) over a book, one file each, and the events that are no messages.
#![tactic(auto)]

mod between;
mod calls;
mod characteristics;
mod events;
mod laws;
mod reset_lines;
mod verdict;
mod views;

pub use calls::serve;
pub use events::{boot, interrupt, raise, wait};
pub use laws::checks_are_permissions;
pub use verdict::{Asked, Say, Verdict, aborted_by, asked_by};
