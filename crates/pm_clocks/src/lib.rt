//! The clocks over a book: what they read of it, what its steps do to them, and their responses in place of the
//! book's (UG1200, PM_CLOCK_ENABLE to PM_CLOCK_GETPARENT).
#![tactic(auto)]

mod clocks;
mod replies;
mod scene;

pub use clocks::Clocks;
pub use pm_clock_tree::{ClockChange, ClockDef, ClockEnd, all_clocks};
