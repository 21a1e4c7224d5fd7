//! Two runs of a script side by side, one of them without the messages of a master, and the units that
//! differ between them.
#![tactic(auto)]

mod boxed_run;
mod comparison;
mod laws;
mod lines;
mod marks;
mod moves;
mod worlds;
mod writing;

pub use comparison::compare;
pub use laws::{transitions_are_exact, what_differs_is_reached};
