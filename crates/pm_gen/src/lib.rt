//! A large input of the program's own making: the laboratory's object, a script of any length that is the same each time, and
//! the summary of its run.
#![tactic(auto)]

mod laboratory;
mod script;
mod summary;

pub use laboratory::lab_object;
pub use script::make;
pub use summary::summary_of;
