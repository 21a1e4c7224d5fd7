//! The run of a script: its lines, the core steps of each, and the books along them.
#![tactic(auto)]

mod laws;
mod runner;

pub use laws::{books_of_a_run, boxes_of_a_run};
pub use pm_split::{CoreEvents, OwnNote, Source, Split, call_answer};
pub use runner::Runner;
