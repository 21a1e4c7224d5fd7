//! What modules and timed tasks bring to a run, and what the lines of a script do to tasks.
#![tactic(auto)]

mod lines;
mod standing;

pub use lines::happen;
pub use standing::Board;
