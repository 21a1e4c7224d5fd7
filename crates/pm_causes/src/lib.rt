//! The law of causes: which answer a message gets, and why.
#![tactic(auto)]

mod causes;

pub use causes::{answers_have_causes, runs_have_causes};
