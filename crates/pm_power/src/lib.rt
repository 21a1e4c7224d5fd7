//! The power forest: which power nodes are up, by the needs of what is below them.
#![tactic(auto)]

pub mod child;
mod climb;
pub mod laws;
pub mod power;
mod settle;

pub use laws::up_where_needed;
pub use power::Power;
