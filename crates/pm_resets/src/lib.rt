//! The reset lines of a chip.
#![tactic(auto)]

mod laws;
pub mod resets;

pub use laws::lines_keep_their_values;
pub use resets::Resets;
