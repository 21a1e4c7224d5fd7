//! What a controller does over a whole session is what a driven run of the same events does.
#![tactic(auto)]

mod laws;

pub use laws::controllers_are_driven;
