//! The clocks of two runs: beyond the reach of a master they don't depend on its messages.
#![tactic(auto)]

mod laws;

pub use laws::clocks_keep_apart;
