//! The output beyond the reach of a master doesn't depend on its messages.
#![tactic(auto)]

mod laws;

pub use laws::{
    driven_lines_stay_apart, driven_runs_keep_apart, lines_stay_apart, texts_are_lines,
};
