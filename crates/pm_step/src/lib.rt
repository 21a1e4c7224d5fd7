//! What one event does to the tables of a book: its stages, the verdict on a message, and that a sound book stays sound
//! (UG1200, power management API).
#![tactic(auto)]

mod laws;
mod step;

pub use laws::{books_stay_sound, only_one_call_configures};
pub use step::{advance, begin, begin_after, configures, time_of};
