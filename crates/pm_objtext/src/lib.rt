//! The text of a configuration object, both ways: lines of words and numbers, one line for each
//! header, section and record (the sections are those of UG1137, configuration object).
#![tactic(auto)]

mod building;
mod draft;
mod fault;
mod groups;
mod item;
mod laws;
mod names;
mod printing;
mod reading;
mod stage;
mod table;

pub use building::build;
pub use fault::{BuildError, TextCause, TextFault};
pub use laws::{one_meaning, printed_object_is_built_again};
pub use printing::print;
