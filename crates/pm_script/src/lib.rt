//! What each line of a script means, and what is read of a named script.
#![tactic(auto)]

mod forms;
pub mod laws;
pub mod meaning;
mod object_line;
pub mod script;
mod short;
mod words;

pub use laws::{each_kind_has_its_sentence, scripts_are_read};
pub use meaning::{LineFault, parse_line, read_line};
pub use script::SCRIPT_LIMIT;
pub use short::read_first;
