//! The lines of output: those of a step, of the closing table, of a reach and of a fault; and the exits of commands.
#![tactic(auto)]

pub mod closing_table;
pub mod exits;
pub mod faults;
pub mod line;
pub mod notes;
pub mod reach;
pub mod report;
pub mod step;
pub mod step_text;

pub use closing_table::{clock_closing, closing, unit_name};
pub use exits::exits_say;
pub use faults::{Fault, exit, write_fault};
pub use line::{TextLine, Word, name, write_line};
pub use notes::{busy_line, call_line, clock_line, late_line, no_task_line, task_line};
pub use reach::reach_text;
pub use report::refuse;
pub use step::{StepLine, answer_entry, command_entry, entries, entry, is_told};
pub use step_text::StepText;
