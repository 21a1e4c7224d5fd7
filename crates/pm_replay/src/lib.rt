//! A script is run over a book of requirements and a device, line by line, and its text is written.
#![tactic(auto)]

mod lines;
mod run;
mod safe;

pub use pm_apart::driven_runs_keep_apart;
pub use run::replay;
pub use safe::logged_acts_are_safe;
