//! The book of requirements of the power management core: which master uses which slave with which
//! capabilities, in which mode each processor is, and how one event changes that and what is answered
//! (UG1200, power management API).
#![tactic(auto)]

mod answers;
mod book;
#[cfg(test)]
mod fields;
mod outbox;
mod replies;

pub use book::Book;
pub use outbox::{Done, Outbox};
pub use pm_state::{loads_are_sound, members_are_owned};
pub use pm_step::{books_stay_sound, configures, only_one_call_configures};
pub use pm_tell::{Callback, Late};
pub use pm_values::{Start, values_are_fed, values_meet};
pub use replies::Answer;
