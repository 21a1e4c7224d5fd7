//! What a board brings to a run, as one value.

use pm_modules::ModulesOf;
use pm_tasks::TasksOf;

/// What a board brings to a run: modules, which are lent to it, and timed tasks, which are taken from the caller for as
/// long as it runs.
#[derive(Drop)]
pub struct Board<'m, H: Drop, T: Drop> {
    pub modules: &'m ModulesOf<H>,
    pub tasks: TasksOf<T>,
}
