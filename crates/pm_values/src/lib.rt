//! The values of a book: what is chosen for each slave, which power nodes are up, what is kept of that, and what of it
//! a step moves, starts and has to tell.
#![tactic(auto)]

mod along;
mod bringing;
mod caches;
mod choice;
mod counters;
mod found;
mod kinds;
mod laws;
mod marks;
mod moves;
mod needs;
mod notifications;
mod starts;
mod turns;
mod values;

pub use along::{Along, log_modes};
pub use caches::Caches;
pub use laws::{values_are_fed, values_meet};
pub use starts::Start;
pub use turns::Turns;
pub use values::{point, value, value_at};
