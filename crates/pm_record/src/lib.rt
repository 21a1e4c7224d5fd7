//! The record of a device: the value that it last took for each unit, and a mark where the value isn't the one that is
//! wanted. The places of the units that are marked are listed.
#![tactic(auto)]

mod entries;
mod kept;
mod kinds;
mod laws;
mod marks;
mod places;

pub use kept::{Kept, KeptValue};
pub use kinds::is_power_kind;
pub use laws::at_zero_is_a_record;
pub use marks::Wanted;
