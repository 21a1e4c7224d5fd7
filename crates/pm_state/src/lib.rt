//! The state of the book of requirements: its object and its chip, the rows, the processors, the reset lines and the
//! notes of the masters, and each change of it, one method each.
#![tactic(auto)]

mod below;
mod changes;
mod chip;
mod counters;
mod laws;
mod load;
mod members;
mod nodes;
mod objects;
mod pairs;
mod policies;
mod scope;
mod seeds;
mod stages;
mod tables;
mod talk;

pub use changes::Changes;
pub use laws::{
    changes_are_written, found_objects_are_attached, loads_are_sound, members_are_owned,
};
pub use nodes::master_node;
pub use objects::Found;
pub use scope::Scope;
pub use tables::Tables;
