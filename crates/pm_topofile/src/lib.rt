//! The text of a chip's table, both ways: one line for each power node, processor, slave, state of a slave and
//! reset line, and one or more for each master.
#![tactic(auto)]

mod draft;
mod fault;
mod item;
mod last;
mod laws;
mod meaning;
mod printing;
mod reading;
mod table;

pub use fault::{TopoTextCause, TopoTextFault, TopologyError};
pub use laws::{one_topology, printed_topology_is_read_again};
pub use meaning::read_topology;
pub use printing::print_topology;
