//! The top call of the program. It runs a script over a configuration object, writes the reach of a master, compares
//! two runs, prints an object as text, builds one from its text, runs a generated script, or writes the text of the
//! chip's topology.
#![tactic(auto)]

mod making;
mod objects;
mod program;
mod reaching;
mod reading;
mod replaying;
mod topologies;
mod works;
mod writing;

pub use objects::OBJECT_LIMIT;
pub use program::pm_main;
pub use works::{Form, Piece, Request, Source, Work};
