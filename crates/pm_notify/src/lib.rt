//! What masters are told of nodes: the notifiers by which they ask for it, and the notes that wait for a
//! master that is asleep.
#![tactic(auto)]

mod laws;
mod master_notes;
pub mod node_notes;
pub mod notes;
pub mod notify;

pub use laws::{
    notes_stand_in_order, notes_wait_in_slots, notifiers_are_kept, others_keep_their_notes,
    takes_drain_the_slots,
};
pub use notes::{NodeEvent, Note, Waiting};
pub use notify::Notify;
