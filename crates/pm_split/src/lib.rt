//! What the event of a script line is split into: the core events that the book takes one after another, and the boxes
//! into which messages are put and from which they are served. Power calls are lowered here.
#![tactic(auto)]

mod boxes;
mod calls;
mod cores;
mod laws;

pub use calls::call_answer;
pub use cores::{CoreEvents, OwnNote, Source, Split, split_event};
pub use laws::boxes_are_served;
