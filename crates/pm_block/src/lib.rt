//! The words that the first lines of a script attach at addresses, joined, and the objects that they spell.
#![tactic(auto)]

pub mod block;
mod laws;

pub use block::{Block, Piece};
pub use laws::attached_objects_are_formed;
