//! The parts of runs of the top call in tests, in memory: words, inputs, objects and devices. Nothing here asserts.
#![tactic(auto)]

pub mod asked;
pub mod devices;
pub mod inputs;
pub mod objects;

pub use asked::{Asked, joined, replay_of};
pub use devices::{listed, model, node};
pub use inputs::{bytes_of, inputs_of, put, words_of};
pub use objects::{
    ALONE, BOXES, BOXES_CLOSED, BOXES_SETTLED, DOMAINS, LABORATORY, LABORATORY_LOADED,
    LABORATORY_SETTLED, OBJECT, OBJECT_CLOSED, OBJECT_LOADED, SMALL, SMALL_TOPOLOGY, STANDS,
    STARTED, USUAL,
};
