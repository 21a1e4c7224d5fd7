//! A device: units that are set by commands, any of which may fail. The trait, and two devices in
//! memory for tests and for replays, which log each act in proofs.
#![tactic(auto)]

pub mod cells;
pub mod device;
mod laws;
pub mod listed;
pub mod log;
pub mod model;

pub use device::Device;
pub use laws::{acts_append, chain_shows, chains_are_logged, chains_join, none_is_refused};
pub use listed::ListedDevice;
pub use model::ModelDevice;
