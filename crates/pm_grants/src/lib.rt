//! What a configuration object permits to each master on a chip, compiled once and looked up by places.
#![tactic(auto)]

pub mod grants;
pub mod laws;

pub use grants::{Grants, MasterMasks};
pub use laws::{grants_are_permissions, some_grants_are_permissions};
