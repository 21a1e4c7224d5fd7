//! A controller behind a pointer whose type names nothing of it, so that C may hold it.
#![tactic(auto)]

pub mod held;
pub mod parts;
pub mod slot;

pub use held::Held;
pub use slot::Slot;
