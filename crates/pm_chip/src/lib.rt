//! The table of the Zynq UltraScale+, and the classes of its slaves.
#![tactic(auto)]

pub mod chip;
pub mod classes;

pub use chip::zynqmp;
