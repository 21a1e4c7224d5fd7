//! Modules: handlers that a board brings for ranges of API words of its own. They are stored as boxed
//! objects, and are known through the meaning of their interface alone.
#![tactic(auto)]

pub mod module;
pub mod modules;
pub mod responders;

pub use module::{Module, ModuleOf};
pub use modules::{AddError, AddErrorOf, Modules, ModulesOf};
pub use responders::{Echo, Masked, Responder};
