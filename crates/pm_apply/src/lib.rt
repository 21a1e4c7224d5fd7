//! The device commands of a step: which commands make a device follow the book, in an order in which
//! no unit is used without power and no domain goes down under its users, over a device that may fail.
#![tactic(auto)]

mod carrying;
mod commands;
mod failing;
mod laws;
mod powers;
mod taking;
mod turns;
mod uses;
mod wanted;

pub use carrying::Carrying;
pub use commands::{carry, carry_all};
pub use laws::{a_part_without_refusal, each_part_is_safe, marks_suffice, orders_join};
pub use pm_record::Kept;
pub use turns::Turn;
