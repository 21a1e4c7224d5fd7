//! The calls by which a kernel starts and stops its processors (Arm DEN0022, Power State Coordination Interface),
//! made into messages of master 1, and what they are answered. Both are functions of the table of the chip, the
//! call and the reply alone.
#![tactic(auto)]

pub mod answers;
pub mod calls;
pub mod lowering;
mod refusal;
mod targets;

pub use answers::answer;
pub use calls::{Function, Smc, decode_function};
pub use lowering::lower;
