//! The processors of a chip: their modes, where they resume, the modes of the masters that have them, and the
//! requests to suspend that are pending on those.
#![tactic(auto)]

mod laws;
pub mod modes;
pub mod pending;
pub mod procs;

pub use laws::{modes_of_masters, requests_of_masters};
pub use modes::{is_awake, mode_number, same_mode};
pub use pending::{NEVER, Pending};
pub use procs::{Proc, Procs};
