//! The clocks of the chip: which master enables which, their dividers and parents, which run, and how their calls are
//! answered (UG1200, PM_CLOCK_ENABLE to PM_CLOCK_GETPARENT).
#![tactic(auto)]

mod calls;
mod checks;
mod clock_tree;
mod holders;
mod laws;
mod scene;
mod table;
mod tree;

pub use calls::{ClockAct, ClockCall, decode_clock_call};
pub use clock_tree::{ClockChange, ClockEnd, ClockTree};
pub use laws::{clocks_run_by_their_parents, clocks_stand_after_steps, enables_stay_permitted};
pub use scene::Scene;
pub use table::{ClockDef, all_clocks};
pub use tree::Setting;
