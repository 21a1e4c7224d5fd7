//! What every part of the power management core speaks of: the numbers of the chip, messages and
//! events, the answers of the program, and lists.
#![tactic(auto)]

pub mod bounded_list;
pub mod caps;
pub mod errors;
pub mod events;
pub mod list;
pub mod look_up;
pub mod masters;
pub mod names;
pub mod object_words;
pub mod one_exit;
pub mod steps;

pub use bounded_list::BoundedList;
pub use caps::Caps;
pub use errors::{Exit, Failed, NoMemory};
pub use events::{Event, Message};
pub use list::List;
pub use look_up::at_or;
pub use masters::{is_half_of, is_master_number, splits_lockstep};
pub use names::{Command, LineId, Mode, NodeId, Unit};
pub use object_words::Words;
pub use one_exit::with;
pub use steps::Steps;
