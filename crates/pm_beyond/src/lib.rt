//! A test whether a message is beyond the reach of a master, for clients that compare runs.
#![tactic(auto)]

mod border;
mod message;

pub use message::is_message_beyond;
