//! The lines of a script are read through a window of fixed size, and followed one after another.
#![tactic(auto)]

pub mod follow;
mod meant;
pub mod reader;
pub mod window;

pub use follow::{Follower, Front, LineStop, LinesEnd};
pub use reader::{LineBuf, LineReader, Taken};
