//! The rows of the book of requirements: what each master requires of each slave that it may use, how a
//! change of one row and a change of a master's mode change them, and what is wanted of a slave in all.
#![tactic(auto)]

mod counting;
mod filling;
mod fitting;
mod laws;
mod links;
mod modes;
mod passes;
mod passing;
pub mod row;
pub mod rows;
mod seeking;
mod shift;
mod spans;
mod table;
mod turning;
pub mod wanted;

pub use laws::{rows_know_modes, rows_stay_sound, shifts_leave_others};
pub use row::{Change, Entry, Pair, Row, RowSeed};
pub use rows::{Rows, are_placed};
pub use shift::is_start;
pub use wanted::Wanted;
