//! The base of tests of steps: a book with its outbox, events in short, and tables of what follows. A loop over a
//! table returns the index of the first wrong row, which the test asserts to be none.
#![tactic(auto)]

pub mod answers;
pub mod desk;
pub mod events;
pub mod notices;
pub mod rows;
pub mod small_table;
pub mod turns;

pub use answers::{Case, Want, wrong_answer, wrong_answer_over};
pub use desk::{
    Desk, boxed, bytes_of, chip, desk_attached, desk_beside, desk_of, desk_with, object_of, settled,
};
pub use events::{Trigger, event_of, message};
pub use notices::{
    Call, Notice, Reply, have_called, have_replied, wrong_notice, wrong_notice_over,
};
pub use rows::{RowCase, UNUSED, wrong_row, wrong_value};
pub use small_table::{SMALL_OBJECT, small_chip};
pub use turns::{Turn, have_moved, have_started, wrong_turn, wrong_turn_over};
