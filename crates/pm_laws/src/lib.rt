//! Two books that agree beyond a border, and the steps that keep their agreement: what a master within does isn't
//! seen from beyond.
#![tactic(auto)]

mod answers;
mod apart;
mod laws;
mod runs;
mod worlds;

pub use answers::{answers_agree, callbacks_agree};
pub use apart::{reach_keeps_apart, steps_keep_apart};
pub use laws::{
    books_agree, changes_agree, paths_agree, pulses_agree, reach_is_closed, requests_agree,
    rows_follow_alike, starts_agree, steps_agree, talks_agree, values_agree, views_agree,
};
pub use runs::run;
pub use worlds::{loaded_objects_are_objects, quiet_event, step_both, step_left};
