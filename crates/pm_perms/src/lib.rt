//! What the configuration object permits to each master (UG1137, configuration object), what one of several
//! objects permits, and which processors belong to a master.
#![tactic(auto)]

pub mod owner;
pub mod permits;
pub mod several;

pub use owner::owner_of;
pub use permits::{
    is_shareable, mask_has, may_configure, may_force, may_reset, may_shut, may_suspend, may_use,
    may_wake, slave_record,
};
pub use several::{Act, masters_of, may, some_may};
