//! What a master can reach: the masters to which a path of permissions leads from it, and the slaves, power
//! nodes and reset lines that these can change.
#![tactic(auto)]

pub mod brings;
pub mod laws;
pub mod leads;
pub mod members;
pub mod membership;
pub mod routes;

pub use laws::{masters_within, parents_within, reach_is_decided, units_within};
pub use members::{Member, MemberKind, Reach, Why};
pub use membership::{reach, reach_by_one};
