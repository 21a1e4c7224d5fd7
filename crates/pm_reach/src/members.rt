//! The members of a reach.

use pm_base::{List, NodeId};

/// What a member is.
#[derive(Clone, Copy, Debug, PartialEq, Eq)]
pub enum MemberKind {
    Master,
    Slave,
    Power,
    Line,
}

/// Why something is in a reach. A master is in it because another may suspend it, wake it, force or reset
/// what it needs, shut the system down, or set the configuration. A slave is in it because a master may use
/// it, force a power node above it, or reset it.
#[derive(Clone, Copy, Debug, PartialEq, Eq)]
pub enum Why {
    /// The master whose reach it is.
    Myself,
    Suspend,
    Wake,
    Force,
    Reset,
    Shutdown,
    Config,
    Uses,
    /// A power node above a processor or slave of the reach.
    Above,
}

/// A member of a reach: what it is, its number, why it is there, and the path of masters that leads to it.
#[derive(Debug, Drop)]
pub struct Member {
    pub kind: MemberKind,
    pub number: u32,
    pub why: Why,
    pub path: List<NodeId>,
}

/// What a master can reach: masters in the order of the objects, and then slaves, power nodes and lines by
/// number.
#[derive(Debug, Drop)]
pub struct Reach {
    pub members: List<Member>,
}
