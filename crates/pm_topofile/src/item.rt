//! What a line of a topology's text says.

use arrayvec::ArrayVec;
use pm_base::NodeId;
use pm_topology::{LineDef, SlaveState};

/// The numbers of the processors of one line. A line has at most 16.
pub type Members = ArrayVec<u32, 16>;

/// A power node, and its parent by number.
#[derive(Clone, Copy, Debug, PartialEq, Eq)]
pub struct PowerLine {
    pub node: NodeId,
    pub parent: Option<NodeId>,
    pub held: bool,
    pub figure: u32,
    pub latency: u32,
}

/// A processor, and its power node by number.
#[derive(Clone, Copy, Debug, PartialEq, Eq)]
pub struct ProcLine {
    pub node: NodeId,
    pub parent: NodeId,
    pub figure: u32,
    pub latency: u32,
}

/// A slave, and its power node by number.
#[derive(Clone, Copy, Debug, PartialEq, Eq)]
pub struct SlaveLine {
    pub node: NodeId,
    pub parent: NodeId,
}

/// What a line says.
#[derive(Debug, Drop)]
pub enum Item {
    /// Nothing: it is empty or holds only a comment.
    Empty,
    Power(PowerLine),
    Proc(ProcLine),
    Slave(SlaveLine),
    /// A state of the last slave.
    State(SlaveState),
    Line(LineDef),
    /// A master, and processors of it.
    Owner(NodeId, Members),
}
