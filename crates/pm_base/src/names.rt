//! The numbers that name the parts of the chip, and the modes of its processors.

/// The number of a node: a processor, a slave, a power node or a master (UG1200, node identifiers).
#[derive(Clone, Copy, Debug, PartialEq, Eq, PartialOrd, Ord, Hash)]
pub struct NodeId(pub u32);

/// The number of a reset line. Line `n` resets node `n`.
#[derive(Clone, Copy, Debug, PartialEq, Eq, PartialOrd, Ord, Hash)]
pub struct LineId(pub u32);

/// The mode of a processor or of a master. They are printed as 0, 1, 2 and 3.
#[derive(Clone, Copy, Debug, PartialEq, Eq)]
pub enum Mode {
    Off,
    Active,
    Asleep,
    Suspending,
}

/// What a device command sets: a node or a reset line.
#[derive(Clone, Copy, Debug, PartialEq, Eq, Hash)]
pub enum Unit {
    Node(NodeId),
    Line(LineId),
}

/// A device command: this unit is set to this value.
#[derive(Clone, Copy, Debug, PartialEq, Eq)]
pub struct Command {
    pub unit: Unit,
    pub value: u32,
}
