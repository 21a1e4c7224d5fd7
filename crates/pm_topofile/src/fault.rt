//! What can be wrong with the text of a topology.

ghost use Rattle.std.specs.Prelude.{◌≡◌};
ghost use Rattle.pm_topofile.specs.declared.fault.TopologyError.TheVariants.{Memory, Rule};

use pm_base::NoMemory;
use pm_topology::TopoFault;
use thiserror::Error;

/// What is wrong with a line. The numbers are those of the program's fault line. Of the causes of one line the
/// first counts.
#[derive(Clone, Copy, Debug, PartialEq, Eq)]
pub enum TopoTextCause {
    /// It is too long, isn't ASCII, or has an unknown word, a wrong count, a bad number or one that is too great.
    Form = 1,
    /// It comes after a line of a later kind, or is a state that doesn't follow a slave.
    Place = 2,
    /// Its parent is the number of no earlier power node.
    Parent = 3,
    /// The text has more than 1,048,576 bytes.
    Size = 4,
}

/// The first line that is wrong, counted from 1, and what is wrong with it. Line 0 with cause `Size` stands for a
/// text that is too long.
#[derive(Clone, Copy, Debug, PartialEq, Eq)]
pub struct TopoTextFault {
    pub line: u32,
    pub cause: TopoTextCause,
}

/// Why no topology was read from a text.
#[derive(Clone, Copy, Debug, PartialEq, Eq, Error)]
pub enum TopologyError {
    /// A line is wrong.
    #[error("bad text")]
    Bad(TopoTextFault),
    /// Each line is right, and the topology breaks a rule.
    #[error(transparent)]
    Rule(TopoFault),
    #[error(transparent)]
    Memory(NoMemory),
}

impl From<NoMemory> for TopologyError {
    ghost from_gives = { λ x e. e ≡ Memory x };

    /// Want of memory is handed on.
    fn from(e: NoMemory) -> TopologyError {
        TopologyError::Memory(e)
    }
}

impl From<TopoFault> for TopologyError {
    ghost from_gives = { λ x e. e ≡ Rule x };

    /// A broken rule of the whole topology is handed on.
    fn from(e: TopoFault) -> TopologyError {
        TopologyError::Rule(e)
    }
}
