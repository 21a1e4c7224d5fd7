//! The numbers of masters (UG1200, nodes).

ghost use Rattle.std.specs.Prelude.{◌≡◌};
ghost use Rattle.pm_base.specs.Masters.{is_half_of, is_master_number, splits_lockstep};

use crate::names::NodeId;

/// The application processors.
pub const APU: NodeId = NodeId(1);

/// The real-time processors as a pair in lockstep.
pub const RPU: NodeId = NodeId(6);

/// The first real-time processor alone.
pub const RPU_0: NodeId = NodeId(7);

/// The second real-time processor alone.
pub const RPU_1: NodeId = NodeId(8);

/// Whether a master can have this number: 1, 6, 7 or 8.
pub fn is_master_number(node: NodeId) -> bool
    ensures { result ≡ is_master_number node.0 }
{
    node == APU || node == RPU || node == RPU_0 || node == RPU_1
}

/// Whether the one number is that of one real-time processor alone, and the other that of the pair in lockstep.
pub fn is_half_of(half: NodeId, whole: NodeId) -> bool
    ensures { result ≡ is_half_of half.0 whole.0 }
{
    whole == RPU && (half == RPU_0 || half == RPU_1)
}

/// Whether one of two numbers is that of the pair in lockstep, and the other that of one of its processors alone.
pub fn splits_lockstep(one: NodeId, other: NodeId) -> bool
    ensures { result ≡ splits_lockstep one.0 other.0 }
{
    is_half_of(one, other) || is_half_of(other, one)
}
