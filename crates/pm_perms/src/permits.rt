//! What a master may use, suspend, wake, force, reset, shut down and configure (UG1137, configuration
//! object).

ghost use Rattle.std.specs.Prelude.{◌≡◌};
ghost use Rattle.pm_perms.specs.Permits as spec;
ghost use Rattle.pm_topology.specs.Places.{slave_place};
ghost use Rattle.pm_topology.specs.Units.{has_line};

use pm_base::{LineId, NodeId};
use pm_object::{MasterRec, Object, Pair, SlaveRec};
use pm_topology::{Kind, Topology};

/// The object's record of the slave with a number, if there is one.
pub fn slave_record(object: &Object, slave: NodeId) -> Option<SlaveRec>
    ensures { result ≡ spec.slave_record object.now slave }
{
    object
        .slaves
        .as_slice()
        .iter()
        .copied()
        .find(|entry| entry.node == slave.0)
}

/// The object's master with a number, if there is one.
fn master_record(object: &Object, master: NodeId) -> Option<MasterRec>
    ensures { result ≡ spec.master_record object.now master }
{
    object
        .masters
        .as_slice()
        .iter()
        .copied()
        .find(|entry| entry.node == master.0)
}

/// The record with a key, if there is one.
fn pair_record(pairs: &[Pair], key: u32) -> Option<Pair>
    ensures { result ≡ spec.pair_record pairs.now key }
{
    pairs.iter().copied().find(|entry| entry.key == key)
}

/// The mask of the record with a key, if there is one.
fn pair_mask(pairs: &[Pair], key: u32) -> Option<u32>
    ensures { result ≡ spec.pair_mask pairs.now key }
{
    pair_record(pairs, key).map(|entry| entry.mask)
}

/// Whether a record's mask has a master's bit.
pub fn mask_has(mask: u32, bit: u32) -> bool
    ensures { result ≡ spec.mask_has mask bit }
{
    mask & bit != 0
}

/// Whether the mask has the master's bit. Where one of the two is missing it hasn't.
fn is_in(master: Option<MasterRec>, mask: Option<u32>) -> bool
    ensures { result ≡ spec.is_in master mask }
{
    match (master, mask) {
        (Some(master), Some(mask)) => mask_has(mask, master.mask),
        _ => false,
    }
}

/// Whether several masters may use a slave at a time.
pub fn is_shareable(entry: &SlaveRec) -> bool
    ensures { result ≡ spec.is_shareable entry.now }
{
    entry.flags & 1 == 1
}

/// Whether a master may use a slave: the object has the master, the chip has the slave, and the mask of
/// the object's record of it has the master's bit.
pub fn may_use(object: &Object, t: &Topology, master: NodeId, slave: NodeId) -> bool
    ensures { result ≡ spec.may_use object.now t.now master slave }
{
    slave_place(t, slave).is_some()
        && may_use_by(master_record(object, master), slave_record(object, slave))
}

/// Whether a master may suspend another: the object has both, and the suspend word of the first has the
/// other's bit.
pub fn may_suspend(object: &Object, _t: &Topology, master: NodeId, other: NodeId) -> bool
    ensures { result ≡ spec.may_suspend object.now _t.now master other }
{
    let word = master_record(object, master).map(|entry| entry.suspend);
    is_in(master_record(object, other), word)
}

/// Whether a master may wake another: the object has both, and the wake word of the first has the
/// other's bit.
pub fn may_wake(object: &Object, _t: &Topology, master: NodeId, other: NodeId) -> bool
    ensures { result ≡ spec.may_wake object.now _t.now master other }
{
    let word = master_record(object, master).map(|entry| entry.wake);
    is_in(master_record(object, other), word)
}

/// Whether a master may force a node down: the node is a power node or a processor, and the mask of the
/// object's power record of it has the master's bit.
pub fn may_force(object: &Object, t: &Topology, master: NodeId, node: NodeId) -> bool
    ensures { result ≡ spec.may_force object.now t.now master node }
{
    let mask = pair_mask(object.power.as_slice(), node.0);
    can_be_forced(t.kind(node)) && is_in(master_record(object, master), mask)
}

/// Whether a master may reset a line: the chip has the line, and the mask of the object's reset record of
/// it has the master's bit.
pub fn may_reset(object: &Object, t: &Topology, master: NodeId, line: LineId) -> bool
    ensures { result ≡ spec.may_reset object.now t.now master line }
{
    let mask = pair_mask(object.reset.as_slice(), line.0);
    has_line(t, line) && is_in(master_record(object, master), mask)
}

/// Whether a master may shut down: itself (subtype 0) always, the power supply's domain and the system
/// (subtypes 1 and 2) if the mask of the object's shutdown record of the subtype has its bit.
pub fn may_shut(object: &Object, _t: &Topology, master: NodeId, subtype: u32) -> bool
    ensures { result ≡ spec.may_shut object.now _t.now master subtype }
{
    let entry = master_record(object, master);
    match subtype {
        0 => entry.is_some(),
        1 | 2 => is_in(entry, pair_mask(object.shutdown.as_slice(), subtype)),
        _ => false,
    }
}

/// Whether a master may set the configuration: the object's base mask has its bit.
pub fn may_configure(object: &Object, _t: &Topology, master: NodeId) -> bool
    ensures { result ≡ spec.may_configure object.now _t.now master }
{
    is_in(master_record(object, master), Some(object.base_mask))
}

/// The place of a slave, if the topology has it.
fn slave_place(t: &Topology, slave: NodeId) -> Option<usize>
    ensures { result ≡ slave_place t.now.slaves slave.0 }
{
    t.slaves.as_slice().iter().position(|def| def.node == slave)
}

/// Whether the mask of a slave's record has the bit of a master; not if one of them isn't there.
fn may_use_by(master: Option<MasterRec>, entry: Option<SlaveRec>) -> bool
    ensures { result ≡ spec.may_use_by master entry }
{
    is_in(master, entry.map(|entry| entry.mask))
}

/// Whether a node is of a kind that can be forced down: a processor or a power node (UG1200, PM_FORCE_POWERDOWN).
fn can_be_forced(kind: Kind) -> bool
    ensures { result ≡ spec.can_be_forced kind }
{
    matches!(kind, Kind::Proc(_) | Kind::Power(_))
}

/// Whether the topology has a reset line.
fn has_line(t: &Topology, line: LineId) -> bool
    ensures { result ≡ has_line line.0 t.now.lines }
{
    t.lines.as_slice().iter().any(|def| def.line.0 == line.0)
}
