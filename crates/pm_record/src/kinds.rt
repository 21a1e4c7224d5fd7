//! Of which kind the units of a record are.

ghost use Rattle.std.specs.Prelude.{◌≡◌, true};
ghost use Rattle.pm_topology.specs.Places.{IsKind, kind_of};
ghost use Rattle.pm_topology.specs.WellFormed.{IsWellFormed};
ghost use Rattle.pm_record.specs.Kinds.{is_power, is_power_kind};

use crate::kept::KeptValue;
use pm_base::{List, NoMemory, NodeId, Unit, at_or};
use pm_topology::{Kind, Topology, UnitMap, kinds_are_exact};
use std::alloc::Global;

/// The kinds of the units of a record, by place, as the chip has them for which it was loaded. A kind is taken from here
/// only if the chip that is asked about has it too: an entry with the node's number stands at that place of its table.
#[derive(Drop)]
pub(crate) struct Kinds {
    kinds: List<Kind>,
}

impl Kinds {
    /// The kinds of the units of a record in a chip.
    ///
    /// # Errors
    ///
    /// `NoMemory` if there is not enough memory.
    pub(crate) fn load(
        alloc: Global,
        values: &UnitMap<KeptValue>,
        t: &Topology,
    ) -> Result<Kinds, NoMemory> {
        let mut kinds = List::new(alloc);
        for place in 0..values.len() {
            kinds.push(kind_at(values, place, t))?;
        }
        Ok(Kinds { kinds })
    }

    /// Whether the unit at a place, which is this one, is a power node of a chip.
    #[inline(always)]
    pub(crate) fn is_power(&self, place: usize, unit: Unit, t: &Topology) -> bool
        requires { IsWellFormed t.now }
        ensures { result ≡ is_power t.now unit }
    {
        match unit {
            Unit::Node(node) => is_power_kind(self.kind(place, node, t)),
            Unit::Line(_) => false,
        }
    }

    /// The kind of a node, which is the unit at a place as a rule.
    #[inline(always)]
    pub(crate) fn kind(&self, place: usize, node: NodeId, t: &Topology) -> Kind
        requires { IsWellFormed t.now }
        ensures { result ≡ kind_of t.now node }
    {
        kinds_are_exact();
        let kind = at_or(self.kinds.as_slice(), place, Kind::Unknown);
        if has_kind(t, node, kind) {
            return kind;
        }
        searched_kind(t, node)
    }
}

/// The kind of a node by a search. It stands apart, since as a rule none is made.
#[inline(never)]
fn searched_kind(t: &Topology, node: NodeId) -> Kind
    ensures { result ≡ kind_of t.now node }
{
    t.kind(node)
}

/// The kind of the unit at a place of a record.
fn kind_at(values: &UnitMap<KeptValue>, place: usize, t: &Topology) -> Kind {
    match values.entry(place) {
        Some((Unit::Node(node), _)) => t.kind(node),
        _ => Kind::Unknown,
    }
}

/// Whether the entry of a kind and place is that of a node.
#[inline(always)]
fn has_kind(t: &Topology, node: NodeId, kind: Kind) -> bool
    ensures { result ≡ true → IsKind t.now node kind }
{
    match kind {
        Kind::Proc(place) => match t.procs.as_slice().get(place) {
            Some(proc) => proc.node.0 == node.0,
            None => false,
        },
        Kind::Slave(place) => match t.slaves.as_slice().get(place) {
            Some(slave) => slave.node.0 == node.0,
            None => false,
        },
        Kind::Power(place) => match t.powers.as_slice().get(place) {
            Some(power) => power.node.0 == node.0,
            None => false,
        },
        Kind::Unknown => false,
    }
}

/// Whether nodes of this kind are power nodes.
pub fn is_power_kind(kind: Kind) -> bool
    ensures { result ≡ is_power_kind kind }
{
    matches!(kind, Kind::Power(_))
}
