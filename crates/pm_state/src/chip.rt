//! The chip of a book, with the kinds of its nodes by number and what is below each power node.

ghost use Rattle.std.specs.Prelude.{◌≡◌, ◌<◌, IfOk, length, slice_get};
ghost use Rattle.pm_topology.specs.Places.{kind_of, slave_place as place_among};
ghost use Rattle.pm_topology.specs.WellFormed.{IsWellFormed};
ghost use Rattle.pm_state.specs.Below.{procs_below, slaves_below};
ghost use Rattle.pm_state.specs.Chip.{AreKinds};

use crate::below::{Below, all_below};
use pm_base::{List, NoMemory, NodeId, with};
use pm_topology::{Kind, SlaveDef, Topology};
use std::alloc::Global;
use std::marker::Model;

/// The number from which on the kind of a node isn't kept by number.
const NUMBERED: u32 = 1024;

/// The parts of a chip. Contracts see them alone. Beside them stand the kinds of the nodes with low numbers, which are
/// as a rule all of them: such a node is found in constant time, and any other by a search. For each power node the
/// places of what is below it are kept, too.
#[derive(Drop)]
pub struct Chip {
    topology: Topology,
    kinds: List<Kind>,
    below: List<Below>,
}

impl Model for Chip {
    ghost use Rattle.pm_topology.specs.declared.topology.Topology.{Topology};
    ghost use Rattle.pm_state.specs.Below.{AreBelow};
    ghost use Rattle.pm_state.specs.Chip.{AreKinds};

    ghost Value = { Topology };

    ghost view = { λ chip. chip.topology };

    ghost invariant = { λ chip. AreKinds chip.topology chip.kinds × AreBelow chip.topology chip.below };
}

impl Chip {
    /// The parts of a chip, each node of which is looked for once.
    pub(crate) fn load(alloc: Global, topology: Topology) -> Result<Chip, NoMemory>
        requires { IsWellFormed topology }
        ensures { IfOk result (λ chip. chip ≡ topology) }
    {
        let kinds = kinds_of(alloc, &topology)?;
        let (kinds, below) = with(kinds, all_below(alloc, &topology))?;
        Ok(Chip {
            topology,
            kinds,
            below,
        })
    }

    /// The topology of the chip.
    pub(crate) fn topology(&self) -> &Topology
        ensures { result.now ≡ self.now }
    {
        &self.topology
    }

    /// The list and the place of the entry that has this number.
    pub(crate) fn kind(&self, node: NodeId) -> Kind
        ensures { result ≡ kind_of self.now node }
    {
        match kept_kind(self.kinds.as_slice(), node) {
            Some(kind) => kind,
            None => self.topology.kind(node),
        }
    }

    /// The places of the slaves below the power node at place `w`, at any depth, in order.
    pub(crate) fn slaves_below(&self, w: usize) -> &List<usize>
        requires { w < length self.now.powers }
        ensures { result.now ≡ slaves_below self.now w }
    {
        &self.below.get(w).slaves
    }

    /// The places of the processors below the power node at place `w`, at any depth, in order.
    pub(crate) fn procs_below(&self, w: usize) -> &List<usize>
        requires { w < length self.now.powers }
        ensures { result.now ≡ procs_below self.now w }
    {
        &self.below.get(w).procs
    }

    /// The place of the slave that has this number.
    pub(crate) fn slave_place(&self, node: NodeId) -> Option<usize>
        ensures { result ≡ place_among self.now.slaves node.0 }
    {
        match self.kind(node) {
            Kind::Slave(place) => Some(place),
            Kind::Unknown => None,
            Kind::Proc(_) | Kind::Power(_) => place_among(self.topology.slaves.as_slice(), node),
        }
    }
}

/// The kind that is kept for a node, if one is.
fn kept_kind(kinds: &[Kind], node: NodeId) -> Option<Kind>
    ensures { result ≡ slice_get kinds.now node.0 }
{
    kinds.get(node.0 as usize).copied()
}

/// The place among these slaves of the one that has this number.
fn place_among(slaves: &[SlaveDef], node: NodeId) -> Option<usize>
    ensures { result ≡ place_among slaves.now node.0 }
{
    slaves.iter().position(|slave| slave.node.0 == node.0)
}

/// The kinds of the nodes with the numbers from 0 on, as far as they are kept.
fn kinds_of(alloc: Global, t: &Topology) -> Result<List<Kind>, NoMemory>
    ensures { IfOk result (λ kinds. AreKinds t.now kinds) }
{
    let mut kinds = List::new(alloc);
    for number in 0..end_of_numbers(t) {
        kinds.push(t.kind(NodeId(number)))?;
    }
    Ok(kinds)
}

/// One past the highest number of a node whose kind is kept by number.
fn end_of_numbers(t: &Topology) -> u32 {
    let procs = t.procs.as_slice().iter().map(|proc| end_of(proc.node));
    let powers = t.powers.as_slice().iter().map(|power| end_of(power.node));
    let slaves = t.slaves.as_slice().iter().map(|slave| end_of(slave.node));
    let most = procs.max().unwrap_or(0).max(powers.max().unwrap_or(0));
    most.max(slaves.max().unwrap_or(0))
}

/// One past the number of a node whose kind is kept by number, and 0 of another one.
fn end_of(node: NodeId) -> u32 {
    if node.0 < NUMBERED { node.0 + 1 } else { 0 }
}
