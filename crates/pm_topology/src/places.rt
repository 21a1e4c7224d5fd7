//! The places of nodes and reset lines in the lists of a topology, the processors of a master, and the power nodes
//! above a node. A place is counted from 0.

ghost use Rattle.std.specs.Prelude.{◌≡◌, ◌<◌, ◌↔◌, ◌==◌, IsTrue, find, length, position};
ghost use Rattle.std.specs.List.{list_any};
ghost use Rattle.std.specs.Option.{option_copied};
ghost use Rattle.pm_topology.specs.Masters.{procs_of};
ghost use Rattle.pm_topology.specs.Places.{IsBelow, IsKind, is_below, kind_of, line_place, parent_at, power_parent, power_place, proc_place, slave_place, upwards};
ghost use Rattle.pm_topology.specs.WellFormed.{IsWellFormed};

use crate::topology::{MasterDef, PowerDef, ProcDef, SlaveDef, Topology};
use pm_base::{LineId, NodeId};

/// What a node number names: a place in one of the lists.
#[derive(Clone, Copy, Debug, PartialEq, Eq)]
pub enum Kind {
    Proc(usize),
    Slave(usize),
    Power(usize),
    /// No processor, slave or power node has the number.
    Unknown,
}

impl Topology {
    /// What the node of this number is, with its place in the list of its kind; `Unknown` if the chip has no such node.
    pub fn kind(&self, n: NodeId) -> Kind
        ensures place { result ≡ kind_of self.now n }
        ensures entry { IsKind self.now n result }
        ensures only { IsWellFormed self.now → (kind : Kind) → IsKind self.now n kind → kind ≡ result }
    {
        self.search(n)
    }

    /// The place of the reset line that has this number, if there is one.
    pub fn line_place(&self, line: LineId) -> Option<usize>
        ensures { result ≡ line_place self.now.lines line.0 }
    {
        self.lines
            .as_slice()
            .iter()
            .position(|def| def.line.0 == line.0)
    }

    /// The numbers of the processors of the master with this number, in their order in the topology; none if the chip
    /// has no such master.
    pub fn procs_of(&self, master: NodeId) -> &[NodeId]
        ensures { result.now ≡ procs_of self.now master.0 }
    {
        match entry_of(self.masters.as_slice(), master) {
            Some(def) => def.procs.as_slice(),
            None => &[],
        }
    }

    /// As `kind`. It searches the processors, then the power nodes, and last the slaves, since there are the most of
    /// these.
    fn search(&self, n: NodeId) -> Kind
        ensures { result ≡ kind_of self.now n }
    {
        if let Some(place) = proc_place(self.procs.as_slice(), n) {
            return Kind::Proc(place);
        }
        if let Some(place) = power_place(self.powers.as_slice(), n) {
            return Kind::Power(place);
        }
        match slave_place(self.slaves.as_slice(), n) {
            Some(place) => Kind::Slave(place),
            None => Kind::Unknown,
        }
    }

    /// Whether the power node at place `w` is above the node `n`, at any height.
    pub fn below(&self, w: usize, n: NodeId) -> bool
        requires { w < length self.now.powers }
        ensures above { result ≡ is_below self.now w n }
        ensures at_any_height { IsWellFormed self.now → IsTrue result ↔ IsBelow self.now w n }
    {
        is_on_way_up(self.powers.as_slice(), self.parent(n), w)
    }

    /// The place of the power node directly above a node; none if the chip has no such node, or if nothing is above it.
    pub(crate) fn parent(&self, n: NodeId) -> Option<usize>
        ensures { result ≡ parent_at self.now (kind_of self.now n) }
    {
        self.parent_by(self.kind(n))
    }

    /// The place of the power node directly above the node of this kind and place; none for `Unknown`, for a place past
    /// the end of its list, and for a power node with none above it.
    pub fn parent_by(&self, kind: Kind) -> Option<usize>
        ensures { result ≡ parent_at self.now kind }
    {
        match kind {
            Kind::Proc(place) => self.procs.as_slice().get(place).map(|proc| proc.parent),
            Kind::Slave(place) => self.slaves.as_slice().get(place).map(|slave| slave.parent),
            Kind::Power(place) => parent_of_power(self.powers.as_slice(), place),
            Kind::Unknown => None,
        }
    }
}

/// The entry of the master with this number, if there is one.
fn entry_of(masters: &[MasterDef], master: NodeId) -> Option<&MasterDef>
    ensures { option_copied result ≡ find (λ (def : MasterDef). def.node.0 == master.0) masters.now }
{
    masters.iter().find(|def| def.node.0 == master.0)
}

/// The place of a processor, if there is one of this number.
fn proc_place(procs: &[ProcDef], n: NodeId) -> Option<usize>
    ensures { result ≡ proc_place procs.now n.0 }
{
    procs.iter().position(|proc| proc.node == n)
}

/// The place of a slave, if there is one of this number.
fn slave_place(slaves: &[SlaveDef], n: NodeId) -> Option<usize>
    ensures { result ≡ slave_place slaves.now n.0 }
{
    slaves.iter().position(|slave| slave.node == n)
}

/// The place of a power node, if there is one of this number.
fn power_place(powers: &[PowerDef], n: NodeId) -> Option<usize>
    ensures { result ≡ power_place powers.now n.0 }
{
    powers.iter().position(|power| power.node == n)
}

/// The place of the power node directly above the power node at a place, if there is one.
fn parent_of_power(powers: &[PowerDef], place: usize) -> Option<usize>
    ensures { result ≡ power_parent powers.now place }
{
    powers.get(place).and_then(|power| power.parent)
}

/// Whether the power node at place `w` is the one at `from` or is above it, at any height; false if `from` is none.
fn is_on_way_up(powers: &[PowerDef], from: Option<usize>, w: usize) -> bool
    ensures { result ≡ list_any (λ v. v == w) (upwards (length powers.now) powers.now from) }
{
    let mut at = from;
    for _climbed in 0..powers.len() {
        let Some(v) = at else {
            return false;
        };
        if v == w {
            return true;
        }
        at = parent_of_power(powers, v);
    }
    false
}
