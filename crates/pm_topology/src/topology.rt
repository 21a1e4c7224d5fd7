//! The table of a chip: its slaves, processors, power nodes, reset lines and masters.

ghost use Rattle.std.specs.Prelude.{◌≡◌, IfOk};

use pm_base::{Caps, LineId, List, NoMemory, NodeId, with};
use std::alloc::Global;

/// One state of a slave: what it can do there, how long it takes to leave it, whether it needs
/// its power node, and its figure of power. Latencies and figures are plain numbers, each in a
/// unit of this project's own.
#[derive(Clone, Copy, Debug, PartialEq, Eq)]
pub struct SlaveState {
    pub caps: Caps,
    pub latency: u32,
    pub powered: bool,
    pub figure: u32,
}

/// A slave (UG1200, "slave nodes"): `parent` is the place of its power node, and the states go
/// from the least to the fullest.
#[derive(Debug, Drop)]
pub struct SlaveDef {
    pub node: NodeId,
    pub parent: usize,
    pub states: List<SlaveState>,
}

/// A processor. `parent` is the place of its power node.
#[derive(Clone, Copy, Debug, PartialEq, Eq)]
pub struct ProcDef {
    pub node: NodeId,
    pub parent: usize,
    pub figure: u32,
    pub latency: u32,
}

/// A power node: a power domain or an island. `parent` is the place of the one above it, and a
/// node that is held is always up.
#[derive(Clone, Copy, Debug, PartialEq, Eq)]
pub struct PowerDef {
    pub node: NodeId,
    pub parent: Option<usize>,
    pub held: bool,
    pub figure: u32,
    pub latency: u32,
}

/// A reset line, and the processor or slave that it resets.
#[derive(Clone, Copy, Debug, PartialEq, Eq)]
pub struct LineDef {
    pub line: LineId,
    pub target: Option<NodeId>,
}

/// A master (UG1137, "PM master"), and its processors, the first one first.
#[derive(Debug, Drop)]
pub struct MasterDef {
    pub node: NodeId,
    pub procs: List<NodeId>,
}

/// The parts of a chip. A part is named by its place in its list, counted from 0, or by its number.
#[derive(Debug, Drop)]
pub struct Topology {
    pub slaves: List<SlaveDef>,
    pub procs: List<ProcDef>,
    pub powers: List<PowerDef>,
    pub lines: List<LineDef>,
    pub masters: List<MasterDef>,
}

impl Topology {
    /// An equal topology.
    ///
    /// # Errors
    ///
    /// `NoMemory` if there is not enough memory.
    pub fn copy(&self, alloc: Global) -> Result<Topology, NoMemory>
        ensures { IfOk result (λ copied. copied ≡ self.now) }
    {
        let slaves = copy_of_slaves(alloc, self.slaves.as_slice())?;
        let nodes = with(slaves, list_of(alloc, self.procs.as_slice()))?;
        let nodes = with(nodes, list_of(alloc, self.powers.as_slice()))?;
        let parts = with(nodes, list_of(alloc, self.lines.as_slice()))?;
        let parts = with(parts, copy_of_masters(alloc, self.masters.as_slice()))?;
        let ((((slaves, procs), powers), lines), masters) = parts;
        Ok(Topology {
            slaves,
            procs,
            powers,
            lines,
            masters,
        })
    }
}

/// A list of these items.
pub fn list_of<T: Copy + Drop>(alloc: Global, items: &[T]) -> Result<List<T>, NoMemory>
    ensures { IfOk result (λ list. list ≡ items.now) }
{
    let mut list = List::new(alloc);
    for item in items {
        list.push(*item)?;
    }
    Ok(list)
}

/// A copy of the slaves with their states.
fn copy_of_slaves(alloc: Global, slaves: &[SlaveDef]) -> Result<List<SlaveDef>, NoMemory>
    ensures { IfOk result (λ list. list ≡ slaves.now) }
{
    let mut list = List::new(alloc);
    for slave in slaves {
        list.push(copy_of_slave(alloc, slave)?)?;
    }
    Ok(list)
}

/// A copy of a slave with its states.
fn copy_of_slave(alloc: Global, slave: &SlaveDef) -> Result<SlaveDef, NoMemory>
    ensures { IfOk result (λ copied. copied ≡ slave.now) }
{
    Ok(SlaveDef {
        node: slave.node,
        parent: slave.parent,
        states: list_of(alloc, slave.states.as_slice())?,
    })
}

/// A copy of the masters with their processors.
fn copy_of_masters(alloc: Global, masters: &[MasterDef]) -> Result<List<MasterDef>, NoMemory>
    ensures { IfOk result (λ list. list ≡ masters.now) }
{
    let mut list = List::new(alloc);
    for master in masters {
        list.push(copy_of_master(alloc, master)?)?;
    }
    Ok(list)
}

/// A copy of a master with its processors.
fn copy_of_master(alloc: Global, master: &MasterDef) -> Result<MasterDef, NoMemory>
    ensures { IfOk result (λ copied. copied ≡ master.now) }
{
    Ok(MasterDef {
        node: master.node,
        procs: list_of(alloc, master.procs.as_slice())?,
    })
}
