//! The chips of the tests: a chain of power nodes, and a tree of them. They have no slaves.

ghost use Rattle.std.specs.Prelude.{◌≡◌, [], false, IfOk};
ghost use Rattle.pm_chip.specs.Chip.{power, proc};
ghost use Rattle.test_power.specs.Chain.{powers, procs};

use pm_base::{List, NoMemory, NodeId};
use pm_topology::{MasterDef, PowerDef, ProcDef, Topology};
use std::alloc::Global;

/// A chip of these power nodes, processors and masters.
fn chip(
    powers: List<PowerDef>,
    procs: List<ProcDef>,
    masters: List<MasterDef>,
    alloc: Global,
) -> Topology
    ensures powers { result.powers ≡ powers }
    ensures procs { result.procs ≡ procs }
    ensures slaves { result.slaves ≡ [] }
{
    Topology {
        slaves: List::new(alloc),
        procs,
        powers,
        lines: List::new(alloc),
        masters,
    }
}

/// The masters by number, each with its processor.
static MASTERS: [(u32, u32); 4] = [(1, 1), (6, 2), (7, 3), (8, 4)];

/// The masters of each chip.
fn masters(alloc: Global) -> Result<List<MasterDef>, NoMemory> {
    let mut list = List::new(alloc);
    for (number, proc) in MASTERS.iter() {
        let mut procs = List::new(alloc);
        procs.push(NodeId(*proc))?;
        list.push(MasterDef {
            node: NodeId(*number),
            procs,
        })?;
    }
    Ok(list)
}

/// A power node, by its number, its parent's place, and whether it is held.
fn power(number: u32, parent: Option<usize>, held: bool) -> PowerDef
    ensures { result ≡ power number parent held 1 10 }
{
    PowerDef {
        node: NodeId(number),
        parent,
        held,
        figure: 1,
        latency: 10,
    }
}

/// A processor, by its number and its parent's place.
fn proc(number: u32, parent: usize) -> ProcDef
    ensures { result ≡ proc number parent 2 20 }
{
    ProcDef {
        node: NodeId(number),
        parent,
        figure: 2,
        latency: 20,
    }
}

/// Four power nodes, 10 to 13, each below the one before it, and the processors 1 to 4, one at each of them.
pub(crate) fn chain(alloc: Global) -> Result<Topology, NoMemory>
    ensures powers { IfOk result (λ t. t.powers ≡ powers) }
    ensures procs { IfOk result (λ t. t.procs ≡ procs) }
    ensures slaves { IfOk result (λ t. t.slaves ≡ []) }
{
    Ok(chip(
        chain_powers(alloc)?,
        chain_procs(alloc)?,
        masters(alloc)?,
        alloc,
    ))
}

fn chain_powers(alloc: Global) -> Result<List<PowerDef>, NoMemory>
    ensures { IfOk result (λ list. list ≡ powers) }
{
    let mut list = List::new(alloc);
    list.push(power(10, None, false))?;
    list.push(power(11, Some(0), false))?;
    list.push(power(12, Some(1), false))?;
    list.push(power(13, Some(2), false))?;
    Ok(list)
}

fn chain_procs(alloc: Global) -> Result<List<ProcDef>, NoMemory>
    ensures { IfOk result (λ list. list ≡ procs) }
{
    let mut list = List::new(alloc);
    list.push(proc(1, 0))?;
    list.push(proc(2, 1))?;
    list.push(proc(3, 2))?;
    list.push(proc(4, 3))?;
    Ok(list)
}

/// The power nodes of two trees, by number, parent's place, and whether they are held. A node at the bottom holds up
/// the second tree.
static TREE: [(u32, Option<usize>, bool); 7] = [
    (10, None, false),
    (11, Some(0), false),
    (12, Some(0), false),
    (13, Some(1), false),
    (14, Some(1), false),
    (15, None, false),
    (16, Some(5), true),
];

/// The processors of the tree by number and parent's place.
static BELOW: [(u32, usize); 6] = [(1, 3), (2, 3), (3, 4), (4, 2), (5, 6), (6, 5)];

/// Two trees of power nodes, with processors below.
pub(crate) fn tree(alloc: Global) -> Result<Topology, NoMemory> {
    let mut powers = List::new(alloc);
    for (number, parent, held) in TREE.iter() {
        powers.push(power(*number, *parent, *held))?;
    }
    let mut procs = List::new(alloc);
    for (number, parent) in BELOW.iter() {
        procs.push(proc(*number, *parent))?;
    }
    Ok(chip(powers, procs, masters(alloc)?, alloc))
}
