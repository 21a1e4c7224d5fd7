//! A small chip, in which the number 8 is both a master's node and a power node's, which is not a part of that
//! master.

ghost use Rattle.std.specs.Prelude.{◌≡◌, ◌++◌, ◌∷◌, [], None, IfOk};
ghost use Rattle.pm_chip.specs.Chip.{master, power, proc};
ghost use Rattle.pm_topology.specs.WellFormed.{IsWellFormed};
ghost use Rattle.test_books.specs.SmallTable.{masters, powers, procs, slaves, small};

use pm_base::{Caps, List, NoMemory, NodeId};
use pm_topology::{MasterDef, PowerDef, ProcDef, SlaveDef, SlaveState, Topology};
use std::alloc::Global;

/// The place of the power node above the processors and the slave.
const HELD: usize = 0;

/// An object for it: masters 1 and 8, each of which may ask 8 to suspend, and slave 46, which 1 alone may use.
pub const SMALL_OBJECT: &[u32] = &[
    2, 2, 1, 0x101, 2, 1, 0x1, 100, 0x200, 0, 8, 0x200, 100, 0x200, 0, 0x102, 1, 46, 0, 0x1,
];

/// The table of the small chip.
///
/// # Errors
///
/// `NoMemory` if there is not enough memory.
#[tactic(auto, using(crate::proofs::SmallTableLaw::small_sound), unfolding(crate::specs::SmallTable::small))]
pub fn small_chip(alloc: Global) -> Result<Topology, NoMemory>
    ensures table { IfOk result (λ topology. topology ≡ small) }
    ensures sound { IfOk result IsWellFormed }
{
    Ok(Topology {
        slaves: slaves(alloc)?,
        procs: procs(alloc)?,
        powers: powers(alloc)?,
        lines: List::new(alloc),
        masters: masters(alloc)?,
    })
}

fn powers(alloc: Global) -> Result<List<PowerDef>, NoMemory>
    ensures { IfOk result (λ list. list ≡ powers) }
{
    let mut powers = List::new(alloc);
    powers.push(power(100, true, 20, 3000))?;
    powers.push(power(8, false, 10, 300))?;
    Ok(powers)
}

/// A power node without a parent, by its number, whether it is held, its figure and its latency.
fn power(number: u32, held: bool, figure: u32, latency: u32) -> PowerDef
    ensures { result ≡ power number None held figure latency }
{
    PowerDef {
        node: NodeId(number),
        parent: None,
        held,
        figure,
        latency,
    }
}

fn procs(alloc: Global) -> Result<List<ProcDef>, NoMemory>
    ensures { IfOk result (λ list. list ≡ procs) }
{
    let mut procs = List::new(alloc);
    procs.push(proc(2, 300, 400))?;
    procs.push(proc(107, 100, 200))?;
    procs.push(proc(108, 100, 200))?;
    Ok(procs)
}

/// A processor, by its number, its figure and its latency.
fn proc(number: u32, figure: u32, latency: u32) -> ProcDef
    ensures { result ≡ proc number 0 figure latency }
{
    ProcDef {
        node: NodeId(number),
        parent: HELD,
        figure,
        latency,
    }
}

fn slaves(alloc: Global) -> Result<List<SlaveDef>, NoMemory>
    ensures { IfOk result (λ list. list ≡ slaves) }
{
    let mut states = List::new(alloc);
    states.push(SlaveState {
        caps: Caps(7),
        latency: 0,
        powered: true,
        figure: 10,
    })?;
    let mut slaves = List::new(alloc);
    slaves.push(SlaveDef {
        node: NodeId(46),
        parent: HELD,
        states,
    })?;
    Ok(slaves)
}

fn masters(alloc: Global) -> Result<List<MasterDef>, NoMemory>
    ensures { IfOk result (λ list. list ≡ masters) }
{
    let mut masters = List::new(alloc);
    push_master(alloc, &mut masters, 1, 2)?;
    push_master(alloc, &mut masters, 6, 107)?;
    push_master(alloc, &mut masters, 7, 107)?;
    push_master(alloc, &mut masters, 8, 108)?;
    Ok(masters)
}

/// Appends a master with one processor, by the numbers of both.
fn push_master(
    alloc: Global,
    masters: &mut List<MasterDef>,
    number: u32,
    proc: u32,
) -> Result<(), NoMemory>
    ensures { IfOk result (λ _. masters.new ≡ masters.old ++ master number (record { 0 = proc } ∷ []) ∷ []) }
{
    masters.push(master(alloc, number, proc)?)
}

/// A master with one processor, by the numbers of both.
fn master(alloc: Global, number: u32, proc: u32) -> Result<MasterDef, NoMemory>
    ensures { IfOk result (λ made. made ≡ master number (record { 0 = proc } ∷ [])) }
{
    let mut procs = List::new(alloc);
    procs.push(NodeId(proc))?;
    Ok(MasterDef {
        node: NodeId(number),
        procs,
    })
}
