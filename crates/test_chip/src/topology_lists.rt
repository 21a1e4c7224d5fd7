//! Small topologies, built of lists.

use crate::rows::boxed;
use pm_base::{Caps, LineId, List, NoMemory, NodeId};
use pm_topology::{LineDef, MasterDef, PowerDef, ProcDef, SlaveDef, SlaveState, Topology};
use std::alloc::Global;

pub(crate) type Power = (u32, Option<usize>);

pub(crate) type Proc = (u32, usize);

pub(crate) type Slave = (u32, usize, States);

pub(crate) type Line = (u32, u32);

pub(crate) type Master = (u32, &'static [u32]);

/// A small topology: powers by number and parent, processors by number and parent, slaves by number,
/// parent and states, lines by number and target, masters by number and processors.
pub(crate) type Lists = (
    &'static [Power],
    &'static [Proc],
    &'static [Slave],
    &'static [Line],
    &'static [Master],
);

const OFF: SlaveState = SlaveState {
    caps: Caps(0),
    latency: 100,
    powered: false,
    figure: 0,
};

const KEPT: SlaveState = SlaveState {
    caps: Caps(2),
    latency: 50,
    powered: true,
    figure: 1,
};

const ON: SlaveState = SlaveState {
    caps: Caps(3),
    latency: 0,
    powered: true,
    figure: 9,
};

const LATE: SlaveState = SlaveState {
    caps: Caps(3),
    latency: 1,
    powered: true,
    figure: 9,
};

/// The states of a slave: a sound list, one whose fullest state isn't the last, one whose fullest state takes long to
/// leave, five states, and none.
#[derive(Clone, Copy)]
pub(crate) enum States {
    Full,
    NotFull,
    Slow,
    Five,
    Nothing,
}

fn states_of(states: States) -> &'static [SlaveState] {
    match states {
        States::Full => &[OFF, KEPT, ON],
        States::NotFull => &[ON, KEPT],
        States::Slow => &[OFF, LATE],
        States::Five => &[OFF, OFF, KEPT, KEPT, ON],
        States::Nothing => &[],
    }
}

// The lists of a topology that passes.

pub(crate) const POWERS: &[Power] = &[(9, None), (10, Some(0))];

pub(crate) const PROCS: &[Proc] = &[(2, 1), (3, 1), (7, 1), (8, 1)];

pub(crate) const SLAVES: &[Slave] = &[(11, 1, States::Full), (12, 0, States::Full)];

pub(crate) const LINES: &[Line] = &[(2, 2), (11, 11)];

pub(crate) const MASTERS: &[Master] = &[(1, &[2, 3]), (6, &[7]), (7, &[7]), (8, &[8])];

pub(crate) fn power((number, parent): Power) -> PowerDef {
    PowerDef {
        node: NodeId(number),
        parent,
        held: false,
        figure: 1,
        latency: 1,
    }
}

pub(crate) fn proc((number, parent): Proc) -> ProcDef {
    ProcDef {
        node: NodeId(number),
        parent,
        figure: 1,
        latency: 1,
    }
}

pub(crate) fn line((number, target): Line) -> LineDef {
    LineDef {
        line: LineId(number),
        target: Some(NodeId(target)),
    }
}

/// A list of these items.
fn list_of<T: Copy + Drop>(alloc: Global, items: &[T]) -> Result<List<T>, NoMemory> {
    let mut list = List::new(alloc);
    for item in items {
        list.push(*item)?;
    }
    Ok(list)
}

pub(crate) fn slave(alloc: Global, (number, parent, kind): Slave) -> Result<SlaveDef, NoMemory> {
    Ok(SlaveDef {
        node: NodeId(number),
        parent,
        states: list_of(alloc, states_of(kind))?,
    })
}

fn node_list(alloc: Global, numbers: &[u32]) -> Result<List<NodeId>, NoMemory> {
    let mut list = List::new(alloc);
    for number in numbers {
        list.push(NodeId(*number))?;
    }
    Ok(list)
}

pub(crate) fn master(alloc: Global, (number, procs): Master) -> Result<MasterDef, NoMemory> {
    Ok(MasterDef {
        node: NodeId(number),
        procs: node_list(alloc, procs)?,
    })
}

fn put_powers(topology: &mut Topology, entries: &[Power]) -> Result<(), NoMemory> {
    for entry in entries {
        topology.powers.push(power(*entry))?;
    }
    Ok(())
}

fn put_procs(topology: &mut Topology, entries: &[Proc]) -> Result<(), NoMemory> {
    for entry in entries {
        topology.procs.push(proc(*entry))?;
    }
    Ok(())
}

fn put_slaves(alloc: Global, topology: &mut Topology, entries: &[Slave]) -> Result<(), NoMemory> {
    for entry in entries {
        topology.slaves.push(slave(alloc, *entry)?)?;
    }
    Ok(())
}

fn put_lines(topology: &mut Topology, entries: &[Line]) -> Result<(), NoMemory> {
    for entry in entries {
        topology.lines.push(line(*entry))?;
    }
    Ok(())
}

fn put_masters(alloc: Global, topology: &mut Topology, entries: &[Master]) -> Result<(), NoMemory> {
    for entry in entries {
        topology.masters.push(master(alloc, *entry)?)?;
    }
    Ok(())
}

/// A topology whose lists are all empty.
fn empty(alloc: Global) -> Topology {
    Topology {
        slaves: List::new(alloc),
        procs: List::new(alloc),
        powers: List::new(alloc),
        lines: List::new(alloc),
        masters: List::new(alloc),
    }
}

pub(crate) fn built(alloc: Global, lists: &Lists) -> Result<Box<Topology>, NoMemory> {
    let (powers, procs, slaves, lines, masters) = *lists;
    let mut topology = boxed(alloc, empty(alloc))?;
    put_powers(&mut topology, powers)?;
    put_procs(&mut topology, procs)?;
    put_slaves(alloc, &mut topology, slaves)?;
    put_lines(&mut topology, lines)?;
    put_masters(alloc, &mut topology, masters)?;
    Ok(topology)
}
