//! The table of the chip.

use crate::rows::{all_right, boxed, same};
use pm_base::{LineId, NodeId};
use pm_chip::zynqmp;
use pm_topology::{Kind, LineDef, SlaveDef, Topology};
use std::alloc::Global;
use std::test::Fail;

/// The chip's topology, without a contract: the tests need none.
pub(crate) fn chip(alloc: Global) -> Result<Box<Topology>, Fail> {
    Ok(boxed(alloc, zynqmp(alloc)?)?)
}

/// Each slave of the chip: its number, the number of its power node, and the letter of its class.
static SLAVES: [(u32, u32, char); 58] = [
    (11, 62, 'M'),
    (12, 62, 'M'),
    (13, 62, 'M'),
    (14, 62, 'M'),
    (15, 6, 'M'),
    (16, 6, 'M'),
    (17, 6, 'M'),
    (18, 6, 'M'),
    (19, 10, 'M'),
    (20, 10, 'P'),
    (21, 10, 'P'),
    (22, 62, 'S'),
    (23, 62, 'S'),
    (24, 62, 'S'),
    (25, 62, 'S'),
    (26, 62, 'S'),
    (27, 62, 'S'),
    (28, 10, 'S'),
    (29, 62, 'S'),
    (30, 62, 'S'),
    (31, 62, 'S'),
    (32, 62, 'S'),
    (33, 62, 'S'),
    (34, 62, 'S'),
    (35, 62, 'S'),
    (36, 62, 'S'),
    (37, 62, 'S'),
    (38, 62, 'S'),
    (39, 62, 'S'),
    (40, 62, 'S'),
    (41, 10, 'P'),
    (42, 10, 'S'),
    (43, 62, 'S'),
    (44, 62, 'S'),
    (45, 62, 'S'),
    (46, 62, 'S'),
    (47, 62, 'S'),
    (48, 62, 'S'),
    (49, 62, 'X'),
    (50, 10, 'P'),
    (51, 10, 'P'),
    (52, 10, 'P'),
    (53, 62, 'P'),
    (54, 62, 'P'),
    (55, 10, 'D'),
    (56, 62, 'S'),
    (57, 62, 'S'),
    (58, 10, 'P'),
    (59, 10, 'P'),
    (60, 62, 'P'),
    (61, 62, 'S'),
    (63, 9, 'P'),
    (64, 62, 'S'),
    (65, 62, 'S'),
    (66, 62, 'S'),
    (67, 62, 'S'),
    (68, 62, 'S'),
    (69, 9, 'P'),
];

/// A state: its capabilities, its latency, whether it needs power, and its figure.
type State = (u32, u32, bool, u32);

static MEMORY: [State; 3] = [(0, 1000, false, 0), (2, 300, true, 5), (3, 0, true, 15)];

static DRAM: [State; 3] = [(0, 5000, false, 0), (2, 500, false, 20), (3, 0, true, 120)];

static PERIPHERAL: [State; 2] = [(0, 100, false, 0), (7, 0, true, 10)];

static BLOCK: [State; 2] = [(0, 200, false, 0), (3, 0, true, 25)];

static EXTERNAL: [State; 1] = [(7, 0, false, 0)];

/// The states of the class with this letter.
fn states(class: char) -> &'static [State] {
    match class {
        'M' => &MEMORY,
        'D' => &DRAM,
        'S' => &PERIPHERAL,
        'P' => &BLOCK,
        'X' => &EXTERNAL,
        _ => &[],
    }
}

/// Whether a slave has exactly these states.
fn has_states(slave: &SlaveDef, wanted: &[State]) -> bool {
    for (place, state) in slave.states.as_slice().iter().enumerate() {
        let found = (state.caps.0, state.latency, state.powered, state.figure);
        if wanted.get(place).copied() != Some(found) {
            return false;
        }
    }
    slave.states.len() == wanted.len()
}

/// The number of the power node at a place.
fn power_number(chip: &Topology, place: usize) -> Option<u32> {
    chip.powers.as_slice().get(place).map(|power| power.node.0)
}

fn is_slave(chip: &Topology, place: usize, number: u32, parent: u32, class: char) -> bool {
    let Some(slave) = chip.slaves.as_slice().get(place) else {
        return false;
    };
    slave.node.0 == number
        && power_number(chip, slave.parent) == Some(parent)
        && has_states(slave, states(class))
}

fn wrong_slave(chip: &Topology) -> Option<usize> {
    for (place, (number, parent, class)) in SLAVES.iter().enumerate() {
        if !is_slave(chip, place, *number, *parent, *class) {
            return Some(place);
        }
    }
    None
}

#[test]
fn the_chip_has_the_published_slaves(rt: HostRuntime) -> Result<(), Fail> {
    let chip = chip(rt.alloc())?;
    same(&rt, chip.slaves.len(), SLAVES.len());
    all_right(&rt, wrong_slave(&chip));
    Ok(())
}

/// Each power node: its number, its parent's, whether it is held, its figure and its latency.
static POWERS: [(u32, Option<u32>, bool, u32, u32); 5] = [
    (9, None, false, 50, 1000),
    (10, None, false, 80, 2000),
    (62, None, true, 20, 3000),
    (1, Some(10), false, 30, 500),
    (6, Some(62), false, 10, 300),
];

fn is_power(chip: &Topology, place: usize, wanted: (u32, Option<u32>, bool, u32, u32)) -> bool {
    let Some(power) = chip.powers.as_slice().get(place) else {
        return false;
    };
    let above = match power.parent {
        Some(place) => power_number(chip, place),
        None => None,
    };
    (power.node.0, above, power.held, power.figure, power.latency) == wanted
}

fn wrong_power(chip: &Topology) -> Option<usize> {
    for (place, wanted) in POWERS.iter().enumerate() {
        if !is_power(chip, place, *wanted) {
            return Some(place);
        }
    }
    None
}

/// Each processor: its number, the number of its power node, its figure and its latency.
static PROCS: [(u32, u32, u32, u32); 6] = [
    (2, 1, 300, 400),
    (3, 1, 300, 400),
    (4, 1, 300, 400),
    (5, 1, 300, 400),
    (7, 6, 100, 200),
    (8, 6, 100, 200),
];

fn is_proc(chip: &Topology, place: usize, wanted: (u32, u32, u32, u32)) -> bool {
    let Some(proc) = chip.procs.as_slice().get(place) else {
        return false;
    };
    let (number, parent, figure, latency) = wanted;
    (proc.node.0, proc.figure, proc.latency) == (number, figure, latency)
        && power_number(chip, proc.parent) == Some(parent)
}

fn wrong_proc(chip: &Topology) -> Option<usize> {
    for (place, wanted) in PROCS.iter().enumerate() {
        if !is_proc(chip, place, *wanted) {
            return Some(place);
        }
    }
    None
}

#[test]
fn the_chip_has_the_published_power_nodes_and_processors(rt: HostRuntime) -> Result<(), Fail> {
    let chip = chip(rt.alloc())?;
    same(
        &rt,
        (chip.powers.len(), chip.procs.len()),
        (POWERS.len(), PROCS.len()),
    );
    all_right(&rt, wrong_power(&chip));
    all_right(&rt, wrong_proc(&chip));
    Ok(())
}

fn is_line(chip: &Topology, place: usize, number: u32) -> bool {
    let line = LineId(number);
    let target = Some(NodeId(number));
    chip.lines.as_slice().get(place).copied() == Some(LineDef { line, target })
}

/// The lines of the processors come first.
fn wrong_proc_line(chip: &Topology) -> Option<usize> {
    for (place, proc) in PROCS.iter().enumerate() {
        if !is_line(chip, place, proc.0) {
            return Some(place);
        }
    }
    None
}

fn wrong_slave_line(chip: &Topology) -> Option<usize> {
    for (place, slave) in SLAVES.iter().enumerate() {
        if !is_line(chip, place.saturating_add(6), slave.0) {
            return Some(place);
        }
    }
    None
}

/// Each master: its number and its processors.
static MASTERS: [(u32, &[NodeId]); 4] = [
    (1, &[NodeId(2), NodeId(3), NodeId(4), NodeId(5)]),
    (6, &[NodeId(7)]),
    (7, &[NodeId(7)]),
    (8, &[NodeId(8)]),
];

fn is_master(chip: &Topology, place: usize, number: u32, procs: &[NodeId]) -> bool {
    match chip.masters.as_slice().get(place) {
        Some(master) => master.node.0 == number && master.procs.as_slice() == procs,
        None => false,
    }
}

fn wrong_master(chip: &Topology) -> Option<usize> {
    for (place, (number, procs)) in MASTERS.iter().enumerate() {
        if !is_master(chip, place, *number, procs) {
            return Some(place);
        }
    }
    None
}

#[test]
fn the_chip_has_the_published_lines_and_masters(rt: HostRuntime) -> Result<(), Fail> {
    let chip = chip(rt.alloc())?;
    same(
        &rt,
        (chip.lines.len(), chip.masters.len()),
        (64, MASTERS.len()),
    );
    all_right(&rt, wrong_proc_line(&chip));
    all_right(&rt, wrong_slave_line(&chip));
    all_right(&rt, wrong_master(&chip));
    Ok(())
}

/// A node's number, and its kind and place.
static KINDS: [(u32, Kind); 9] = [
    (2, Kind::Proc(0)),
    (8, Kind::Proc(5)),
    (11, Kind::Slave(0)),
    (69, Kind::Slave(57)),
    (9, Kind::Power(0)),
    (62, Kind::Power(2)),
    (6, Kind::Power(4)),
    (0, Kind::Unknown),
    (70, Kind::Unknown),
];

/// A copy of the chip's topology, without a contract: the tests need none.
fn copied(alloc: Global, chip: &Topology) -> Result<Box<Topology>, Fail> {
    Ok(boxed(alloc, chip.copy(alloc)?)?)
}

fn wrong_kind(chip: &Topology) -> Option<usize> {
    for (place, (number, kind)) in KINDS.iter().enumerate() {
        if chip.kind(NodeId(*number)) != *kind {
            return Some(place);
        }
    }
    None
}

#[test]
fn a_copy_passes_and_names_the_same_nodes(rt: HostRuntime) -> Result<(), Fail> {
    let first = chip(rt.alloc())?;
    let chip = copied(rt.alloc(), &first)?;
    same(&rt, chip.check(), Ok(()));
    all_right(&rt, wrong_kind(&chip));
    Ok(())
}

/// A node's number, and whether PLD, FPD, LPD, the APU's island and the RPU's are above it.
static ABOVE: [(u32, [bool; 5]); 9] = [
    (2, [false, true, false, true, false]),
    (7, [false, false, true, false, true]),
    (15, [false, false, true, false, true]),
    (11, [false, false, true, false, false]),
    (55, [false, true, false, false, false]),
    (69, [true, false, false, false, false]),
    (1, [false, true, false, false, false]),
    (10, [false, false, false, false, false]),
    (70, [false, false, false, false, false]),
];

/// Whether a node is below the power node at a place, if there is one.
fn is_below(chip: &Topology, place: usize, number: u32) -> Option<bool> {
    if place < chip.powers.len() {
        Some(chip.below(place, NodeId(number)))
    } else {
        None
    }
}

/// Whether exactly these power nodes are above a node.
fn are_above(chip: &Topology, number: u32, wanted: &[bool]) -> bool {
    for (place, above) in wanted.iter().enumerate() {
        if is_below(chip, place, number) != Some(*above) {
            return false;
        }
    }
    true
}

fn wrong_above(chip: &Topology) -> Option<usize> {
    for (place, (number, wanted)) in ABOVE.iter().enumerate() {
        if !are_above(chip, *number, wanted) {
            return Some(place);
        }
    }
    None
}

#[test]
fn nodes_are_below_all_power_nodes_above_them(rt: HostRuntime) -> Result<(), Fail> {
    let chip = chip(rt.alloc())?;
    all_right(&rt, wrong_above(&chip));
    Ok(())
}
