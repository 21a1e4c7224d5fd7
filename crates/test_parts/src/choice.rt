//! The chosen state of a slave.

ghost use Rattle.std.specs.Prelude.{◌≤◌, IfOk, length};
ghost use Rattle.pm_slaves.specs.Choice.{LastHas};

use crate::chip::chip;
use crate::rows::all_right;
use pm_base::{Caps, List, NoMemory};
use pm_slaves::{capabilities, first_that_meets, least_state};
use pm_topology::{SlaveState, Topology};
use std::alloc::Global;
use std::test::Fail;

// the place of a slave of each class
const MEMORY: usize = 0;

const BLOCK: usize = 9;

const PERIPHERAL: usize = 11;

const EXTERNAL: usize = 38;

const DRAM: usize = 44;

// the limits on the latency, around those of the class
const OF_MEMORY: &[Option<u32>] = &[None, Some(0), Some(299), Some(300), Some(999), Some(1000)];

const OF_DRAM: &[Option<u32>] = &[None, Some(0), Some(499), Some(500), Some(4999), Some(5000)];

const OF_PERIPHERAL: &[Option<u32>] = &[None, Some(0), Some(1), Some(99), Some(100), Some(101)];

const OF_BLOCK: &[Option<u32>] = &[None, Some(0), Some(1), Some(199), Some(200), Some(201)];

/// A row: the place of a slave, a set of capabilities, limits, and the chosen state for each of them. ACCESS is 1,
/// CONTEXT 2, WAKEUP 4.
static CHOICES: [(usize, u32, &[Option<u32>], [usize; 6]); 21] = [
    (MEMORY, 0, OF_MEMORY, [0, 2, 2, 1, 1, 0]),
    (MEMORY, 1, OF_MEMORY, [2, 2, 2, 2, 2, 2]),
    (MEMORY, 2, OF_MEMORY, [1, 2, 2, 1, 1, 1]),
    (MEMORY, 3, OF_MEMORY, [2, 2, 2, 2, 2, 2]),
    (DRAM, 0, OF_DRAM, [0, 2, 2, 1, 1, 0]),
    (DRAM, 1, OF_DRAM, [2, 2, 2, 2, 2, 2]),
    (DRAM, 2, OF_DRAM, [1, 2, 2, 1, 1, 1]),
    (DRAM, 3, OF_DRAM, [2, 2, 2, 2, 2, 2]),
    (PERIPHERAL, 0, OF_PERIPHERAL, [0, 1, 1, 1, 0, 0]),
    (PERIPHERAL, 1, OF_PERIPHERAL, [1, 1, 1, 1, 1, 1]),
    (PERIPHERAL, 2, OF_PERIPHERAL, [1, 1, 1, 1, 1, 1]),
    (PERIPHERAL, 3, OF_PERIPHERAL, [1, 1, 1, 1, 1, 1]),
    (PERIPHERAL, 4, OF_PERIPHERAL, [1, 1, 1, 1, 1, 1]),
    (PERIPHERAL, 5, OF_PERIPHERAL, [1, 1, 1, 1, 1, 1]),
    (PERIPHERAL, 6, OF_PERIPHERAL, [1, 1, 1, 1, 1, 1]),
    (PERIPHERAL, 7, OF_PERIPHERAL, [1, 1, 1, 1, 1, 1]),
    (BLOCK, 0, OF_BLOCK, [0, 1, 1, 1, 0, 0]),
    (BLOCK, 1, OF_BLOCK, [1, 1, 1, 1, 1, 1]),
    (BLOCK, 2, OF_BLOCK, [1, 1, 1, 1, 1, 1]),
    (BLOCK, 3, OF_BLOCK, [1, 1, 1, 1, 1, 1]),
    (EXTERNAL, 7, OF_BLOCK, [0, 0, 0, 0, 0, 0]),
];

/// The states of the slave at a place; none if there is no slave.
fn states(chip: &Topology, place: usize) -> &[SlaveState] {
    match chip.slaves.as_slice().get(place) {
        Some(slave) => slave.states.as_slice(),
        None => &[],
    }
}

/// Whether the chosen state for each limit is as expected.
fn are_chosen(states: &[SlaveState], caps: u32, limits: &[Option<u32>], wanted: &[usize]) -> bool {
    for (k, limit) in limits.iter().enumerate() {
        if first_that_meets(states, Caps(caps), *limit) != wanted.get(k).copied() {
            return false;
        }
    }
    true
}

fn wrong_choice(chip: &Topology) -> Option<usize> {
    for (row, (place, caps, limits, wanted)) in CHOICES.iter().enumerate() {
        if !are_chosen(states(chip, *place), *caps, limits, wanted) {
            return Some(row);
        }
    }
    None
}

#[test]
fn each_class_takes_its_least_state(rt: HostRuntime) -> Result<(), Fail> {
    let chip = chip(rt.alloc())?;
    all_right(&rt, wrong_choice(&chip));
    Ok(())
}

/// A row: the place of a slave, and a set of capabilities that it lacks.
static LACKED: [(usize, u32); 12] = [
    (MEMORY, 4),
    (MEMORY, 5),
    (MEMORY, 6),
    (MEMORY, 7),
    (BLOCK, 4),
    (BLOCK, 5),
    (BLOCK, 6),
    (BLOCK, 7),
    (DRAM, 4),
    (DRAM, 5),
    (DRAM, 6),
    (DRAM, 7),
];

fn wrong_lack(chip: &Topology) -> Option<usize> {
    for (row, (place, caps)) in LACKED.iter().enumerate() {
        let states = states(chip, *place);
        if capabilities(states) != Caps(3)
            || first_that_meets(states, Caps(*caps), None).is_some()
        {
            return Some(row);
        }
    }
    None
}

#[test]
fn a_capability_that_the_slave_lacks_is_met_by_no_state(rt: HostRuntime) -> Result<(), Fail> {
    let chip = chip(rt.alloc())?;
    all_right(&rt, wrong_lack(&chip));
    Ok(())
}

/// Two states, the last of which has ACCESS and CONTEXT.
fn two_states(alloc: Global) -> Result<List<SlaveState>, NoMemory>
    ensures few { IfOk result (λ states. length states ≤ 4) }
    ensures none { IfOk result (λ states. LastHas states 0) }
    ensures context { IfOk result (λ states. LastHas states 2) }
{
    let mut states = List::new(alloc);
    states.push(SlaveState {
        caps: Caps(0),
        latency: 100,
        powered: false,
        figure: 0,
    })?;
    states.push(SlaveState {
        caps: Caps(3),
        latency: 0,
        powered: true,
        figure: 9,
    })?;
    Ok(states)
}

#[test]
fn the_least_state_is_its_place(rt: HostRuntime) -> Result<(), Fail> {
    let states = two_states(rt.alloc())?;
    let found = [
        least_state(&states, Caps(0), None),
        least_state(&states, Caps(0), Some(100)),
        least_state(&states, Caps(0), Some(99)),
        least_state(&states, Caps(2), None),
    ];
    assert_eq!(rt; found, [0, 0, 1, 1]);
    Ok(())
}
