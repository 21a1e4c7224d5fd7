//! The power nodes that are up as needs come and go.

ghost use Rattle.std.specs.Prelude.{◌≡◌, ◌<◌};

use crate::chips::{chain, tree};
use crate::rows::all_right;
use pm_base::{NoMemory, NodeId, Steps};
use pm_power::Power;
use pm_topology::Topology;
use std::marker::Brand;
use std::process::Abort;
use std::sync::ledger::{Blank, Ledger};
use std::test::Fail;

/// A row: a node and its need, and then the processors that need their power nodes, and the places of the power nodes
/// that are up.
type Step = (u32, bool, &'static [u32], &'static [usize]);

static CHAIN_WALK: [Step; 19] = [
    (1, false, &[], &[]),
    (1, true, &[1], &[0]),
    (2, true, &[1, 2], &[0, 1]),
    (1, false, &[2], &[0, 1]),
    (3, true, &[2, 3], &[0, 1, 2]),
    (2, false, &[3], &[0, 1, 2]),
    (4, true, &[3, 4], &[0, 1, 2, 3]),
    (3, false, &[4], &[0, 1, 2, 3]),
    (4, true, &[4], &[0, 1, 2, 3]),
    (4, false, &[], &[]),
    (4, false, &[], &[]),
    (4, true, &[4], &[0, 1, 2, 3]),
    (2, true, &[2, 4], &[0, 1, 2, 3]),
    (4, false, &[2], &[0, 1]),
    (3, true, &[2, 3], &[0, 1, 2]),
    (10, true, &[2, 3], &[0, 1, 2]),
    (13, true, &[2, 3], &[0, 1, 2]),
    (5, true, &[2, 3], &[0, 1, 2]),
    (12, false, &[2, 3], &[0, 1, 2]),
];

/// The held node 16 at place 6 keeps 15 at place 5 up.
static TREE_WALK: [Step; 18] = [
    (1, false, &[], &[5, 6]),
    (1, true, &[1], &[0, 1, 3, 5, 6]),
    (2, true, &[1, 2], &[0, 1, 3, 5, 6]),
    (1, false, &[2], &[0, 1, 3, 5, 6]),
    (3, true, &[2, 3], &[0, 1, 3, 4, 5, 6]),
    (2, false, &[3], &[0, 1, 4, 5, 6]),
    (4, true, &[3, 4], &[0, 1, 2, 4, 5, 6]),
    (3, false, &[4], &[0, 2, 5, 6]),
    (5, true, &[4, 5], &[0, 2, 5, 6]),
    (5, true, &[4, 5], &[0, 2, 5, 6]),
    (5, false, &[4], &[0, 2, 5, 6]),
    (6, true, &[4, 6], &[0, 2, 5, 6]),
    (6, false, &[4], &[0, 2, 5, 6]),
    (4, false, &[], &[5, 6]),
    (3, true, &[3], &[0, 1, 4, 5, 6]),
    (1, true, &[1, 3], &[0, 1, 3, 4, 5, 6]),
    (16, false, &[1, 3], &[0, 1, 3, 4, 5, 6]),
    (0, false, &[1, 3], &[0, 1, 3, 4, 5, 6]),
];

/// The numbers of the power nodes by place.
static POWERS: [u32; 7] = [10, 11, 12, 13, 14, 15, 16];

/// The numbers of the processors.
static PROCS: [u32; 6] = [1, 2, 3, 4, 5, 6];

/// Whether exactly the power nodes at these places are up.
fn are_up(power: &Power, places: &[usize]) -> bool {
    for (place, up) in power.ups().iter().enumerate() {
        if *up != places.contains(&place) {
            return false;
        }
    }
    true
}

/// Whether exactly the power nodes at these places need their parents.
fn powers_need(power: &Power, places: &[usize]) -> bool {
    for (place, number) in POWERS.iter().enumerate() {
        if power.needs(NodeId(*number)) != places.contains(&place) {
            return false;
        }
    }
    true
}

/// Whether exactly the processors with these numbers need their power nodes.
fn procs_need(power: &Power, numbers: &[u32]) -> bool {
    for number in PROCS.iter() {
        if power.needs(NodeId(*number)) != numbers.contains(number) {
            return false;
        }
    }
    true
}

/// The index of the first row of a walk after which other nodes are up or need their parents.
fn wrong_step<L: Ledger>(power: &mut Power, walk: &[Step], blank: Blank) -> Option<usize>
    requires name { blank.name ≡ L.name }
    requires parts { blank.parts ≡ L.parts }
    requires some { 0 < blank.parts }
{
    let mut steps = Steps::<L>::new(blank);
    for (row, (node, on, numbers, places)) in walk.iter().enumerate() {
        power.need(NodeId(*node), *on, &mut steps);
        if !are_up(power, places) || !powers_need(power, places) || !procs_need(power, numbers) {
            return Some(row);
        }
    }
    None
}

/// The forest of a well-formed chip.
fn forest(rt: &(impl Abort + AllocGlobal), chip: &Topology) -> Result<Power, NoMemory> {
    assert!(rt; chip.check().is_ok());
    Power::load(rt.alloc(), chip)
}

#[test]
fn a_need_climbs_each_level_of_a_chain(rt: HostRuntime) -> Result<(), Fail> {
    let mut power = forest(&rt, &chain(rt.alloc())?)?;
    assert_eq!(rt; power.ups().len(), 4);
    let wrong = wrong_step::<Brand>(&mut power, &CHAIN_WALK, Blank::new(1));
    all_right(&rt, wrong);
    Ok(())
}

#[test]
fn needs_of_a_tree_meet_at_its_branches(rt: HostRuntime) -> Result<(), Fail> {
    let mut power = forest(&rt, &tree(rt.alloc())?)?;
    assert_eq!(rt; power.ups().len(), 7);
    let wrong = wrong_step::<Brand>(&mut power, &TREE_WALK, Blank::new(1));
    all_right(&rt, wrong);
    Ok(())
}

/// A row: the needs of the processors, and then those that need their power nodes, and the places that are up.
static RECOMPUTES: [(&[bool], &[u32], &[usize]); 6] = [
    (&[true; 6], &[1, 2, 3, 4, 5, 6], &[0, 1, 2, 3, 4, 5, 6]),
    (&[false, true], &[2], &[0, 1, 3, 5, 6]),
    (&[false, true, false, false], &[2], &[0, 1, 3, 5, 6]),
    (&[false, false, true], &[3], &[0, 1, 4, 5, 6]),
    (&[], &[], &[5, 6]),
    (
        &[false, false, false, true, false, false, true],
        &[4],
        &[0, 2, 5, 6],
    ),
];

/// The index of the first row after which other nodes are up or need their parents.
fn wrong_recompute<L: Ledger>(power: &mut Power, blank: Blank) -> Option<usize>
    requires name { blank.name ≡ L.name }
    requires parts { blank.parts ≡ L.parts }
    requires some { 0 < blank.parts }
{
    let mut steps = Steps::<L>::new(blank);
    for (row, (needs, numbers, places)) in RECOMPUTES.iter().enumerate() {
        power.recompute(&[], needs, &mut steps);
        if !are_up(power, places) || !powers_need(power, places) || !procs_need(power, numbers) {
            return Some(row);
        }
    }
    None
}

#[test]
fn all_needs_are_set_at_once(rt: HostRuntime) -> Result<(), Fail> {
    let mut power = forest(&rt, &tree(rt.alloc())?)?;
    all_right(&rt, wrong_recompute::<Brand>(&mut power, Blank::new(1)));
    Ok(())
}
