//! The first fault of a topology.

use crate::rows::all_right;
use crate::topology_lists::{LINES, Lists, MASTERS, POWERS, PROCS, SLAVES, States, built};
use pm_topology::{TopoCause, TopoFault, Topology};
use std::alloc::Global;
use std::test::Fail;

/// The first fault with its place, if there is one.
pub(crate) type Found = Option<(TopoCause, usize)>;

/// The first fault of the topology with these lists.
pub(crate) fn fault_of(alloc: Global, lists: &Lists) -> Result<Found, Fail> {
    let topology = built(alloc, lists)?;
    Ok(first_fault(&topology))
}

pub(crate) fn first_fault(topology: &Topology) -> Found {
    match topology.check() {
        Ok(()) => None,
        Err(TopoFault { cause, place }) => Some((cause, place)),
    }
}

/// A case: lists, and the first fault of their topology with its place.
type Case = (Lists, TopoCause, usize);

static FAULTS: [Case; 13] = [
    (
        (&[(9, None), (9, Some(0))], PROCS, SLAVES, LINES, MASTERS),
        TopoCause::Repeated,
        1,
    ),
    (
        (&[(9, None), (10, Some(1))], PROCS, SLAVES, LINES, MASTERS),
        TopoCause::ParentLate,
        1,
    ),
    (
        (&[(9, Some(1)), (10, None)], PROCS, SLAVES, LINES, MASTERS),
        TopoCause::ParentLate,
        0,
    ),
    (
        (POWERS, &[(2, 1), (10, 1)], SLAVES, LINES, MASTERS),
        TopoCause::Repeated,
        1,
    ),
    (
        (POWERS, &[(2, 2), (3, 1)], SLAVES, LINES, MASTERS),
        TopoCause::ParentLate,
        0,
    ),
    (
        (
            POWERS,
            PROCS,
            &[(11, 1, States::Full), (2, 0, States::Full)],
            LINES,
            MASTERS,
        ),
        TopoCause::Repeated,
        1,
    ),
    (
        (
            POWERS,
            PROCS,
            &[(11, 2, States::Full), (12, 0, States::Full)],
            LINES,
            MASTERS,
        ),
        TopoCause::ParentLate,
        0,
    ),
    (
        (
            POWERS,
            PROCS,
            &[(11, 1, States::Full), (12, 0, States::Nothing)],
            LINES,
            MASTERS,
        ),
        TopoCause::NoStates,
        1,
    ),
    (
        (
            POWERS,
            PROCS,
            &[(11, 1, States::NotFull), (12, 0, States::Full)],
            LINES,
            MASTERS,
        ),
        TopoCause::LastNotFull,
        0,
    ),
    (
        (
            POWERS,
            PROCS,
            &[(11, 1, States::Full), (12, 0, States::Slow)],
            LINES,
            MASTERS,
        ),
        TopoCause::LastNotFull,
        1,
    ),
    (
        (
            POWERS,
            PROCS,
            &[(11, 1, States::Full), (12, 0, States::Five)],
            LINES,
            MASTERS,
        ),
        TopoCause::TooMany,
        1,
    ),
    (
        (POWERS, PROCS, SLAVES, &[(2, 2), (2, 11)], MASTERS),
        TopoCause::Repeated,
        1,
    ),
    (
        (POWERS, PROCS, SLAVES, &[(2, 9), (11, 11)], MASTERS),
        TopoCause::BadTarget,
        0,
    ),
];

/// Topologies with two faults, of which the first counts.
static TWO_FAULTS: [Case; 11] = [
    // at one entry the order of the rules counts
    (
        (&[(9, None), (9, Some(1))], PROCS, SLAVES, LINES, MASTERS),
        TopoCause::Repeated,
        1,
    ),
    (
        (
            POWERS,
            PROCS,
            &[(11, 1, States::Full), (11, 0, States::Five)],
            LINES,
            MASTERS,
        ),
        TopoCause::TooMany,
        1,
    ),
    (
        (
            POWERS,
            PROCS,
            &[(11, 1, States::Full), (11, 7, States::Nothing)],
            LINES,
            MASTERS,
        ),
        TopoCause::Repeated,
        1,
    ),
    (
        (
            POWERS,
            PROCS,
            &[(11, 7, States::Nothing), (12, 0, States::Full)],
            LINES,
            MASTERS,
        ),
        TopoCause::ParentLate,
        0,
    ),
    (
        (POWERS, PROCS, SLAVES, &[(2, 2), (2, 9)], MASTERS),
        TopoCause::Repeated,
        1,
    ),
    // in a list the earlier entry counts, whatever its rule
    (
        (
            POWERS,
            PROCS,
            &[(11, 1, States::NotFull), (11, 0, States::Five)],
            LINES,
            MASTERS,
        ),
        TopoCause::LastNotFull,
        0,
    ),
    (
        (POWERS, PROCS, SLAVES, &[(2, 9), (2, 2)], MASTERS),
        TopoCause::BadTarget,
        0,
    ),
    // the lists come one after another
    (
        (
            &[(9, None), (10, Some(1))],
            &[(9, 1), (3, 1)],
            SLAVES,
            LINES,
            MASTERS,
        ),
        TopoCause::ParentLate,
        1,
    ),
    (
        (
            POWERS,
            &[(2, 1), (3, 2)],
            &[(2, 1, States::Full), (12, 0, States::Full)],
            LINES,
            MASTERS,
        ),
        TopoCause::ParentLate,
        1,
    ),
    (
        (
            POWERS,
            PROCS,
            &[(11, 1, States::Full), (12, 0, States::Nothing)],
            &[(2, 9), (11, 11)],
            MASTERS,
        ),
        TopoCause::NoStates,
        1,
    ),
    (
        (
            POWERS,
            PROCS,
            SLAVES,
            &[(2, 2), (11, 9)],
            &[(1, &[]), (6, &[7])],
        ),
        TopoCause::BadTarget,
        1,
    ),
];

fn wrong_fault(alloc: Global, cases: &[Case]) -> Result<Option<usize>, Fail> {
    for (place, (lists, cause, at)) in cases.iter().enumerate() {
        if fault_of(alloc, lists)? != Some((*cause, *at)) {
            return Ok(Some(place));
        }
    }
    Ok(None)
}

#[test]
fn each_fault_is_found_at_its_place(rt: HostRuntime) -> Result<(), Fail> {
    let good = (POWERS, PROCS, SLAVES, LINES, MASTERS);
    assert!(rt; fault_of(rt.alloc(), &good)?.is_none());
    all_right(&rt, wrong_fault(rt.alloc(), &FAULTS)?);
    Ok(())
}

#[test]
fn the_first_of_two_faults_counts(rt: HostRuntime) -> Result<(), Fail> {
    all_right(&rt, wrong_fault(rt.alloc(), &TWO_FAULTS)?);
    Ok(())
}
