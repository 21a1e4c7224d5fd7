//! The rules on the masters of a topology.

use crate::rows::all_right;
use crate::topology_faults::fault_of;
use crate::topology_lists::{LINES, MASTERS, Master, POWERS, PROCS, SLAVES};
use pm_topology::TopoCause;
use std::alloc::Global;
use std::test::Fail;

/// Masters beside lists that pass, and the first fault of their topology.
type MastersCase = (&'static [Master], TopoCause, usize);

static MASTER_FAULTS: [MastersCase; 15] = [
    (&[(1, &[2]), (1, &[3]), (6, &[7])], TopoCause::Repeated, 1),
    // a number that isn't a master's
    (&[(1, &[2]), (2, &[3]), (6, &[7])], TopoCause::BadMember, 1),
    // no processors; a slave among them; a power node; one named twice
    (&[(1, &[]), (6, &[7])], TopoCause::BadMember, 0),
    (&[(1, &[2, 3]), (6, &[7, 11])], TopoCause::BadMember, 1),
    (&[(1, &[9])], TopoCause::BadMember, 0),
    (&[(1, &[2, 3, 2])], TopoCause::BadMember, 0),
    // a processor with a master's number belongs to that master alone, or also to the RPU in lock-step
    (&[(6, &[7, 8]), (1, &[2, 7])], TopoCause::BadMember, 1),
    (&[(6, &[7]), (7, &[8])], TopoCause::BadMember, 1),
    (&[(8, &[7])], TopoCause::BadMember, 0),
    // a processor of two masters
    (&[(1, &[2, 3]), (6, &[3])], TopoCause::Overlap, 1),
    (
        &[(7, &[7, 3]), (6, &[7]), (8, &[8, 3])],
        TopoCause::Overlap,
        2,
    ),
    (&[(7, &[2]), (6, &[2]), (1, &[2])], TopoCause::Overlap, 2),
    // a master without an entry
    (&[], TopoCause::NoMaster, 0),
    (&[(1, &[2]), (6, &[7]), (7, &[7])], TopoCause::NoMaster, 3),
    (
        &[(8, &[8]), (7, &[7]), (6, &[7, 8])],
        TopoCause::NoMaster,
        3,
    ),
];

/// Masters with two faults, of which the first counts.
static TWO_MASTER_FAULTS: [MastersCase; 7] = [
    (&[(1, &[2]), (1, &[])], TopoCause::Repeated, 1),
    (&[(2, &[3]), (2, &[3])], TopoCause::BadMember, 0),
    (&[(1, &[2]), (6, &[2, 2])], TopoCause::BadMember, 1),
    (&[(1, &[2]), (5, &[2])], TopoCause::BadMember, 1),
    (&[(1, &[2]), (6, &[2]), (7, &[])], TopoCause::Overlap, 1),
    // a missing master comes after the faults of all entries
    (&[(1, &[2]), (6, &[7]), (7, &[2])], TopoCause::Overlap, 2),
    (&[(1, &[2]), (6, &[])], TopoCause::BadMember, 1),
];

/// Masters without a fault: the RPU in lock-step may share with each of its halves.
static GOOD_MASTERS: [&[Master]; 3] = [
    MASTERS,
    &[(8, &[8, 3]), (6, &[3, 8, 7]), (7, &[7]), (1, &[2])],
    &[(6, &[3]), (7, &[3]), (8, &[8]), (1, &[2])],
];

fn wrong_masters(alloc: Global, cases: &[MastersCase]) -> Result<Option<usize>, Fail> {
    for (place, (masters, cause, at)) in cases.iter().enumerate() {
        let lists = (POWERS, PROCS, SLAVES, LINES, *masters);
        if fault_of(alloc, &lists)? != Some((*cause, *at)) {
            return Ok(Some(place));
        }
    }
    Ok(None)
}

fn refused_masters(alloc: Global) -> Result<Option<usize>, Fail> {
    for (place, masters) in GOOD_MASTERS.iter().enumerate() {
        let lists = (POWERS, PROCS, SLAVES, LINES, *masters);
        if fault_of(alloc, &lists)?.is_some() {
            return Ok(Some(place));
        }
    }
    Ok(None)
}

#[test]
fn masters_keep_their_rules(rt: HostRuntime) -> Result<(), Fail> {
    all_right(&rt, wrong_masters(rt.alloc(), &MASTER_FAULTS)?);
    all_right(&rt, wrong_masters(rt.alloc(), &TWO_MASTER_FAULTS)?);
    all_right(&rt, refused_masters(rt.alloc())?);
    Ok(())
}
