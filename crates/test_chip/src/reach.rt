//! What a master can reach: slaves, power nodes and reset lines, each with its path and reason.

use crate::chip::chip;
use crate::rows::{all_right, boxed};
use crate::topology_lists::{LINES, Lists, Master, POWERS, Power, Proc, SLAVES, built};
use pm_base::NodeId;
use pm_object::{Object, has_key};
use pm_objtext::build;
use pm_reach::{Member, MemberKind, Why, reach_by_one};
use pm_topology::Topology;
use std::alloc::Global;
use std::test::Fail;

/// A member of a reach: its kind, its number, its reason, and its path.
pub(crate) type Row = (MemberKind, u32, Why, &'static [u32]);

/// A case: the text of an object, one of its masters, and the members of its reach.
pub(crate) type Case = (&'static str, u32, &'static [Row]);

/// Two masters, of which 7 shares a memory with 1.
const TWO_MASTERS: Case = (
    "header
section masters
master 1 1 100 0 0
master 7 256 100 0 0
section slaves
slave 11 1 257
slave 33 0 1
",
    7,
    &[
        (MemberKind::Master, 7, Why::Myself, &[7]),
        (MemberKind::Slave, 11, Why::Uses, &[7]),
        (MemberKind::Power, 6, Why::Above, &[7]),
        (MemberKind::Power, 62, Why::Above, &[7]),
    ],
);

/// Master 7 may force the domain that has the processors of 1 and the memory controller.
const FORCED_DOMAIN: Case = (
    "header
section masters
master 1 1 100 256 256
master 7 256 100 0 0
section slaves
slave 11 1 257
slave 28 0 257
slave 33 0 1
slave 39 0 257
slave 46 1 257
section power
power 10 256
section reset
reset 33 1
",
    7,
    &[
        (MemberKind::Master, 1, Why::Force, &[7, 1]),
        (MemberKind::Master, 7, Why::Myself, &[7]),
        (MemberKind::Slave, 11, Why::Uses, &[7]),
        (MemberKind::Slave, 19, Why::Force, &[7]),
        (MemberKind::Slave, 20, Why::Force, &[7]),
        (MemberKind::Slave, 21, Why::Force, &[7]),
        (MemberKind::Slave, 28, Why::Uses, &[7]),
        (MemberKind::Slave, 33, Why::Uses, &[7, 1]),
        (MemberKind::Slave, 39, Why::Uses, &[7]),
        (MemberKind::Slave, 41, Why::Force, &[7]),
        (MemberKind::Slave, 42, Why::Force, &[7]),
        (MemberKind::Slave, 46, Why::Uses, &[7]),
        (MemberKind::Slave, 50, Why::Force, &[7]),
        (MemberKind::Slave, 51, Why::Force, &[7]),
        (MemberKind::Slave, 52, Why::Force, &[7]),
        (MemberKind::Slave, 55, Why::Force, &[7]),
        (MemberKind::Slave, 58, Why::Force, &[7]),
        (MemberKind::Slave, 59, Why::Force, &[7]),
        (MemberKind::Power, 1, Why::Above, &[7, 1]),
        (MemberKind::Power, 6, Why::Above, &[7]),
        (MemberKind::Power, 10, Why::Above, &[7]),
        (MemberKind::Power, 62, Why::Above, &[7]),
        (MemberKind::Line, 33, Why::Reset, &[7, 1]),
    ],
);

/// Master 7 may reset two slaves that it may not use, one of which is the only one in its domain, and a line that the
/// chip lacks.
const RESET_SLAVE: Case = (
    "header
section masters
master 1 1 100 0 0
master 7 256 100 0 0
section reset
reset 63 256
reset 33 256
reset 1000 256
",
    7,
    &[
        (MemberKind::Master, 7, Why::Myself, &[7]),
        (MemberKind::Slave, 33, Why::Reset, &[7]),
        (MemberKind::Slave, 63, Why::Reset, &[7]),
        (MemberKind::Power, 6, Why::Above, &[7]),
        (MemberKind::Power, 9, Why::Above, &[7]),
        (MemberKind::Power, 62, Why::Above, &[7]),
        (MemberKind::Line, 33, Why::Reset, &[7]),
        (MemberKind::Line, 63, Why::Reset, &[7]),
    ],
);

/// Master 7 may force the programmable logic, reset one of the two slaves below it, and use the other. It may also
/// use a slave in the island of its processors.
const EACH_REASON_OF_A_SLAVE: Case = (
    "header
section masters
master 1 1 100 0 0
master 7 256 100 0 0
section slaves
slave 15 1 256
slave 69 1 256
section power
power 9 256
section reset
reset 63 256
",
    7,
    &[
        (MemberKind::Master, 7, Why::Myself, &[7]),
        (MemberKind::Slave, 15, Why::Uses, &[7]),
        (MemberKind::Slave, 63, Why::Force, &[7]),
        (MemberKind::Slave, 69, Why::Uses, &[7]),
        (MemberKind::Power, 6, Why::Above, &[7]),
        (MemberKind::Power, 9, Why::Above, &[7]),
        (MemberKind::Power, 62, Why::Above, &[7]),
        (MemberKind::Line, 63, Why::Reset, &[7]),
    ],
);

/// The first master that brings in a slave gives the reason, even if a later one has an earlier reason. A slave in
/// the island of another master's processors brings in that island.
const FIRST_MASTER: Case = (
    "header
section masters
master 1 1 100 256 0
master 7 256 100 0 0
section slaves
slave 15 0 1
slave 33 0 256
section reset
reset 33 1
",
    1,
    &[
        (MemberKind::Master, 1, Why::Myself, &[1]),
        (MemberKind::Master, 7, Why::Suspend, &[1, 7]),
        (MemberKind::Slave, 15, Why::Uses, &[1]),
        (MemberKind::Slave, 33, Why::Reset, &[1]),
        (MemberKind::Power, 1, Why::Above, &[1]),
        (MemberKind::Power, 6, Why::Above, &[1]),
        (MemberKind::Power, 10, Why::Above, &[1]),
        (MemberKind::Power, 62, Why::Above, &[1]),
        (MemberKind::Line, 33, Why::Reset, &[1]),
    ],
);

static CASES: [Case; 5] = [
    TWO_MASTERS,
    FORCED_DOMAIN,
    RESET_SLAVE,
    EACH_REASON_OF_A_SLAVE,
    FIRST_MASTER,
];

fn is_row(member: &Member, row: &Row) -> bool {
    let (kind, number, why, path) = row;
    member.kind == *kind
        && member.number == *number
        && member.why == *why
        && is_path(member.path.as_slice(), path)
}

fn is_path(path: &[NodeId], numbers: &[u32]) -> bool {
    path.len() == numbers.len()
        && path
            .iter()
            .zip(numbers.iter())
            .all(|(node, number)| node.0 == *number)
}

pub(crate) fn are_rows(members: &[Member], rows: &[Row]) -> bool {
    members.len() == rows.len()
        && members
            .iter()
            .zip(rows.iter())
            .all(|(member, row)| is_row(member, row))
}

/// Whether a master of an object reaches exactly these members.
pub(crate) fn reaches(
    alloc: Global,
    object: &Object,
    t: &Topology,
    master: u32,
    rows: &[Row],
) -> Result<bool, Fail> {
    if !has_key(object.masters.as_slice(), master) {
        return Ok(false);
    }
    let found = reach_by_one(alloc, object, t, NodeId(master))?;
    Ok(are_rows(found.members.as_slice(), rows))
}

/// The index of the first case with another reach.
pub(crate) fn wrong_case(
    alloc: Global,
    t: &Topology,
    cases: &[Case],
) -> Result<Option<usize>, Fail> {
    for (place, (text, master, rows)) in cases.iter().enumerate() {
        let object = boxed(alloc, build(alloc, text.as_bytes())?)?;
        if !reaches(alloc, &object, t, *master, rows)? {
            return Ok(Some(place));
        }
    }
    Ok(None)
}

#[test]
fn each_member_has_its_path_and_reason(rt: HostRuntime) -> Result<(), Fail> {
    let chip = chip(rt.alloc())?;
    all_right(&rt, wrong_case(rt.alloc(), &chip, &CASES)?);
    Ok(())
}

/// The power nodes of the small topology, and one more with nothing below it.
const EMPTY_DOMAIN: &[Power] = &[(9, None), (10, Some(0)), (8, Some(0))];

/// Two processors, the second of which two masters have. No chip that passes its check is so.
const TWO_PROCS: &[Proc] = &[(2, 1), (3, 1)];

const SHARING: &[Master] = &[(1, &[2, 3]), (6, &[3])];

const SMALL: Lists = (EMPTY_DOMAIN, TWO_PROCS, SLAVES, LINES, SHARING);

/// Master 6, which shares a processor with master 1, may force a power node with nothing below it, or one that is
/// above all others and above the processors of both.
static EMPTY: [Case; 2] = [
    (
        "header
section masters
master 1 1 100 0 0
master 6 2 100 0 0
section power
power 8 2
",
        6,
        &[
            (MemberKind::Master, 6, Why::Myself, &[6]),
            (MemberKind::Power, 9, Why::Above, &[6]),
            (MemberKind::Power, 10, Why::Above, &[6]),
        ],
    ),
    (
        "header
section masters
master 1 1 100 0 0
master 6 2 100 0 0
section power
power 9 2
",
        6,
        &[
            (MemberKind::Master, 1, Why::Force, &[6, 1]),
            (MemberKind::Master, 6, Why::Myself, &[6]),
            (MemberKind::Slave, 11, Why::Force, &[6]),
            (MemberKind::Slave, 12, Why::Force, &[6]),
            (MemberKind::Power, 9, Why::Above, &[6]),
            (MemberKind::Power, 10, Why::Above, &[6]),
        ],
    ),
];

#[test]
fn a_power_node_with_nothing_below_is_never_reached(rt: HostRuntime) -> Result<(), Fail> {
    let small = built(rt.alloc(), &SMALL)?;
    all_right(&rt, wrong_case(rt.alloc(), &small, &EMPTY)?);
    Ok(())
}

/// Masters 1 and 7 both have processor 3.
const SHARED: Lists = (
    POWERS,
    TWO_PROCS,
    SLAVES,
    LINES,
    &[(1, &[2, 3]), (7, &[3]), (8, &[])],
);

/// Master 8 may force processor 3, and therefore reaches each master that has it.
static OWNERS: [Case; 1] = [(
    "header
section masters
master 1 1 100 0 0
master 7 256 100 0 0
master 8 512 100 0 0
section power
power 3 512
",
    8,
    &[
        (MemberKind::Master, 1, Why::Force, &[8, 1]),
        (MemberKind::Master, 7, Why::Force, &[8, 7]),
        (MemberKind::Master, 8, Why::Myself, &[8]),
        (MemberKind::Power, 9, Why::Above, &[8, 1]),
        (MemberKind::Power, 10, Why::Above, &[8, 1]),
    ],
)];

#[test]
fn each_master_that_has_a_processor_is_reached_by_it(rt: HostRuntime) -> Result<(), Fail> {
    let shared = built(rt.alloc(), &SHARED)?;
    all_right(&rt, wrong_case(rt.alloc(), &shared, &OWNERS)?);
    Ok(())
}
