//! The masters that a master can reach: by the least paths, each for its first reason.

use crate::chip::chip;
use crate::reach::{Case, Row, reaches, wrong_case};
use crate::rows::{all_right, boxed};
use pm_base::{List, NodeId};
use pm_object::{MasterRec, Object, has_key};
use pm_objtext::build;
use pm_reach::{MemberKind, Why, reach_by_one};
use pm_topology::Topology;
use std::alloc::Global;
use std::test::Fail;

/// Three masters in a chain: the first may wake the second, which may reset the third.
const CHAIN: Case = (
    "header
section masters
master 1 1 100 0 256
master 7 256 100 0 0
master 8 512 100 0 0
section reset
reset 8 256
",
    1,
    &[
        (MemberKind::Master, 1, Why::Myself, &[1]),
        (MemberKind::Master, 7, Why::Wake, &[1, 7]),
        (MemberKind::Master, 8, Why::Reset, &[1, 7, 8]),
        (MemberKind::Power, 1, Why::Above, &[1]),
        (MemberKind::Power, 6, Why::Above, &[1, 7]),
        (MemberKind::Power, 10, Why::Above, &[1]),
        (MemberKind::Power, 62, Why::Above, &[1, 7]),
        (MemberKind::Line, 8, Why::Reset, &[1, 7]),
    ],
);

/// If two paths of one length bring in a slave, the one by the earlier master of the object counts. A direct path is
/// shorter than one through another master.
const TIE: Case = (
    "header
section masters
master 8 512 100 0 0
master 1 1 100 768 0
master 7 256 100 512 0
section slaves
slave 46 1 768
",
    1,
    &[
        (MemberKind::Master, 8, Why::Suspend, &[1, 8]),
        (MemberKind::Master, 1, Why::Myself, &[1]),
        (MemberKind::Master, 7, Why::Suspend, &[1, 7]),
        (MemberKind::Slave, 46, Why::Uses, &[1, 8]),
        (MemberKind::Power, 1, Why::Above, &[1]),
        (MemberKind::Power, 6, Why::Above, &[1, 8]),
        (MemberKind::Power, 10, Why::Above, &[1]),
        (MemberKind::Power, 62, Why::Above, &[1, 8]),
    ],
);

/// A direct path counts, even if its reason comes later than those of a longer path.
const DIRECT: Case = (
    "header
section masters
master 1 1 100 256 0
master 7 256 100 512 0
master 8 512 100 0 0
section reset
reset 8 1
",
    1,
    &[
        (MemberKind::Master, 1, Why::Myself, &[1]),
        (MemberKind::Master, 7, Why::Suspend, &[1, 7]),
        (MemberKind::Master, 8, Why::Reset, &[1, 8]),
        (MemberKind::Power, 1, Why::Above, &[1]),
        (MemberKind::Power, 6, Why::Above, &[1, 7]),
        (MemberKind::Power, 10, Why::Above, &[1]),
        (MemberKind::Power, 62, Why::Above, &[1, 7]),
        (MemberKind::Line, 8, Why::Reset, &[1]),
    ],
);

static CASES: [Case; 3] = [CHAIN, TIE, DIRECT];

#[test]
fn masters_reach_one_another_by_least_paths(rt: HostRuntime) -> Result<(), Fail> {
    let chip = chip(rt.alloc())?;
    all_right(&rt, wrong_case(rt.alloc(), &chip, &CASES)?);
    Ok(())
}

/// A master: its node, its bit, and its suspend and wake words.
type Master = (u32, u32, u32, u32);

/// Cases with all four masters of the chip, which no object that is read has.
static FOUR: [(&[Master], u32, &[Row]); 2] = [
    // a chain through all of them, and back to its start
    (
        &[
            (8, 512, 0, 256),
            (7, 256, 0, 2),
            (1, 1, 512, 0),
            (6, 2, 1, 0),
        ],
        6,
        &[
            (MemberKind::Master, 8, Why::Suspend, &[6, 1, 8]),
            (MemberKind::Master, 7, Why::Wake, &[6, 1, 8, 7]),
            (MemberKind::Master, 1, Why::Suspend, &[6, 1]),
            (MemberKind::Master, 6, Why::Myself, &[6]),
            (MemberKind::Power, 1, Why::Above, &[6, 1]),
            (MemberKind::Power, 6, Why::Above, &[6]),
            (MemberKind::Power, 10, Why::Above, &[6, 1]),
            (MemberKind::Power, 62, Why::Above, &[6]),
        ],
    ),
    // two paths of one length to master 8: the one by the earlier master of the object counts, with its reason
    (
        &[
            (8, 512, 0, 0),
            (7, 256, 0, 512),
            (1, 1, 258, 0),
            (6, 2, 512, 0),
        ],
        1,
        &[
            (MemberKind::Master, 8, Why::Wake, &[1, 7, 8]),
            (MemberKind::Master, 7, Why::Suspend, &[1, 7]),
            (MemberKind::Master, 1, Why::Myself, &[1]),
            (MemberKind::Master, 6, Why::Suspend, &[1, 6]),
            (MemberKind::Power, 1, Why::Above, &[1]),
            (MemberKind::Power, 6, Why::Above, &[1, 7]),
            (MemberKind::Power, 10, Why::Above, &[1]),
            (MemberKind::Power, 62, Why::Above, &[1, 7]),
        ],
    ),
];

fn object_of(alloc: Global, masters: &[Master]) -> Result<Box<Object>, Fail> {
    let mut object = boxed(alloc, Object::unset(alloc, List::new(alloc)))?;
    for (node, mask, suspend, wake) in masters {
        object.masters.push(MasterRec {
            node: *node,
            mask: *mask,
            timeout: 100,
            suspend: *suspend,
            wake: *wake,
        })?;
    }
    Ok(object)
}

fn wrong_four(alloc: Global, t: &Topology) -> Result<Option<usize>, Fail> {
    for (place, (masters, master, rows)) in FOUR.iter().enumerate() {
        let object = object_of(alloc, masters)?;
        if !reaches(alloc, &object, t, *master, rows)? {
            return Ok(Some(place));
        }
    }
    Ok(None)
}

#[test]
fn four_masters_reach_one_another_by_least_paths(rt: HostRuntime) -> Result<(), Fail> {
    let chip = chip(rt.alloc())?;
    all_right(&rt, wrong_four(rt.alloc(), &chip)?);
    Ok(())
}

/// A row: the suspend and wake words of master 7, the further sections of an object of masters 1 and 7, and the
/// reason for which 7 reaches 1.
type Reason = (u32, u32, &'static str, Option<Why>);

static REASONS: [Reason; 19] = [
    // each reason alone
    (1, 0, "", Some(Why::Suspend)),
    (0, 1, "", Some(Why::Wake)),
    (0, 0, "section power\npower 2 256\n", Some(Why::Force)),
    (0, 0, "section power\npower 1 256\n", Some(Why::Force)),
    (0, 0, "section power\npower 10 256\n", Some(Why::Force)),
    (
        0,
        0,
        "section slaves\nslave 63 0 1\nsection power\npower 9 256\n",
        Some(Why::Force),
    ),
    (
        0,
        0,
        "section slaves\nslave 15 0 1\nsection power\npower 62 256\n",
        Some(Why::Force),
    ),
    (0, 0, "section reset\nreset 5 256\n", Some(Why::Reset)),
    (
        0,
        0,
        "section shutdown\nshutdown 1 256\n",
        Some(Why::Shutdown),
    ),
    (
        0,
        0,
        "section shutdown\nshutdown 2 256\n",
        Some(Why::Shutdown),
    ),
    (0, 0, "section config\nconfig 256 0\n", Some(Why::Config)),
    // the first of two
    (1, 1, "", Some(Why::Suspend)),
    (0, 1, "section power\npower 2 256\n", Some(Why::Wake)),
    (
        0,
        0,
        "section reset\nreset 2 256\nsection power\npower 2 256\n",
        Some(Why::Force),
    ),
    (
        0,
        0,
        "section shutdown\nshutdown 1 256\nsection reset\nreset 2 256\n",
        Some(Why::Reset),
    ),
    (
        0,
        0,
        "section config\nconfig 256 0\nsection shutdown\nshutdown 2 256\n",
        Some(Why::Shutdown),
    ),
    // no reason: a master that isn't there, and its own bit; a power node above nothing of 1, and a forced slave of
    // 1; the reset of a slave of 1; a shutdown of itself, and of no subtype; the overlay mask
    (768, 768, "", None),
    (
        0,
        0,
        "section slaves\nslave 33 0 1\nsection power\npower 9 256\npower 33 256\nsection reset\nreset 33 256\n",
        None,
    ),
    (
        0,
        0,
        "section shutdown\nshutdown 0 256\nshutdown 3 256\nsection config\nconfig 1 256\n",
        None,
    ),
];

/// The object of masters 1 and 7 for a row.
fn object_for(alloc: Global, reason: &Reason) -> Result<Box<Object>, Fail> {
    let (suspend, wake, sections, _) = reason;
    let text = format!(in alloc;
        "header\nsection masters\nmaster 1 1 100 0 0\nmaster 7 256 100 {suspend} {wake}\n{sections}"
    )?;
    let object = build(alloc, text.as_bytes())?;
    Ok(boxed(alloc, object)?)
}

/// The reason for which master 7 of an object reaches master 1, if it does.
fn reason_for(alloc: Global, t: &Topology, object: &Object) -> Result<Option<Why>, Fail> {
    if !has_key(object.masters.as_slice(), 7) {
        return Ok(Some(Why::Myself));
    }
    let found = reach_by_one(alloc, object, t, NodeId(7))?;
    Ok(
        found
            .members
            .as_slice()
            .iter()
            .find(|member| member.kind == MemberKind::Master && member.number == 1)
            .map(|member| member.why),
    )
}

fn wrong_reason(alloc: Global, t: &Topology) -> Result<Option<usize>, Fail> {
    for (place, reason) in REASONS.iter().enumerate() {
        let object = object_for(alloc, reason)?;
        if reason_for(alloc, t, &object)? != reason.3 {
            return Ok(Some(place));
        }
    }
    Ok(None)
}

#[test]
fn a_master_is_reached_for_its_first_reason(rt: HostRuntime) -> Result<(), Fail> {
    let chip = chip(rt.alloc())?;
    all_right(&rt, wrong_reason(rt.alloc(), &chip)?);
    Ok(())
}
