//! The reach of a master over several objects: each reason split between two of them.

use crate::chip::chip;
use crate::reach::{Row, are_rows};
use crate::rows::{all_right, boxed};
use pm_base::{List, NodeId};
use pm_object::{Object, has_key};
use pm_objtext::build;
use pm_perms::masters_of;
use pm_reach::{MemberKind, Why, reach};
use pm_topology::Topology;
use std::alloc::Global;
use std::test::Fail;

/// A case: the texts of the objects, which all have masters 1, 7 and 8, and the reach of 7.
type Case = (&'static [&'static str], &'static [Row]);

/// An object of the three masters that permits nothing.
const NOTHING: &str = "header
section masters
master 1 1 100 0 0
master 7 256 100 0 0
master 8 512 100 0 0
";

/// Each master may wake the next one by another object. By one object alone 7 doesn't reach 1.
const WAKES: Case = (
    &[
        "header
section masters
master 1 1 100 0 0
master 7 256 100 0 512
master 8 512 100 0 0
",
        "header
section masters
master 1 1 100 0 0
master 7 256 100 0 0
master 8 512 100 0 1
",
    ],
    &[
        (MemberKind::Master, 1, Why::Wake, &[7, 8, 1]),
        (MemberKind::Master, 7, Why::Myself, &[7]),
        (MemberKind::Master, 8, Why::Wake, &[7, 8]),
        (MemberKind::Power, 1, Why::Above, &[7, 8, 1]),
        (MemberKind::Power, 6, Why::Above, &[7]),
        (MemberKind::Power, 10, Why::Above, &[7, 8, 1]),
        (MemberKind::Power, 62, Why::Above, &[7]),
    ],
);

/// Master 7 may force a domain by one object, and 8 may use a slave below it by another.
const FORCE_AND_USE: Case = (
    &[
        "header
section masters
master 1 1 100 0 0
master 7 256 100 0 0
master 8 512 100 0 0
section power
power 9 256
",
        "header
section masters
master 1 1 100 0 0
master 7 256 100 0 0
master 8 512 100 0 0
section slaves
slave 69 1 512
",
    ],
    &[
        (MemberKind::Master, 7, Why::Myself, &[7]),
        (MemberKind::Master, 8, Why::Force, &[7, 8]),
        (MemberKind::Slave, 63, Why::Force, &[7]),
        (MemberKind::Slave, 69, Why::Force, &[7]),
        (MemberKind::Power, 6, Why::Above, &[7]),
        (MemberKind::Power, 9, Why::Above, &[7]),
        (MemberKind::Power, 62, Why::Above, &[7]),
    ],
);

/// The first reason counts, even if a later object gives it.
const FIRST_REASON: Case = (
    &[
        NOTHING,
        "header
section masters
master 1 1 100 0 0
master 7 256 100 0 0
master 8 512 100 0 0
section reset
reset 33 256
",
        "header
section masters
master 1 1 100 0 0
master 7 256 100 0 0
master 8 512 100 0 0
section slaves
slave 33 0 256
",
    ],
    &[
        (MemberKind::Master, 7, Why::Myself, &[7]),
        (MemberKind::Slave, 33, Why::Uses, &[7]),
        (MemberKind::Power, 6, Why::Above, &[7]),
        (MemberKind::Power, 62, Why::Above, &[7]),
        (MemberKind::Line, 33, Why::Reset, &[7]),
    ],
);

/// A direct step by a later object is shorter than two steps by the first.
const SHORTER: Case = (
    &[
        "header
section masters
master 1 1 100 0 0
master 7 256 100 512 0
master 8 512 100 1 0
",
        "header
section masters
master 1 1 100 0 0
master 7 256 100 0 0
master 8 512 100 0 0
section reset
reset 5 256
",
    ],
    &[
        (MemberKind::Master, 1, Why::Reset, &[7, 1]),
        (MemberKind::Master, 7, Why::Myself, &[7]),
        (MemberKind::Master, 8, Why::Suspend, &[7, 8]),
        (MemberKind::Power, 1, Why::Above, &[7, 1]),
        (MemberKind::Power, 6, Why::Above, &[7]),
        (MemberKind::Power, 10, Why::Above, &[7, 1]),
        (MemberKind::Power, 62, Why::Above, &[7]),
        (MemberKind::Line, 5, Why::Reset, &[7]),
    ],
);

/// Two objects that permit nothing.
const NEITHER: Case = (
    &[NOTHING, NOTHING],
    &[
        (MemberKind::Master, 7, Why::Myself, &[7]),
        (MemberKind::Power, 6, Why::Above, &[7]),
        (MemberKind::Power, 62, Why::Above, &[7]),
    ],
);

static CASES: [Case; 5] = [WAKES, FORCE_AND_USE, FIRST_REASON, SHORTER, NEITHER];

/// The objects of these texts, in a box.
fn objects_of(alloc: Global, texts: &[&str]) -> Result<Box<List<Object>>, Fail> {
    let mut objects = boxed(alloc, List::new(alloc))?;
    for text in texts {
        objects.push(build(alloc, text.as_bytes())?)?;
    }
    Ok(objects)
}

/// Whether master 7 of the objects reaches exactly these members.
fn reaches(alloc: Global, objects: &[Object], t: &Topology, rows: &[Row]) -> Result<bool, Fail> {
    if !has_key(masters_of(objects), 7) {
        return Ok(false);
    }
    let found = reach(alloc, objects, t, NodeId(7))?;
    Ok(are_rows(found.members.as_slice(), rows))
}

fn wrong_case(alloc: Global, t: &Topology) -> Result<Option<usize>, Fail> {
    for (place, (texts, rows)) in CASES.iter().enumerate() {
        let objects = objects_of(alloc, texts)?;
        if !reaches(alloc, objects.as_slice(), t, rows)? {
            return Ok(Some(place));
        }
    }
    Ok(None)
}

#[test]
fn one_object_permits_a_step_and_another_the_next(rt: HostRuntime) -> Result<(), Fail> {
    let chip = chip(rt.alloc())?;
    all_right(&rt, wrong_case(rt.alloc(), &chip)?);
    Ok(())
}

/// A row: a permission of master 7 that only one object gives, and the reason for which 7 then reaches 1.
static REASONS: [(&str, Why); 6] = [
    ("master 7 256 100 1 0\nmaster 8 512 100 0 0\n", Why::Suspend),
    ("master 7 256 100 0 1\nmaster 8 512 100 0 0\n", Why::Wake),
    (
        "master 7 256 100 0 0\nmaster 8 512 100 0 0\nsection power\npower 2 256\n",
        Why::Force,
    ),
    (
        "master 7 256 100 0 0\nmaster 8 512 100 0 0\nsection reset\nreset 5 256\n",
        Why::Reset,
    ),
    (
        "master 7 256 100 0 0\nmaster 8 512 100 0 0\nsection shutdown\nshutdown 2 256\n",
        Why::Shutdown,
    ),
    (
        "master 7 256 100 0 0\nmaster 8 512 100 0 0\nsection config\nconfig 256 0\n",
        Why::Config,
    ),
];

/// Whether master 7 reaches 1 for this reason, over the objects of these texts.
fn reaches_first(alloc: Global, texts: &[&str], t: &Topology, why: Why) -> Result<bool, Fail> {
    let objects = objects_of(alloc, texts)?;
    if !has_key(masters_of(objects.as_slice()), 7) {
        return Ok(false);
    }
    let found = reach(alloc, objects.as_slice(), t, NodeId(7))?;
    Ok(
        found.members.as_slice().iter().any(|member| {
            member.kind == MemberKind::Master && member.number == 1 && member.why == why
        }),
    )
}

/// The index of the first row whose reason isn't found with the permitting object first and with it last.
fn wrong_reason(alloc: Global, t: &Topology) -> Result<Option<usize>, Fail> {
    for (place, (rest, why)) in REASONS.iter().enumerate() {
        let text = format!(in alloc; "header\nsection masters\nmaster 1 1 100 0 0\n{rest}")?;
        let holds = reaches_first(alloc, &[NOTHING, &text], t, *why)?
            && reaches_first(alloc, &[&text, NOTHING], t, *why)?;
        if !holds {
            return Ok(Some(place));
        }
    }
    Ok(None)
}

#[test]
fn each_reason_may_come_of_any_object(rt: HostRuntime) -> Result<(), Fail> {
    let chip = chip(rt.alloc())?;
    all_right(&rt, wrong_reason(rt.alloc(), &chip)?);
    Ok(())
}
