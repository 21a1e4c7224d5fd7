//! A run with forces, resets and shutdowns, in which each command fails alone.

use super::steps::{Course, On, Step, check_course};
use std::test::Fail;

/// Masters 1 and 7, which may use slaves 28 and 33. Master 7 may force domain 10, the first master may reset lines 33
/// and 7, and both may shut down everything.
const FORCING: &[u32] = &[
    2, 5, 1, 0x101, 2, 1, 0x1, 100, 0, 0, 7, 0x100, 100, 0, 0, 0x102, 2, 28, 1, 0x101, 33, 1,
    0x101, 0x104, 1, 10, 0x100, 0x105, 2, 33, 0x1, 7, 0x1, 0x106, 1, 1, 0x101,
];

/// A run with forces, resets and shutdowns.
static STEPS: [Step; 12] = [
    (
        "",
        &[
            (On::Node, "10 0 1", &[2, 3, 4]),
            (On::Node, "62 0 1", &[5]),
            (On::Node, "1 0 1", &[3]),
            (On::Node, "2 0 1", &[]),
            (On::Node, "28 0 1", &[]),
            (On::Node, "33 0 1", &[]),
        ],
        &["run 2 0"],
    ),
    (
        "boot 7 0",
        &[(On::Node, "6 0 1", &[1]), (On::Node, "7 0 1", &[])],
        &["run 7 0"],
    ),
    (
        "ipi 1 17 33 1",
        &[(On::Line, "33 0 1", &[])],
        &["reply 1 0 0 0 0"],
    ),
    // a pulse of a line at 1 is its 0 alone
    (
        "ipi 1 17 33 2",
        &[(On::Line, "33 1 0", &[])],
        &["reply 1 0 0 0 0"],
    ),
    (
        "ipi 1 17 33 2",
        &[(On::Pulse, "33 0 1", &[1]), (On::Release, "33 1 0", &[])],
        &["reply 1 0 0 0 0"],
    ),
    // a reset stops processor 7, and its domain goes down
    (
        "ipi 1 17 7 1",
        &[
            (On::Node, "7 1 0", &[2]),
            (On::Line, "7 0 1", &[]),
            (On::Node, "6 1 0", &[]),
        ],
        &["reply 1 0 0 0 0"],
    ),
    (
        "ipi 1 17 7 0",
        &[(On::Line, "7 1 0", &[])],
        &["reply 1 0 0 0 0"],
    ),
    (
        "boot 7 64",
        &[(On::Node, "6 0 1", &[1]), (On::Node, "7 0 1", &[])],
        &["run 7 64"],
    ),
    // a force of FPD; slave 33 is elsewhere, and goes down since nobody holds it any more
    (
        "ipi 7 8 10 2",
        &[
            (On::Node, "2 1 0", &[3, 4]),
            (On::Node, "28 1 0", &[4]),
            (On::Node, "33 1 0", &[]),
            (On::Node, "1 1 0", &[4]),
            (On::Node, "10 1 0", &[]),
        ],
        &["reply 7 0 0 0 0"],
    ),
    // everything restarts, and everything is shut down
    (
        "ipi 7 12 1 1",
        &[
            (On::Node, "10 0 1", &[1, 2, 4]),
            (On::Node, "1 0 1", &[2]),
            (On::Node, "2 0 1", &[]),
            (On::Node, "7 1 0", &[6]),
            (On::Node, "28 0 1", &[]),
            (On::Node, "33 0 1", &[]),
            (On::Node, "6 1 0", &[]),
        ],
        &["run 2 0", "reply 7 0 0 0 0"],
    ),
    (
        "ipi 1 12 0 1",
        &[
            (On::Node, "2 1 0", &[3, 4]),
            (On::Node, "28 1 0", &[4]),
            (On::Node, "33 1 0", &[]),
            (On::Node, "1 1 0", &[4]),
            (On::Node, "10 1 0", &[]),
        ],
        &["reply 1 0 0 0 0"],
    ),
    ("ipi 1 1", &[], &["drop 1"]),
];

/// The values of the device at the end.
static LAST: [(u32, u32); 8] = [
    (62, 1),
    (10, 0),
    (1, 0),
    (2, 0),
    (6, 0),
    (7, 0),
    (28, 0),
    (33, 0),
];

#[test]
fn each_command_of_a_force_a_reset_or_a_shutdown_may_fail(rt: HostRuntime) -> Result<(), Fail> {
    let course = Course {
        object: FORCING,
        steps: &STEPS,
        closing: "end power 62 1 1\n",
        values: &LAST,
    };
    check_course(&rt, &course, 35)
}
