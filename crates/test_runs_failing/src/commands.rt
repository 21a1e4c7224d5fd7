//! A run with requests and releases, in which each command fails alone.

use super::steps::{Course, On, Step, check_course};
use std::test::Fail;
use test_fixtures::DOMAINS;

/// A run that takes a slave of each class up and down, in each power domain. Each command waits for those before it
/// in its step.
static STEPS: [Step; 17] = [
    (
        "",
        &[
            (On::Node, "62 0 1", &[1, 2]),
            (On::Node, "6 0 1", &[2]),
            (On::Node, "8 0 1", &[]),
        ],
        &["run 8 0"],
    ),
    ("boot 7 4096", &[(On::Node, "7 0 1", &[])], &["run 7 4096"]),
    (
        "ipi 7 13 33 1 0 2",
        &[(On::Node, "33 0 1", &[])],
        &["reply 7 0 0 0 0"],
    ),
    (
        "ipi 7 13 15 1 0 2",
        &[(On::Node, "15 0 2", &[])],
        &["reply 7 0 0 0 0"],
    ),
    (
        "ipi 7 13 28 4 0 2",
        &[(On::Node, "10 0 1", &[1]), (On::Node, "28 0 1", &[])],
        &["reply 7 0 0 0 0"],
    ),
    (
        "ipi 7 13 55 2 0 2",
        &[(On::Node, "55 0 1", &[])],
        &["reply 7 0 0 0 0"],
    ),
    (
        "ipi 7 15 55 1 0 3",
        &[(On::Node, "55 1 2", &[])],
        &["call 7 31 55 0 2 0"],
    ),
    (
        "ipi 7 13 63 1 0 1",
        &[(On::Node, "9 0 1", &[1]), (On::Node, "63 0 1", &[])],
        &[],
    ),
    ("ipi 7 13 49 7 0 2", &[], &["reply 7 0 0 0 0"]),
    ("ipi 7 3 28", &[], &["reply 7 0 1 4 1"]),
    (
        "ipi 7 14 28",
        &[(On::Node, "28 1 0", &[])],
        &["reply 7 0 0 0 0"],
    ),
    (
        "ipi 7 15 55 2 0 2",
        &[(On::Node, "55 2 1", &[1]), (On::Node, "10 1 0", &[])],
        &["reply 7 0 0 0 0"],
    ),
    (
        "ipi 7 14 63",
        &[(On::Node, "63 1 0", &[1]), (On::Node, "9 1 0", &[])],
        &["reply 7 0 0 0 0"],
    ),
    (
        "ipi 7 14 15",
        &[(On::Node, "15 2 0", &[])],
        &["reply 7 0 0 0 0"],
    ),
    ("ipi 7 7 7 0 0 0 0", &[], &["reply 7 0 0 0 0"]),
    ("wfi 7", &[(On::Node, "7 1 0", &[])], &[]),
    ("ipi 8 3 55", &[], &["reply 8 0 1 0 2"]),
];

#[test]
fn each_command_that_fails_alone_is_issued_again(rt: HostRuntime) -> Result<(), Fail> {
    let course = Course {
        object: DOMAINS,
        steps: &STEPS,
        closing: "end power 6 1 1\nend proc 7 2 0\nend proc 8 1 1\nend slave 33 1 1\nend slave 55 1 1\nend power 62 1 1\n",
        values: &[(55, 1)],
    };
    check_course(&rt, &course, 19)
}
