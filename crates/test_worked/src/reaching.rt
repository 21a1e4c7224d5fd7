//! Rows of a master's reach, and of the differences without its messages.

use crate::checks::{Row, check_rows};
use pm_base::Exit;
use std::test::Fail;
use test_fixtures::{LABORATORY, OBJECT, USUAL};

/// The small object with a section that lets master 1 put another object in force.
const CONFIGURED: &[u32] = &[
    2, 3, 1, 0x101, 2, 1, 1, 100, 0, 0, 7, 0x100, 100, 0, 0, 0x102, 2, 11, 1, 0x101, 33, 0, 1,
    0x107, 1, 0,
];

/// Words and inputs of a run, its text, and its exit.
static ROWS: [Row; 6] = [
    // a slave that another master uses differs without the master's messages
    Row {
        words: "isolate obj script 7",
        object: OBJECT,
        script: "ipi 1 21
boot 7 0
ipi 7 13 11 1 0 2
ipi 1 13 33 1 0 2
",
        topology: "",
        text: "master 7 self 7
slave 11 use 7
power 6 above 7
power 62 above 7
differ slave 11
steps 4
",
        exit: Exit::Done,
    },
    // the reach of a master that may suspend the others and use every slave
    Row {
        words: "reach obj 1",
        object: USUAL,
        script: "",
        topology: "",
        text: "master 1 self 1
master 7 suspend 1 7
master 8 suspend 1 8
slave 11 use 1
slave 12 use 1
slave 13 use 1
slave 14 use 1
slave 15 use 1
slave 16 use 1
slave 17 use 1
slave 18 use 1
slave 19 use 1
slave 20 use 1
slave 21 use 1
slave 22 use 1
slave 23 use 1
slave 24 use 1
slave 25 use 1
slave 26 use 1
slave 27 use 1
slave 28 use 1
slave 29 use 1
slave 30 use 1
slave 31 use 1
slave 32 use 1
slave 33 use 1
slave 34 use 1
slave 35 use 1
slave 36 use 1
slave 37 use 1
slave 38 use 1
slave 39 use 1
slave 40 use 1
slave 41 use 1
slave 42 use 1
slave 43 use 1
slave 44 use 1
slave 45 use 1
slave 46 use 1
slave 47 use 1
slave 48 use 1
slave 49 use 1
slave 50 use 1
slave 51 use 1
slave 52 use 1
slave 53 use 1
slave 54 use 1
slave 55 use 1
slave 56 use 1
slave 57 use 1
slave 58 use 1
slave 59 use 1
slave 60 use 1
slave 61 use 1
slave 63 use 1
slave 64 use 1
slave 65 use 1
slave 66 use 1
slave 67 use 1
slave 68 use 1
slave 69 use 1
power 1 above 1
power 6 above 1
power 9 above 1
power 10 above 1
power 62 above 1
",
        exit: Exit::Done,
    },
    // the reach of a master that may force another domain
    Row {
        words: "reach obj 7",
        object: LABORATORY,
        script: "",
        topology: "",
        text: "master 1 force 7 1
master 7 self 7
slave 11 use 7
slave 19 force 7
slave 20 force 7
slave 21 force 7
slave 28 use 7
slave 33 use 7 1
slave 39 use 7
slave 41 force 7
slave 42 force 7
slave 46 use 7
slave 50 force 7
slave 51 force 7
slave 52 force 7
slave 55 force 7
slave 58 force 7
slave 59 force 7
power 1 above 7 1
power 6 above 7
power 10 above 7
power 62 above 7
line 33 reset 7 1
",
        exit: Exit::Done,
    },
    // the reach of a master that may only use a slave
    Row {
        words: "reach obj 7",
        object: OBJECT,
        script: "",
        topology: "",
        text: "master 7 self 7
slave 11 use 7
power 6 above 7
power 62 above 7
",
        exit: Exit::Done,
    },
    // an attached object counts for the reach
    Row {
        words: "isolate obj script 7",
        object: CONFIGURED,
        script: "object 4096 2 2 1 257 2 1 1 100 0 0 7 256 100 0 0 258 1 33 0 256
ipi 1 21
ipi 1 13 33 1 0 2
ipi 1 2 8192
ipi 1 2 4096
ipi 1 13 33 1 0 2
boot 7 0
ipi 7 13 33 1 0 2
ipi 1 2 4096
",
        topology: "",
        text: "master 7 self 7
slave 11 use 7
slave 33 use 7
power 6 above 7
power 62 above 7
differ slave 33
steps 9
",
        exit: Exit::Done,
    },
    // master 7 keeps a slave from master 1, whose processor doesn't differ
    Row {
        words: "isolate obj script 7",
        object: LABORATORY,
        script: "ipi 1 21
boot 7 0
ipi 7 13 39 1 0 2
ipi 1 13 39 1 0 2
ipi 1 11 2 39 1
ipi 1 7 2 0 0 0 0
wfi 2
irq 39
",
        topology: "",
        text: "master 1 force 7 1
master 7 self 7
slave 11 use 7
slave 19 force 7
slave 20 force 7
slave 21 force 7
slave 28 use 7
slave 33 use 7 1
slave 39 use 7
slave 41 force 7
slave 42 force 7
slave 46 use 7
slave 50 force 7
slave 51 force 7
slave 52 force 7
slave 55 force 7
slave 58 force 7
slave 59 force 7
power 1 above 7 1
power 6 above 7
power 10 above 7
power 62 above 7
line 33 reset 7 1
differ slave 39
steps 8
",
        exit: Exit::Done,
    },
];

#[test]
fn a_reach_and_what_differs(rt: HostRuntime) -> Result<(), Fail> {
    check_rows(&rt, &ROWS)
}
