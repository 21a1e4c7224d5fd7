//! Rows of generated scripts.

use crate::checks::{Row, check_rows};
use pm_base::Exit;
use std::test::Fail;

/// The shortest generated script, and the longest.
static ROWS: [Row; 2] = [
    Row {
        words: "make 1",
        object: &[],
        script: "",
        topology: "",
        text: "lines 3
set 16
run 2
reply 2
drop 0
call 0
",
        exit: Exit::Done,
    },
    Row {
        words: "make 200000",
        object: &[],
        script: "",
        topology: "",
        text: "lines 200002
set 35084
run 2708
reply 128402
drop 9079
call 0
",
        exit: Exit::Done,
    },
];

#[test]
fn scripts_are_made_and_counted(rt: HostRuntime) -> Result<(), Fail> {
    check_rows(&rt, &ROWS)
}
