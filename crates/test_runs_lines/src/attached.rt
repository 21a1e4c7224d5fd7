//! Runs whose first lines attach objects that can be put in force.

use super::checks::check_joined;
use pm_base::Exit;
use std::test::Fail;
use test_fixtures::{Asked, OBJECT_CLOSED, OBJECT_LOADED};

/// The object of two masters, with a record that lets master 1 set the configuration. Its load is that of the object
/// without the record.
const CONFIGURED: &[u32] = &[
    2, 3, 1, 0x101, 2, 1, 0x1, 100, 0, 0, 7, 0x100, 100, 0, 0, 0x102, 2, 11, 1, 0x101, 33, 0, 0x1,
    0x107, 1, 0,
];

/// A row: a script, its text after the load's, its closing table, and the exit.
static RUNS: [(&str, &str, &str, Exit); 7] = [
    // no words
    (
        "object 8\nipi 1 2 8\n",
        "2 reply 1 15 3 0 0\n",
        OBJECT_CLOSED,
        Exit::Done,
    ),
    // the words of one address are joined, even with those of another between them
    (
        "object 8 2\nobject 9 2\nobject 8 1\nipi 1 2 8\nipi 1 2 9\n",
        "4 reply 1 15 3 2 0\n5 reply 1 15 3 1 0\n",
        OBJECT_CLOSED,
        Exit::Done,
    ),
    // an empty line ends the block, and so does a comment
    ("\nobject 8 1\n", "2 late 8\n", OBJECT_CLOSED, Exit::Done),
    (
        "object 8 1\n# 1\nobject 9 1\n",
        "3 late 9\n",
        OBJECT_CLOSED,
        Exit::Done,
    ),
    // a seventeenth address ends the block; words for an earlier one then come too late
    (
        "object 1 1
object 2 1
object 3 1
object 4 1
object 5 1
object 6 1
object 7 1
object 8 1
object 9 1
object 10 1
object 11 1
object 12 1
object 13 1
object 14 1
object 15 1
object 16 1
object 1 1
object 17 1
object 1 1
ipi 1 2 16
ipi 1 2 17
",
        "18 late 17\n19 late 1\n20 reply 1 15 4 0 0\n21 reply 1 15 0 0 0\n",
        OBJECT_CLOSED,
        Exit::Done,
    ),
    // a bad line in the block counts after the lines before it have been run
    (
        "object 8 1\nobject\nobject 8 1\n",
        "",
        "fault line 2 3\n",
        Exit::BadLine,
    ),
    ("object 8 x\n", "", "fault line 1 2\n", Exit::BadLine),
];

#[test]
fn each_run_with_attached_objects_writes_its_text(rt: HostRuntime) -> Result<(), Fail> {
    for (script, steps, end, exit) in RUNS.iter() {
        let asked = Asked {
            words: "replay obj script",
            object: CONFIGURED,
            script: script.as_bytes(),
            failing: &[],
            topology: &[],
        };
        check_joined(&rt, &asked, &[OBJECT_LOADED, steps, end], *exit)?;
    }
    Ok(())
}

/// A failed read in the block counts after the lines before it have been run.
#[test]
fn a_read_that_fails_in_the_block_is_told_after_the_load(rt: HostRuntime) -> Result<(), Fail> {
    let asked = Asked {
        words: "replay obj script",
        object: CONFIGURED,
        script: b"object 8 1\nobject 8 1\n",
        failing: &[(1, 15)],
        topology: &[],
    };
    check_joined(
        &rt,
        &asked,
        &[OBJECT_LOADED, "fault read\n"],
        Exit::ReadFault,
    )
}
