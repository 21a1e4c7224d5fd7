//! Runs with messages in boxes and with power calls, compared with the run without those of a master.

use super::checks::check_joined;
use pm_base::Exit;
use std::test::Fail;
use test_fixtures::Asked;

/// Master 7, which has the greater mask, and then master 1. Each may use the memory 11, which can't be shared. Only 1
/// may use 28, and only 7 may use 34. Master 7 may force the power node above 28, and the processors of 1.
const APART: &[u32] = &[
    2, 3, 1, 0x101, 2, 7, 0x100, 100, 0, 0, 1, 0x1, 100, 0, 0, 0x102, 3, 11, 0, 0x101, 28, 0, 0x1,
    34, 0, 0x100, 0x104, 1, 10, 0x100,
];

/// The reach of master 1.
const REACH: &str = "master 1 self 1
slave 11 use 1
slave 28 use 1
power 1 above 1
power 10 above 1
power 62 above 1
";

/// A script, and the differences without the messages of master 1.
static RUNS: [(&str, &str); 11] = [
    // one message uses a slave, and the next one of the same line forces it down: after the line nothing differs
    (
        "boot 2 0\npost 1 13 28 1 0 2\npost 7 8 10 2\nserve\n",
        "steps 4\n",
    ),
    // the same in two lines differs
    (
        "boot 2 0\npost 1 13 28 1 0 2\nserve\npost 7 8 10 2\nserve\n",
        "differ slave 28\nsteps 5\n",
    ),
    // the box of master 1 is full, and its second message is lost; that of 7, which ends its holds, is served in
    // both runs
    (
        "boot 2 0\npost 1 13 28 1 0 2\npost 1 1\npost 7 21\nserve\n",
        "differ slave 28\nsteps 5\n",
    ),
    // no other box is full; without the message the line does nothing
    (
        "boot 2 0\npost 1 13 28 1 0 2\nserve\nserve\n",
        "differ slave 28\nsteps 4\n",
    ),
    // each message is judged on the book that the one before it left, so that 7 has the memory in one run only
    (
        "ipi 7 21\nboot 2 0\npost 1 13 11 2 0 2\npost 7 13 11 1 0 2\nserve\n",
        "differ slave 11\nsteps 5\n",
    ),
    // another master has it in the same state
    (
        "ipi 7 21\nboot 2 0\npost 1 13 11 1 0 2\npost 7 13 11 1 0 2\nserve\n",
        "steps 5\n",
    ),
    // the other's slave goes up and down in lines that each have a message of it
    (
        "ipi 7 21\nboot 2 0\npost 1 13 28 1 0 2\npost 7 13 34 1 0 2\nserve\npost 7 14 34\npost 1 14 28\nserve\n",
        "differ slave 28\nsteps 8\n",
    ),
    // a message that still waits at the end of the script changes nothing
    ("boot 2 0\npost 1 13 28 1 0 2\n", "steps 2\n"),
    // a power call becomes a message of master 1, which starts a processor
    (
        "boot 2 0\nsmc 2 0xC4000003 1 4096 0\n",
        "differ proc 3\nsteps 2\n",
    ),
    // the wait of a processor that stops itself is left out with its message
    (
        "boot 2 0\nsmc 2 0x84000002\n",
        "differ power 1\ndiffer proc 2\ndiffer power 10\nsteps 2\n",
    ),
    // refused calls become no event
    ("boot 2 0\nsmc 7 0x84000002\nsmc 2 1\n", "steps 3\n"),
];

#[test]
fn what_differs_is_found_after_each_line(rt: HostRuntime) -> Result<(), Fail> {
    for (script, found) in &RUNS {
        let asked = Asked {
            words: "isolate obj script 1",
            object: APART,
            script: script.as_bytes(),
            failing: &[],
            topology: &[],
        };
        check_joined(&rt, &asked, &[REACH, found], Exit::Done)?;
    }
    Ok(())
}
