//! Runs that compare the run of a script with the run without the messages of a master.

use super::cases::{Case, check_cases, check_cases_uncommanded, check_each_fault};
use pm_base::Exit;
use std::test::Fail;
use test_fixtures::{ALONE, LABORATORY, OBJECT, joined};

/// The reach of master 7 over the object of two masters.
const SHARED: &str = "master 7 self 7
slave 11 use 7
power 6 above 7
power 62 above 7
";

/// A script in which master 7 uses the slave that it shares, and its whole text.
const SCRIPT: &str = "ipi 1 21\nboot 7 0\nipi 7 13 11 1 0 2\nipi 1 13 33 1 0 2\n";

const TEXT: &str = "master 7 self 7
slave 11 use 7
power 6 above 7
power 62 above 7
differ slave 11
steps 4
";

const SEVEN: &str = "isolate obj script 7";

static EXITS: [Case; 22] = [
    (SEVEN, OBJECT, SCRIPT, &[], TEXT, "", Exit::Done),
    // words without a form
    (
        "isolate obj 7",
        OBJECT,
        "",
        &[],
        "",
        "fault usage\n",
        Exit::Usage,
    ),
    (
        "isolate obj script 7 7 7",
        OBJECT,
        "",
        &[],
        "",
        "fault usage\n",
        Exit::Usage,
    ),
    (
        "replay obj script 7 7",
        OBJECT,
        "",
        &[],
        "",
        "fault usage\n",
        Exit::Usage,
    ),
    // an unreadable object, whatever the master and the script
    (
        SEVEN,
        &[2, 1],
        SCRIPT,
        &[],
        "",
        "fault object 3 2\n",
        Exit::BadObject,
    ),
    (
        "isolate obj no x",
        &[2, 1],
        "",
        &[],
        "",
        "fault object 3 2\n",
        Exit::BadObject,
    ),
    // no master of the object, too great a number, and no number, whatever the script
    (
        "isolate obj script 8",
        LABORATORY,
        "x",
        &[],
        "",
        "fault node\n",
        Exit::BadText,
    ),
    (
        "isolate obj script 4294967303",
        OBJECT,
        "",
        &[],
        "",
        "fault node\n",
        Exit::BadText,
    ),
    (
        "isolate obj no x",
        OBJECT,
        "",
        &[],
        "",
        "fault node\n",
        Exit::BadText,
    ),
    (
        "isolate obj script 8",
        OBJECT,
        "",
        &[(1, 0)],
        "",
        "fault node\n",
        Exit::BadText,
    ),
    // a line that can't be read, at first and after others
    (
        SEVEN,
        OBJECT,
        "x",
        &[],
        SHARED,
        "fault line 1 1\n",
        Exit::BadLine,
    ),
    (
        SEVEN,
        OBJECT,
        "boot 7 0\nipi 7 13 11 1 0 2\nwfi x\nipi 1 21\n",
        &[],
        SHARED,
        "fault line 3 2\n",
        Exit::BadLine,
    ),
    // inputs that aren't there, or fail before the script is opened
    (
        "isolate no script x",
        OBJECT,
        "",
        &[],
        "",
        "fault read\n",
        Exit::ReadFault,
    ),
    (
        "isolate obj no 7",
        OBJECT,
        "",
        &[],
        "",
        "fault read\n",
        Exit::ReadFault,
    ),
    (
        SEVEN,
        OBJECT,
        SCRIPT,
        &[(0, 4)],
        "",
        "fault read\n",
        Exit::ReadFault,
    ),
    // a script that fails at its first byte, within a line, and at its end
    (
        SEVEN,
        OBJECT,
        SCRIPT,
        &[(1, 0)],
        SHARED,
        "fault read\n",
        Exit::ReadFault,
    ),
    (
        SEVEN,
        OBJECT,
        SCRIPT,
        &[(1, 30)],
        SHARED,
        "fault read\n",
        Exit::ReadFault,
    ),
    (
        SEVEN,
        OBJECT,
        SCRIPT,
        &[(1, 54)],
        SHARED,
        "fault read\n",
        Exit::ReadFault,
    ),
    (SEVEN, OBJECT, SCRIPT, &[(1, 55)], TEXT, "", Exit::Done),
    // a bad line before the byte at which a read fails
    (
        SEVEN,
        OBJECT,
        "wfi x\nwfi 2\n",
        &[(1, 8)],
        SHARED,
        "fault line 1 2\n",
        Exit::BadLine,
    ),
    // a run in which nothing differs
    (
        SEVEN,
        ALONE,
        "ipi 8 3 11\ntick 1\n",
        &[],
        "master 7 self 7\npower 6 above 7\npower 62 above 7\nsteps 2\n",
        "",
        Exit::Done,
    ),
    (
        SEVEN,
        ALONE,
        "ipi 7 7 7 0 0 0 0\nwfi 7\nx\n",
        &[],
        "master 7 self 7\npower 6 above 7\npower 62 above 7\n",
        "fault line 3 1\n",
        Exit::BadLine,
    ),
];

#[test]
fn a_sink_of_each_length_under_each_exit(rt: HostRuntime) -> Result<(), Fail> {
    check_cases(&rt, &EXITS)
}

#[test]
fn a_script_that_fails_at_each_byte(rt: HostRuntime) -> Result<(), Fail> {
    let text = joined(rt.alloc(), &[SHARED, "fault read\n"])?;
    check_each_fault(&rt, &EXITS[0], 1, 55, &text)
}

#[test]
fn no_device_is_commanded(rt: HostRuntime) -> Result<(), Fail> {
    check_cases_uncommanded(&rt, &EXITS)
}
