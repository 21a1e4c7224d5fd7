//! Runs that write the reach of a master.

use super::cases::{Case, asked_of, check_cases, check_cases_uncommanded, check_each_fault};
use super::checks::check;
use pm_base::Exit;
use std::test::Fail;
use test_fixtures::{Asked, LABORATORY, OBJECT};

/// The reach of master 7 over the object of two masters.
const SHARED: &str = "master 7 self 7
slave 11 use 7
power 6 above 7
power 62 above 7
";

const SEVEN: &str = "reach obj 7";

static EXITS: [Case; 12] = [
    (SEVEN, OBJECT, "", &[], SHARED, "", Exit::Done),
    // words without a form
    (
        "reach obj",
        OBJECT,
        "",
        &[],
        "",
        "fault usage\n",
        Exit::Usage,
    ),
    (
        "reach obj 7 script 7",
        OBJECT,
        "",
        &[],
        "",
        "fault usage\n",
        Exit::Usage,
    ),
    // an unreadable object, whatever the master
    (
        SEVEN,
        &[2, 1],
        "",
        &[],
        "",
        "fault object 3 2\n",
        Exit::BadObject,
    ),
    (
        "reach obj x",
        &[2, 1],
        "",
        &[],
        "",
        "fault object 3 2\n",
        Exit::BadObject,
    ),
    // no master of the object, too great a number, and no number
    (
        "reach obj 8",
        LABORATORY,
        "",
        &[],
        "",
        "fault node\n",
        Exit::BadText,
    ),
    (
        "reach obj 4294967303",
        OBJECT,
        "",
        &[],
        "",
        "fault node\n",
        Exit::BadText,
    ),
    (
        "reach obj x",
        OBJECT,
        "",
        &[],
        "",
        "fault node\n",
        Exit::BadText,
    ),
    // inputs that aren't there or fail, whatever the master
    (
        "reach no 7",
        OBJECT,
        "",
        &[],
        "",
        "fault read\n",
        Exit::ReadFault,
    ),
    (
        "reach no x",
        OBJECT,
        "",
        &[],
        "",
        "fault read\n",
        Exit::ReadFault,
    ),
    (
        SEVEN,
        OBJECT,
        "",
        &[(0, 4)],
        "",
        "fault read\n",
        Exit::ReadFault,
    ),
    (
        "reach obj 8",
        &[2, 1],
        "",
        &[(0, 8)],
        "",
        "fault read\n",
        Exit::ReadFault,
    ),
];

#[test]
fn a_sink_of_each_length_under_each_exit(rt: HostRuntime) -> Result<(), Fail> {
    check_cases(&rt, &EXITS)
}

#[test]
fn an_object_that_fails_at_each_byte(rt: HostRuntime) -> Result<(), Fail> {
    check_each_fault(&rt, &EXITS[0], 0, 93, b"fault read\n")?;
    let asked = Asked {
        failing: &[(0, 93)],
        ..asked_of(&EXITS[0])
    };
    check(&rt, &asked, None, SHARED.as_bytes(), Exit::Done)
}

#[test]
fn no_device_is_commanded(rt: HostRuntime) -> Result<(), Fail> {
    check_cases_uncommanded(&rt, &EXITS)
}
