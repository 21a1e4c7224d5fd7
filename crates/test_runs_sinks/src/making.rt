//! Runs of generated scripts.

use super::cases::{Case, asked_of, check_cases};
use super::running::run;
use pm_base::Exit;
use pm_io::MemSink;
use std::alloc::Global;
use std::process::Abort;
use std::test::Fail;
use test_fixtures::OBJECT;

/// The summary of a script of one line.
const ONE: &str = "lines 3\nset 16\nrun 2\nreply 2\ndrop 0\ncall 0\n";

/// The summary of a script of 13 lines.
const THIRTEEN: &str = "lines 15\nset 19\nrun 2\nreply 12\ndrop 0\ncall 0\n";

static EXITS: [Case; 8] = [
    ("make 1", OBJECT, "", &[], ONE, "", Exit::Done),
    ("make 0xd", OBJECT, "", &[], THIRTEEN, "", Exit::Done),
    // no number of lines, and one line too many
    (
        "make 0",
        OBJECT,
        "",
        &[],
        "",
        "fault number\n",
        Exit::BadText,
    ),
    (
        "make x",
        OBJECT,
        "",
        &[],
        "",
        "fault number\n",
        Exit::BadText,
    ),
    (
        "make 200001",
        OBJECT,
        "",
        &[],
        "",
        "fault number\n",
        Exit::BadText,
    ),
    (
        "make 4294967297",
        OBJECT,
        "",
        &[],
        "",
        "fault number\n",
        Exit::BadText,
    ),
    // words without a form
    ("make", OBJECT, "", &[], "", "fault usage\n", Exit::Usage),
    (
        "make 1 1",
        OBJECT,
        "",
        &[],
        "",
        "fault usage\n",
        Exit::Usage,
    ),
];

#[test]
fn a_sink_of_each_length_under_each_exit(rt: HostRuntime) -> Result<(), Fail> {
    check_cases(&rt, &EXITS)
}

/// A script of 300 lines.
const LONGER: Case = ("make 300", OBJECT, "", &[], "", "", Exit::Done);

/// The text of a run of many lines, and its exit.
fn longer(alloc: Global) -> Result<(MemSink, Exit), Fail> {
    let mut out = MemSink::new(alloc, None)?;
    let exit = run(alloc, &asked_of(&LONGER), &mut out)?;
    Ok((out, exit))
}

/// A run of many lines ends with Done, its summary begins with their number, and a second run writes the same.
fn check_both(rt: &impl Abort, exit: Exit, first: &[u8], second: &[u8]) {
    let begins = first.starts_with(b"lines 302\nset ");
    assert_eq!(rt; (exit, begins, first), (Exit::Done, true, second));
}

#[test]
fn two_runs_write_the_same(rt: HostRuntime) -> Result<(), Fail> {
    let (first, exit) = longer(rt.alloc())?;
    let (second, _) = longer(rt.alloc())?;
    check_both(&rt, exit, first.bytes(), second.bytes());
    Ok(())
}
