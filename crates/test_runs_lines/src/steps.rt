//! Runs with the text of each step.

use super::checks::{check, check_pieces};
use pm_base::Exit;
use std::process::Abort;
use std::test::Fail;
use test_fixtures::{LABORATORY, LABORATORY_LOADED, LABORATORY_SETTLED, OBJECT, replay_of};

/// A script over the laboratory's object after its first line, `ipi 1 21`, and its text after that line's.
static SETTLED_RUNS: [(&str, &str); 2] = [
    // a suspending master's requirements are in force from its sleep on
    (
        "ipi 1 13 33 1 0 2\nipi 1 7 2 0 0 4096 0\nipi 1 15 33 0 0 2\nipi 1 3 2\nwfi 2\n",
        "2 set 33 0 1
2 reply 1 0 0 0 0
3 reply 1 0 0 0 0
4 reply 1 0 0 0 0
5 reply 1 0 3 0 0
6 set 2 1 0
6 set 33 1 0
6 set 1 1 0
6 set 10 1 0
end proc 2 2 0
end power 62 1 1
",
    ),
    // an aborted suspend, after which a wait does nothing and scheduled requirements are dropped
    (
        "ipi 1 13 33 1 0 2
ipi 1 7 2 0 0 4096 0
ipi 1 15 33 0 0 2
ipi 1 9 100 2
wfi 2
ipi 1 7 2 0 0 4096 0
wfi 2
",
        "2 set 33 0 1
2 reply 1 0 0 0 0
3 reply 1 0 0 0 0
4 reply 1 0 0 0 0
5 reply 1 0 0 0 0
7 reply 1 0 0 0 0
8 set 2 1 0
8 set 1 1 0
8 set 10 1 0
end proc 2 2 0
end slave 33 1 1
end power 62 1 1
",
    ),
];

/// Compares each run over the laboratory's object with the first line `ipi 1 21` with its text.
pub(crate) fn check_settled(
    rt: &(impl Abort + AllocGlobal),
    runs: &[(&str, &str)],
) -> Result<(), Fail> {
    for (lines, text) in runs {
        check_pieces(
            rt,
            LABORATORY,
            &["ipi 1 21\n", lines],
            &[LABORATORY_LOADED, LABORATORY_SETTLED, text],
        )?;
    }
    Ok(())
}

#[test]
fn each_run_of_a_master_that_has_settled_writes_its_text(rt: HostRuntime) -> Result<(), Fail> {
    check_settled(&rt, &SETTLED_RUNS)
}

/// A script over the object of two masters, neither of which has finished its initialization, and its text: the
/// slaves of master 1 stay held.
static HELD_RUN: (&str, &str) = (
    "boot 7 0
ipi 7 13 11 2 0 2
ipi 1 13 11 1 0 2
ipi 1 3 11
ipi 1 14 11
ipi 7 13 33 1 0 2
ipi 8 3 11
ipi 1 13 33 8 0 3
",
    "0 set 10 0 1
0 set 62 0 1
0 set 1 0 1
0 set 2 0 1
0 set 11 0 2
0 set 33 0 1
0 run 2 0
1 set 6 0 1
1 set 7 0 1
1 run 7 0
2 reply 7 0 0 0 0
3 reply 1 0 0 0 0
4 reply 1 0 2 1 3
5 reply 1 0 0 0 0
6 reply 7 2002 0 0 0
7 drop 8
8 call 1 31 33 19 1 0
end power 1 1 1
end proc 2 1 1
end power 6 1 1
end proc 7 1 1
end power 10 1 1
end slave 11 2 2
end slave 33 1 1
end power 62 1 1
",
);

#[test]
fn slaves_are_held_until_a_master_has_settled(rt: HostRuntime) -> Result<(), Fail> {
    let (script, text) = HELD_RUN;
    let asked = replay_of(OBJECT, script.as_bytes());
    check(&rt, &asked, None, text.as_bytes(), Exit::Done)
}
