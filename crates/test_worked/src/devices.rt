//! Rows over a failing device: a node that a line breaks, and commands that fail by their number.

use crate::checks::{check_over, check_settled};
use pm_base::Exit;
use std::process::Abort;
use std::test::Fail;
use test_fixtures::{LABORATORY, LABORATORY_LOADED, LABORATORY_SETTLED, joined, listed, replay_of};

/// A node of the device is broken and mended: the script after its first line `ipi 1 21`, and its text after that
/// line's.
const BROKEN: (&str, &str) = (
    "break 28
ipi 1 13 28 1 0 2
ipi 1 3 28
mend 28
",
    "3 fail 28 0 1
3 reply 1 2000 0 0 0
4 fail 28 0 1
4 reply 1 0 1 1 1
5 set 28 0 1
end power 1 1 1
end proc 2 1 1
end power 10 1 1
end slave 28 1 1
end power 62 1 1
",
);

#[test]
fn a_broken_node_fails_until_it_is_mended(rt: HostRuntime) -> Result<(), Fail> {
    let (script, text) = BROKEN;
    check_settled(&rt, script, text)
}

/// A row: the commands that fail, a script over the laboratory's object after its first line `ipi 1 21`, and its text
/// after that line's.
static LISTED: [(&[u32], &str, &str); 3] = [
    // a power-up fails, and fails again in the step that asks for the state
    (
        &[15, 16],
        "ipi 1 13 28 1 0 2\nipi 1 3 28\n",
        "2 fail 28 0 1
2 reply 1 2000 0 0 0
3 fail 28 0 1
3 reply 1 0 1 1 1
end power 1 1 1
end proc 2 1 1
end power 10 1 1
end slave 28 1 0
end power 62 1 1
",
    ),
    // the first command of a pulse fails
    (
        &[15],
        "ipi 1 17 33 2\n",
        "2 linefail 33 0 1
2 reply 1 2000 0 0 0
end power 1 1 1
end proc 2 1 1
end power 10 1 1
end power 62 1 1
",
    ),
    // the second one fails, and is given again in the next step
    (
        &[16],
        "ipi 1 17 33 2\n#\n",
        "2 line 33 0 1
2 linefail 33 1 0
2 reply 1 0 0 0 0
3 line 33 1 0
end power 1 1 1
end proc 2 1 1
end power 10 1 1
end power 62 1 1
",
    ),
];

/// Compares a row with its run over a device that fails the commands with these numbers.
fn check_listed(
    rt: &(impl Abort + AllocGlobal),
    failing: &[u32],
    script: &str,
    text: &str,
) -> Result<(), Fail> {
    let script = joined(rt.alloc(), &["ipi 1 21\n", script])?;
    let whole = joined(rt.alloc(), &[LABORATORY_LOADED, LABORATORY_SETTLED, text])?;
    let asked = replay_of(LABORATORY, &script);
    let mut device = listed(rt.alloc(), failing)?;
    check_over(rt, &asked, None, &whole, Exit::Done, &mut *device)
}

#[test]
fn commands_fail_by_their_number(rt: HostRuntime) -> Result<(), Fail> {
    for (failing, script, text) in &LISTED {
        check_listed(&rt, failing, script, text)?;
    }
    Ok(())
}
