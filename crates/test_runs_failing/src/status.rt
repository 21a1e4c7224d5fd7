//! The answer of a step that a device didn't follow.

use super::checks::check_listed;
use std::process::Abort;
use std::test::Fail;
use test_fixtures::{LABORATORY, LABORATORY_LOADED, LABORATORY_SETTLED, joined, replay_of};

/// A row: the commands that fail, a script after its first line, and its text after that line's.
static LISTED: [(&[u32], &str, &str); 3] = [
    (
        &[15, 16],
        "ipi 1 13 28 1 0 2
ipi 1 3 28
",
        "2 fail 28 0 1
2 reply 1 2000 0 0 0
3 fail 28 0 1
3 reply 1 0 1 1 1
end power 1 1 1
end proc 2 1 1
end power 10 1 1
end slave 28 1 0
end power 62 1 1
",
    ),
    // the 1 of a pulse fails, and then the 0 after it, which is tried again
    (
        &[15],
        "ipi 1 17 33 2
",
        "2 linefail 33 0 1
2 reply 1 2000 0 0 0
end power 1 1 1
end proc 2 1 1
end power 10 1 1
end power 62 1 1
",
    ),
    (
        &[16],
        "ipi 1 17 33 2
#
",
        "2 line 33 0 1
2 linefail 33 1 0
2 reply 1 0 0 0 0
3 line 33 1 0
end power 1 1 1
end proc 2 1 1
end power 10 1 1
end power 62 1 1
",
    ),
];

/// A run over a device that fails these commands.
fn check_failing(
    rt: &(impl Abort + AllocGlobal),
    failing: &[u32],
    script: &str,
    text: &str,
) -> Result<(), Fail> {
    let script = joined(rt.alloc(), &["ipi 1 21\n", script])?;
    let mut whole = String::new(rt.alloc());
    whole.push_str(LABORATORY_LOADED)?;
    whole.push_str(LABORATORY_SETTLED)?;
    whole.push_str(text)?;
    check_listed(
        rt,
        failing,
        &replay_of(LABORATORY, &script),
        whole.as_str(),
        &[],
    )
}

#[test]
fn the_status_tells_of_a_device_that_does_not_follow(rt: HostRuntime) -> Result<(), Fail> {
    for (failing, script, text) in &LISTED {
        check_failing(&rt, failing, script, text)?;
    }
    Ok(())
}
