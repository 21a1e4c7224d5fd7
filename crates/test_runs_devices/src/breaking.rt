//! Nodes that a script breaks and mends.

use super::checks::check_with;
use pm_base::Exit;
use std::process::Abort;
use std::test::Fail;
use test_fixtures::{
    Asked, LABORATORY, LABORATORY_LOADED, LABORATORY_SETTLED, joined, model, replay_of,
};

/// A script that breaks and mends nodes, over the laboratory's object and after its first line `ipi 1 21`, and its
/// text after that line's.
static BROKEN: [(&str, &str); 4] = [
    (
        "break 28
ipi 1 13 28 1 0 2
ipi 1 3 28
mend 28
",
        "3 fail 28 0 1
3 reply 1 2000 0 0 0
4 fail 28 0 1
4 reply 1 0 1 1 1
5 set 28 0 1
end power 1 1 1
end proc 2 1 1
end power 10 1 1
end slave 28 1 1
end power 62 1 1
",
    ),
    // a number that is no node breaks nothing, nor does one of a reset line
    (
        "break 5000
break 70
ipi 1 17 33 1
mend 70
",
        "4 line 33 0 1
4 reply 1 0 0 0 0
end power 1 1 1
end proc 2 1 1
end power 10 1 1
end power 62 1 1
end line 33 1 1
",
    ),
    // a power call is answered by the reply that was told: its processor didn't start on the device
    (
        "break 3
smc 2 0xC4000003 1 4096 0
smc 2 0xC4000004 1 0
mend 3
",
        "3 fail 3 0 1
3 run 3 4096
3 reply 1 2000 0 0 0
3 smc 2 -6
4 fail 3 0 1
4 reply 1 0 1 0 0
4 smc 2 0
5 set 3 0 1
end power 1 1 1
end proc 2 1 1
end proc 3 1 1
end power 10 1 1
end power 62 1 1
",
    ),
    // a processor that stops itself is told so before it waits, and the device keeps it on until it is mended
    (
        "smc 2 0xC4000003 1 4096
break 3
smc 3 0x84000002
smc 2 0xC4000004 1
mend 3
",
        "2 set 3 0 1
2 run 3 4096
2 reply 1 0 0 0 0
2 smc 2 0
4 reply 1 0 0 0 0
4 fail 3 1 0
5 fail 3 1 0
5 reply 1 0 2 0 0
5 smc 2 1
6 set 3 1 0
end power 1 1 1
end proc 2 1 1
end proc 3 2 0
end power 10 1 1
end power 62 1 1
",
    ),
];

/// A run of a script that breaks nodes and mends them.
fn check_broken(rt: &(impl Abort + AllocGlobal), script: &str, text: &str) -> Result<(), Fail> {
    let script = joined(rt.alloc(), &["ipi 1 21\n", script])?;
    let text = joined(rt.alloc(), &[LABORATORY_LOADED, LABORATORY_SETTLED, text])?;
    check_over_model(rt, &replay_of(LABORATORY, &script), &text)
}

/// A run over a device that doesn't fail at first.
fn check_over_model(
    rt: &(impl Abort + AllocGlobal),
    asked: &Asked,
    text: &[u8],
) -> Result<(), Fail> {
    let mut device = model(rt.alloc())?;
    check_with(rt, asked, text, Exit::Done, &mut *device)
}

#[test]
fn a_node_that_a_script_breaks(rt: HostRuntime) -> Result<(), Fail> {
    for (script, text) in &BROKEN {
        check_broken(&rt, script, text)?;
    }
    Ok(())
}
