//! Runs with power calls, which become messages of master 1 and waits of its processors.

use super::checks::{check, check_broken_off, check_pieces};
use pm_base::Exit;
use std::test::Fail;
use test_fixtures::{Asked, BOXES, BOXES_SETTLED, OBJECT, joined, replay_of};

/// The lines of a processor that is started, of one that stops, of a question for one, and of a call of another
/// master's processor, and the text after them.
const CALLED: &str = "2 set 3 0 1
2 run 3 4096
2 reply 1 0 0 0 0
2 smc 2 0
3 reply 1 0 0 0 0
3 set 3 1 0
4 reply 1 0 2 0 0
4 smc 2 1
5 smc 7 -3
";

const CLOSED: &str = "6 drop 9
end power 1 1 1
end proc 2 1 1
end proc 3 2 0
end power 10 1 1
end power 62 1 1
";

#[test]
fn the_text_breaks_off_at_each_byte_of_power_calls(rt: HostRuntime) -> Result<(), Fail> {
    let script = "ipi 1 21
smc 2 0xC4000003 1 4096 0
smc 3 0x84000002
smc 2 0xC4000004 1 0
smc 7 0x84000002
ipi 9 1
";
    let asked = replay_of(BOXES, script.as_bytes());
    let whole = joined(rt.alloc(), &[BOXES_SETTLED, CALLED, CLOSED])?;
    check(&rt, &asked, None, &whole, Exit::Done)?;
    let before = BOXES_SETTLED.len();
    for length in before..before.saturating_add(CALLED.len()) {
        check_broken_off(&rt, &asked, length, &whole)?;
    }
    Ok(())
}

/// Three masters, the first of which may shut down everything.
const SHUTTING: &[u32] = &[
    2, 3, 1, 0x101, 3, 1, 0x4, 100, 0, 0, 7, 0x1, 100, 0, 0, 8, 0x2, 100, 0, 0, 0x102, 2, 11, 1,
    0x7, 33, 0, 0x7, 0x106, 1, 2, 0x4,
];

/// A row: an object, a script after its first line `ipi 1 21`, and its text after that line's.
static CALLS: [(&[u32], &str, &str); 6] = [
    // each call, with the answers of those that are done and those that are refused
    (
        BOXES,
        "smc 2 0xC4000003 1 4096 0
smc 2 0xC4000003 1 4096 0
smc 3 0x84000002
smc 2 0xC4000004 1 0
smc 2 0x84000008
smc 2 1
",
        "2 set 3 0 1
2 run 3 4096
2 reply 1 0 0 0 0
2 smc 2 0
3 reply 1 1 0 0 0
3 smc 2 -4
4 reply 1 0 0 0 0
4 set 3 1 0
5 reply 1 0 2 0 0
5 smc 2 1
6 reply 1 2002 0 0 0
7 smc 2 -1
end power 1 1 1
end proc 2 1 1
end proc 3 2 0
end power 10 1 1
end power 62 1 1
",
    ),
    // the last processor stops itself, and later calls aren't heard
    (
        BOXES,
        "smc 7 0x84000002
smc 2 0xC4000003 4 0 0
smc 2 0x84000002
smc 2 0xC4000004 0 0
",
        "2 smc 7 -3
3 smc 2 -2
4 reply 1 0 0 0 0
4 set 2 1 0
4 set 1 1 0
4 set 10 1 0
5 drop 1
end proc 2 2 0
end power 62 1 1
",
    ),
    // both forms, with arguments above 32 bits, and the refusals of each
    (
        BOXES,
        "smc 2 0x84000003 0x900000001 0x700001000
smc 3 0x84000002
smc 2 0xC4000003 1 0x700001000
smc 2 0x84000004 1 0x100000000
smc 2 0xC4000004 0x100000001
smc 2 0xC4000003 1 4097
smc 2 0xC4000001
smc 1 0x84000002
",
        "2 set 3 0 1
2 run 3 4096
2 reply 1 0 0 0 0
2 smc 2 0
3 reply 1 0 0 0 0
3 set 3 1 0
4 set 3 0 1
4 run 3 30064775168
4 reply 1 0 0 0 0
4 smc 2 0
5 reply 1 0 1 0 0
5 smc 2 0
6 smc 2 -2
7 smc 2 -2
8 smc 2 -1
9 smc 1 -3
end power 1 1 1
end proc 2 1 1
end proc 3 1 1
end power 10 1 1
end power 62 1 1
",
    ),
    // a processor that suspends already is refused, and sleeps nevertheless
    (
        BOXES,
        "smc 2 0xC4000003 1 4096
ipi 1 7 3
smc 3 0x84000002
smc 2 0xC4000004 1
",
        "2 set 3 0 1
2 run 3 4096
2 reply 1 0 0 0 0
2 smc 2 0
3 reply 1 0 0 0 0
4 reply 1 2004 0 0 0
4 set 3 1 0
4 smc 3 -3
5 reply 1 0 2 0 0
5 smc 2 1
end power 1 1 1
end proc 2 1 1
end proc 3 2 0
end power 10 1 1
end power 62 1 1
",
    ),
    // a restart of everything, and calls after it
    (
        SHUTTING,
        "smc 2 0x84000009
smc 2 0xC4000004
ipi 1 1
",
        "2 set 11 0 2
2 set 33 0 1
2 run 2 0
2 reply 1 0 0 0 0
3 reply 1 0 1 0 0
3 smc 2 0
4 reply 1 0 65537 0 0
end power 1 1 1
end proc 2 1 1
end power 10 1 1
end slave 11 2 2
end slave 33 1 1
end power 62 1 1
",
    ),
    // a shutdown of everything, after which no message is heard; a call without a message is still answered
    (
        SHUTTING,
        "smc 2 0x84000008
smc 2 0xC4000003 1 4096
smc 2 0x84000002
smc 2 1
smc 7 0x84000002
",
        "2 set 2 1 0
2 set 1 1 0
2 set 10 1 0
2 reply 1 0 0 0 0
3 drop 1
4 drop 1
5 smc 2 -1
6 smc 7 -3
end power 62 1 1
",
    ),
];

#[test]
fn each_power_call_writes_its_text(rt: HostRuntime) -> Result<(), Fail> {
    for (object, script, text) in &CALLS {
        check_pieces(&rt, object, &["ipi 1 21\n", script], &[BOXES_SETTLED, text])?;
    }
    Ok(())
}

/// A power call sends no message of master 7, so the run without that master's messages keeps it.
#[test]
fn power_calls_stay_in_the_run_without_another_master(rt: HostRuntime) -> Result<(), Fail> {
    let asked = Asked {
        words: "isolate obj script 7",
        object: OBJECT,
        script: "ipi 1 21\nsmc 2 0xC4000003 1 4096 0\n".as_bytes(),
        failing: &[],
        topology: &[],
    };
    let text = "master 7 self 7
slave 11 use 7
power 6 above 7
power 62 above 7
steps 2
";
    check(&rt, &asked, None, text.as_bytes(), Exit::Done)
}
