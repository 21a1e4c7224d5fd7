//! Rows of boxes and of power calls.

use crate::checks::check_settled;
use std::test::Fail;

/// A script over the laboratory's object after its first line, `ipi 1 21`, and its text after that line's.
static ROWS: [(&str, &str); 4] = [
    // posts fill boxes, and one service empties all of them by rising mask
    (
        "boot 7 0
post 7 13 39 1 0 2
post 1 13 39 1 0 2
post 1 1
serve
serve
post 8 1
",
        "2 set 6 0 1
2 set 7 0 1
2 run 7 0
5 busy 1
6 set 39 0 1
6 reply 1 0 0 0 0
6 reply 7 2007 1 0 0
8 drop 8
end power 1 1 1
end proc 2 1 1
end power 6 1 1
end proc 7 1 1
end power 10 1 1
end slave 39 1 1
end power 62 1 1
",
    ),
    // a message in a box whose master fell is dropped when it is served
    (
        "boot 7 0
post 1 1
ipi 7 8 10 2
serve
",
        "2 set 6 0 1
2 set 7 0 1
2 run 7 0
4 set 2 1 0
4 set 1 1 0
4 set 10 1 0
4 reply 7 0 0 0 0
5 drop 1
end power 6 1 1
end proc 7 1 1
end power 62 1 1
",
    ),
    // power calls of a processor, by the published function numbers
    (
        "smc 2 0xC4000003 1 4096 0
smc 2 0xC4000003 1 4096 0
smc 3 0x84000002
smc 2 0xC4000004 1 0
smc 2 0x84000008
smc 2 1
",
        "2 set 3 0 1
2 run 3 4096
2 reply 1 0 0 0 0
2 smc 2 0
3 reply 1 1 0 0 0
3 smc 2 -4
4 reply 1 0 0 0 0
4 set 3 1 0
5 reply 1 0 2 0 0
5 smc 2 1
6 reply 1 2002 0 0 0
7 smc 2 -1
end power 1 1 1
end proc 2 1 1
end proc 3 2 0
end power 10 1 1
end power 62 1 1
",
    ),
    // power calls that are refused, and one of a processor that is off
    (
        "smc 7 0x84000002
smc 2 0xC4000003 4 0 0
smc 2 0x84000002
smc 2 0xC4000004 0 0
",
        "2 smc 7 -3
3 smc 2 -2
4 reply 1 0 0 0 0
4 set 2 1 0
4 set 1 1 0
4 set 10 1 0
5 drop 1
end proc 2 2 0
end power 62 1 1
",
    ),
];

#[test]
fn boxes_and_power_calls_reach_the_core(rt: HostRuntime) -> Result<(), Fail> {
    for (script, text) in &ROWS {
        check_settled(&rt, script, text)?;
    }
    Ok(())
}
