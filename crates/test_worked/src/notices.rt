//! Rows of callbacks that wait for their master, and of a request that is refused.

use crate::checks::check_settled;
use std::test::Fail;

/// A script over the laboratory's object after its first line, `ipi 1 21`, and its text after that line's.
static ROWS: [(&str, &str); 2] = [
    // two changes for a sleeping master are one callback when it wakes
    (
        "boot 7 0
ipi 7 5 11 1 0 1
ipi 7 7 7 0 0 0 0
wfi 7
ipi 1 13 11 1 0 2
ipi 1 14 11
gic 7
",
        "2 set 6 0 1
2 set 7 0 1
2 run 7 0
3 reply 7 0 0 0 0
4 reply 7 0 0 0 0
5 set 7 1 0
5 set 6 1 0
6 set 11 0 2
6 reply 1 0 0 0 0
7 set 11 2 0
7 reply 1 0 0 0 0
8 set 6 0 1
8 set 7 0 1
8 run 7 0
8 call 7 32 11 1 0 0
end power 1 1 1
end proc 2 1 1
end power 6 1 1
end proc 7 1 1
end power 10 1 1
end power 62 1 1
",
    ),
    // a request to suspend is refused by the master that it is for
    (
        "boot 7 0
ipi 1 6 7 3 0 0
ipi 7 9 101 7
",
        "2 set 6 0 1
2 set 7 0 1
2 run 7 0
3 call 7 30 201 0 0 100
4 call 1 31 7 2005 1 0
4 reply 7 0 0 0 0
end power 1 1 1
end proc 2 1 1
end power 6 1 1
end proc 7 1 1
end power 10 1 1
end power 62 1 1
",
    ),
];

#[test]
fn callbacks_come_in_their_time(rt: HostRuntime) -> Result<(), Fail> {
    for (script, text) in &ROWS {
        check_settled(&rt, script, text)?;
    }
    Ok(())
}
