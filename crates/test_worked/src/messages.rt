//! Rows of messages: requirements, latencies, refusals, shutdowns and reset lines.

use crate::checks::check_settled;
use std::test::Fail;

/// A script over the laboratory's object after its first line, `ipi 1 21`, and its text after that line's.
static ROWS: [(&str, &str); 8] = [
    // the first slave of a master, and the closing table
    (
        "ipi 1 13 33 1 0 2
",
        "2 set 33 0 1
2 reply 1 0 0 0 0
end power 1 1 1
end proc 2 1 1
end power 10 1 1
end slave 33 1 1
end power 62 1 1
",
    ),
    // another master uses a slave that cannot be shared
    (
        "boot 7 0
ipi 7 13 39 1 0 2
ipi 1 13 39 1 0 2
",
        "2 set 6 0 1
2 set 7 0 1
2 run 7 0
3 set 39 0 1
3 reply 7 0 0 0 0
4 reply 1 2007 7 0 0
end power 1 1 1
end proc 2 1 1
end power 6 1 1
end proc 7 1 1
end power 10 1 1
end slave 39 1 1
end power 62 1 1
",
    ),
    // the least state that meets the requirements of two masters
    (
        "boot 7 0
ipi 7 13 11 2 0 2
ipi 1 13 11 1 0 2
ipi 1 14 11
",
        "2 set 6 0 1
2 set 7 0 1
2 run 7 0
3 set 11 0 1
3 reply 7 0 0 0 0
4 set 11 1 2
4 reply 1 0 0 0 0
5 set 11 2 1
5 reply 1 0 0 0 0
end power 1 1 1
end proc 2 1 1
end power 6 1 1
end proc 7 1 1
end power 10 1 1
end slave 11 1 1
end power 62 1 1
",
    ),
    // a slave is requested twice and released twice
    (
        "ipi 1 13 33 1 0 2
ipi 1 13 33 1 0 2
ipi 1 14 33
ipi 1 14 33
",
        "2 set 33 0 1
2 reply 1 0 0 0 0
3 reply 1 2004 0 0 0
4 set 33 1 0
4 reply 1 0 0 0 0
5 reply 1 2002 0 0 0
end power 1 1 1
end proc 2 1 1
end power 10 1 1
end power 62 1 1
",
    ),
    // a latency that the state of the slave would exceed, and one that it meets
    (
        "ipi 1 13 11 2 0 2
ipi 1 16 11 299
ipi 1 16 11 300
",
        "2 set 11 0 1
2 reply 1 0 0 0 0
3 set 11 1 2
3 reply 1 0 0 0 0
4 set 11 2 1
4 reply 1 0 0 0 0
end power 1 1 1
end proc 2 1 1
end power 10 1 1
end slave 11 1 1
end power 62 1 1
",
    ),
    // a refusal for which no reply is wanted, and an unknown acknowledge kind
    (
        "ipi 1 13 50 1 0 1
ipi 1 13 33 1 0 4
",
        "3 reply 1 15 0 0 0
end power 1 1 1
end proc 2 1 1
end power 10 1 1
end power 62 1 1
",
    ),
    // a shutdown of everything is refused; one of the own subsystem is done
    (
        "ipi 1 12 0 2
ipi 1 12 0 0
ipi 1 1
",
        "2 reply 1 2002 0 0 0
3 set 2 1 0
3 set 1 1 0
3 set 10 1 0
3 reply 1 0 0 0 0
4 drop 1
end power 62 1 1
",
    ),
    // reset lines and operating characteristics
    (
        "ipi 1 17 33 2
ipi 1 18 33
ipi 1 17 34 1
ipi 1 17 1000 1
ipi 1 4 33 1
ipi 1 4 33 3
ipi 1 4 33 2
ipi 1 4 33 9
",
        "2 line 33 0 1
2 line 33 1 0
2 reply 1 0 0 0 0
3 reply 1 0 0 0 0
4 reply 1 2002 0 0 0
5 reply 1 2003 0 0 0
6 reply 1 0 0 0 0
7 reply 1 0 100 0 0
8 reply 1 19 0 0 0
9 reply 1 15 0 0 0
end power 1 1 1
end proc 2 1 1
end power 10 1 1
end power 62 1 1
",
    ),
];

#[test]
fn each_message_has_its_reply(rt: HostRuntime) -> Result<(), Fail> {
    for (script, text) in &ROWS {
        check_settled(&rt, script, text)?;
    }
    Ok(())
}
