//! Rows in which masters sleep, wake, are woken, go off, and are asked to suspend.

use crate::checks::check_settled;
use std::test::Fail;

/// A script over the laboratory's object after its first line, `ipi 1 21`, and its text after that line's.
static ROWS: [(&str, &str); 9] = [
    // a master sleeps, and its wake-up source wakes it
    (
        "ipi 1 13 33 1 0 2
ipi 1 11 2 46 1
ipi 1 7 2 0 0 4096 0
ipi 1 15 33 0 0 2
wfi 2
irq 46
",
        "2 set 33 0 1
2 reply 1 0 0 0 0
3 reply 1 0 0 0 0
4 reply 1 0 0 0 0
5 reply 1 0 0 0 0
6 set 2 1 0
6 set 33 1 0
6 set 46 0 1
6 set 1 1 0
6 set 10 1 0
7 set 10 0 1
7 set 1 0 1
7 set 2 0 1
7 set 33 0 1
7 set 46 1 0
7 run 2 4096
end power 1 1 1
end proc 2 1 1
end power 10 1 1
end slave 33 1 1
end power 62 1 1
",
    ),
    // an interrupt before the wait ends the suspend, and scheduled requirements are dropped
    (
        "ipi 1 13 33 1 0 2
ipi 1 11 2 46 1
ipi 1 7 2 0 0 4096 0
ipi 1 15 33 0 0 2
irq 46
wfi 2
ipi 1 7 2 0 0 4096 0
wfi 2
",
        "2 set 33 0 1
2 reply 1 0 0 0 0
3 reply 1 0 0 0 0
4 reply 1 0 0 0 0
5 reply 1 0 0 0 0
8 reply 1 0 0 0 0
9 set 2 1 0
9 set 46 0 1
9 set 1 1 0
9 set 10 1 0
end proc 2 2 0
end slave 33 1 1
end slave 46 1 1
end power 62 1 1
",
    ),
    // a domain stays up for a slave of another master, and goes down after its release
    (
        "boot 7 0
ipi 7 13 28 1 0 2
ipi 1 7 2 0 0 0 0
wfi 2
ipi 7 14 28
",
        "2 set 6 0 1
2 set 7 0 1
2 run 7 0
3 set 28 0 1
3 reply 7 0 0 0 0
4 reply 1 0 0 0 0
5 set 2 1 0
5 set 1 1 0
6 set 28 1 0
6 set 10 1 0
6 reply 7 0 0 0 0
end proc 2 2 0
end power 6 1 1
end proc 7 1 1
end power 62 1 1
",
    ),
    // a domain is forced down, with the processor and the slave of another master
    (
        "ipi 1 13 33 1 0 2
boot 7 0
ipi 7 8 10 2
ipi 1 13 33 1 0 2
",
        "2 set 33 0 1
2 reply 1 0 0 0 0
3 set 6 0 1
3 set 7 0 1
3 run 7 0
4 set 2 1 0
4 set 33 1 0
4 set 1 1 0
4 set 10 1 0
4 reply 7 0 0 0 0
5 drop 1
end power 6 1 1
end proc 7 1 1
end power 62 1 1
",
    ),
    // a slave that another master uses wakes a master
    (
        "boot 7 0
ipi 7 13 39 1 0 2
ipi 1 13 39 1 0 2
ipi 1 11 2 39 1
ipi 1 7 2 0 0 0 0
wfi 2
irq 39
",
        "2 set 6 0 1
2 set 7 0 1
2 run 7 0
3 set 39 0 1
3 reply 7 0 0 0 0
4 reply 1 2007 7 0 0
5 reply 1 0 0 0 0
6 reply 1 0 0 0 0
7 set 2 1 0
7 set 1 1 0
7 set 10 1 0
8 set 10 0 1
8 set 1 0 1
8 set 2 0 1
8 run 2 0
end power 1 1 1
end proc 2 1 1
end power 6 1 1
end proc 7 1 1
end power 10 1 1
end slave 39 1 1
end power 62 1 1
",
    ),
    // and so does one that no other master uses
    (
        "boot 7 0
#
ipi 1 13 39 1 0 2
ipi 1 11 2 39 1
ipi 1 7 2 0 0 0 0
wfi 2
irq 39
",
        "2 set 6 0 1
2 set 7 0 1
2 run 7 0
4 set 39 0 1
4 reply 1 0 0 0 0
5 reply 1 0 0 0 0
6 reply 1 0 0 0 0
7 set 2 1 0
7 set 1 1 0
7 set 10 1 0
8 set 10 0 1
8 set 1 0 1
8 set 2 0 1
8 run 2 0
end power 1 1 1
end proc 2 1 1
end power 6 1 1
end proc 7 1 1
end power 10 1 1
end slave 39 1 1
end power 62 1 1
",
    ),
    // a master is asked to suspend, and its time passes
    (
        "boot 7 0
ipi 1 6 7 2 50 0
ipi 1 6 7 2 50 0
tick 99
tick 1
",
        "2 set 6 0 1
2 set 7 0 1
2 run 7 0
3 call 7 30 201 50 0 100
4 reply 1 2004 0 0 0
6 reply 1 2006 0 0 0
end power 1 1 1
end proc 2 1 1
end power 6 1 1
end proc 7 1 1
end power 10 1 1
end power 62 1 1
",
    ),
    // a message of a master that sleeps is dropped
    (
        "ipi 1 7 2 0 0 0 0
wfi 2
ipi 1 13 33 1 0 2
",
        "2 reply 1 0 0 0 0
3 set 2 1 0
3 set 1 1 0
3 set 10 1 0
4 drop 1
end proc 2 2 0
end power 62 1 1
",
    ),
    // a master wakes another, twice, and may not be woken by it
    (
        "ipi 1 10 7 4097 0 2
ipi 1 10 7 4097 0 2
ipi 7 10 2 0 0 2
ipi 1 13 33 1 0 3
",
        "2 set 6 0 1
2 set 7 0 1
2 run 7 4096
2 reply 1 0 0 0 0
3 reply 1 1 0 0 0
4 reply 7 2002 0 0 0
5 set 33 0 1
5 call 1 31 33 0 1 0
end power 1 1 1
end proc 2 1 1
end power 6 1 1
end proc 7 1 1
end power 10 1 1
end slave 33 1 1
end power 62 1 1
",
    ),
];

#[test]
fn modes_change_by_their_rules(rt: HostRuntime) -> Result<(), Fail> {
    for (script, text) in &ROWS {
        check_settled(&rt, script, text)?;
    }
    Ok(())
}
