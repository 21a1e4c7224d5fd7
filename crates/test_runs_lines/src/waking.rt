//! Runs in which masters are woken: by interrupts of slaves and of processors, and by one another.

use super::steps::check_settled;
use std::test::Fail;

/// A script over the laboratory's object after its first line, `ipi 1 21`, and its text after that line's.
static WOKEN_RUNS: [(&str, &str); 6] = [
    // the interrupt of an armed slave wakes a sleeping master, whose requirements are in force again
    (
        "ipi 1 13 33 1 0 2
ipi 1 11 2 46 1
ipi 1 7 2 0 0 4096 0
ipi 1 15 33 0 0 2
wfi 2
irq 46
",
        "2 set 33 0 1
2 reply 1 0 0 0 0
3 reply 1 0 0 0 0
4 reply 1 0 0 0 0
5 reply 1 0 0 0 0
6 set 2 1 0
6 set 33 1 0
6 set 46 0 1
6 set 1 1 0
6 set 10 1 0
7 set 10 0 1
7 set 1 0 1
7 set 2 0 1
7 set 33 0 1
7 set 46 1 0
7 run 2 4096
end power 1 1 1
end proc 2 1 1
end power 10 1 1
end slave 33 1 1
end power 62 1 1
",
    ),
    // an interrupt before the sleep ends the suspend, and scheduled requirements are dropped
    (
        "ipi 1 13 33 1 0 2
ipi 1 11 2 46 1
ipi 1 7 2 0 0 4096 0
ipi 1 15 33 0 0 2
irq 46
wfi 2
ipi 1 7 2 0 0 4096 0
wfi 2
",
        "2 set 33 0 1
2 reply 1 0 0 0 0
3 reply 1 0 0 0 0
4 reply 1 0 0 0 0
5 reply 1 0 0 0 0
8 reply 1 0 0 0 0
9 set 2 1 0
9 set 46 0 1
9 set 1 1 0
9 set 10 1 0
end proc 2 2 0
end slave 33 1 1
end slave 46 1 1
end power 62 1 1
",
    ),
    // a slave that another master uses, and that can't be shared, wakes a master
    (
        "boot 7 0
ipi 7 13 39 1 0 2
ipi 1 13 39 1 0 2
ipi 1 11 2 39 1
ipi 1 7 2 0 0 0 0
wfi 2
irq 39
",
        "2 set 6 0 1
2 set 7 0 1
2 run 7 0
3 set 39 0 1
3 reply 7 0 0 0 0
4 reply 1 2007 7 0 0
5 reply 1 0 0 0 0
6 reply 1 0 0 0 0
7 set 2 1 0
7 set 1 1 0
7 set 10 1 0
8 set 10 0 1
8 set 1 0 1
8 set 2 0 1
8 run 2 0
end power 1 1 1
end proc 2 1 1
end power 6 1 1
end proc 7 1 1
end power 10 1 1
end slave 39 1 1
end power 62 1 1
",
    ),
    // a slave that the master uses itself wakes it
    (
        "boot 7 0
#
ipi 1 13 39 1 0 2
ipi 1 11 2 39 1
ipi 1 7 2 0 0 0 0
wfi 2
irq 39
",
        "2 set 6 0 1
2 set 7 0 1
2 run 7 0
4 set 39 0 1
4 reply 1 0 0 0 0
5 reply 1 0 0 0 0
6 reply 1 0 0 0 0
7 set 2 1 0
7 set 1 1 0
7 set 10 1 0
8 set 10 0 1
8 set 1 0 1
8 set 2 0 1
8 run 2 0
end power 1 1 1
end proc 2 1 1
end power 6 1 1
end proc 7 1 1
end power 10 1 1
end slave 39 1 1
end power 62 1 1
",
    ),
    // a master wakes another, which may not wake it, and gets an acknowledgement by a callback
    (
        "ipi 1 10 7 4097 0 2
ipi 1 10 7 4097 0 2
ipi 7 10 2 0 0 2
ipi 1 13 33 1 0 3
",
        "2 set 6 0 1
2 set 7 0 1
2 run 7 4096
2 reply 1 0 0 0 0
3 reply 1 1 0 0 0
4 reply 7 2002 0 0 0
5 set 33 0 1
5 call 1 31 33 0 1 0
end power 1 1 1
end proc 2 1 1
end power 6 1 1
end proc 7 1 1
end power 10 1 1
end slave 33 1 1
end power 62 1 1
",
    ),
    // two masters arm one slave, which wakes a processor of each; after one has disarmed it, only the other's
    (
        "boot 7 0
ipi 1 11 2 46 1
ipi 7 11 7 46 1
ipi 1 7 2 0 0 4096 0
wfi 2
ipi 7 7 7 0 0 8192 0
wfi 7
irq 46
ipi 7 11 7 46 0
ipi 1 7 2 0 0 4096 0
wfi 2
ipi 7 7 7 0 0 8192 0
wfi 7
irq 46
gic 7
",
        "2 set 6 0 1
2 set 7 0 1
2 run 7 0
3 reply 1 0 0 0 0
4 reply 7 0 0 0 0
5 reply 1 0 0 0 0
6 set 2 1 0
6 set 46 0 1
6 set 1 1 0
6 set 10 1 0
7 reply 7 0 0 0 0
8 set 7 1 0
8 set 6 1 0
9 set 10 0 1
9 set 1 0 1
9 set 6 0 1
9 set 2 0 1
9 set 7 0 1
9 set 46 1 0
9 run 2 4096
9 run 7 8192
10 reply 7 0 0 0 0
11 reply 1 0 0 0 0
12 set 2 1 0
12 set 46 0 1
12 set 1 1 0
12 set 10 1 0
13 reply 7 0 0 0 0
14 set 7 1 0
14 set 6 1 0
15 set 10 0 1
15 set 1 0 1
15 set 2 0 1
15 set 46 1 0
15 run 2 4096
16 set 6 0 1
16 set 7 0 1
16 run 7 8192
end power 1 1 1
end proc 2 1 1
end power 6 1 1
end proc 7 1 1
end power 10 1 1
end power 62 1 1
",
    ),
];

#[test]
fn each_run_with_a_waking_writes_its_text(rt: HostRuntime) -> Result<(), Fail> {
    check_settled(&rt, &WOKEN_RUNS)
}
