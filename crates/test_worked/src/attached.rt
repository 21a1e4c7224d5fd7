//! Rows of attached objects that are put in force.

use crate::checks::{Row, check_rows};
use pm_base::Exit;
use std::test::Fail;

/// The small object with a section that lets master 1 put another object in force.
const CONFIGURED: &[u32] = &[
    2, 3, 1, 0x101, 2, 1, 1, 100, 0, 0, 7, 0x100, 100, 0, 0, 0x102, 2, 11, 1, 0x101, 33, 0, 1,
    0x107, 1, 0,
];

/// Words and inputs of a run, its text, and its exit.
static ROWS: [Row; 2] = [
    // another object is put in force; putting the first one back is refused
    Row {
        words: "replay obj script",
        object: CONFIGURED,
        script: "object 4096 2 2 1 257 2 1 1 100 0 0 7 256 100 0 0 258 1 33 0 256
ipi 1 21
ipi 1 13 33 1 0 2
ipi 1 2 8192
ipi 1 2 4096
ipi 1 13 33 1 0 2
boot 7 0
ipi 7 13 33 1 0 2
ipi 1 2 4096
",
        topology: "",
        text: "0 set 10 0 1
0 set 62 0 1
0 set 1 0 1
0 set 2 0 1
0 set 11 0 2
0 set 33 0 1
0 run 2 0
2 set 11 2 0
2 set 33 1 0
2 reply 1 0 0 0 0
3 set 33 0 1
3 reply 1 0 0 0 0
4 reply 1 15 0 0 0
5 set 33 1 0
5 reply 1 0 0 0 0
6 reply 1 2002 0 0 0
7 set 6 0 1
7 set 7 0 1
7 run 7 0
8 set 33 0 1
8 reply 7 0 0 0 0
9 reply 1 2002 0 0 0
end power 1 1 1
end proc 2 1 1
end power 6 1 1
end proc 7 1 1
end power 10 1 1
end slave 33 1 1
end power 62 1 1
",
        exit: Exit::Done,
    },
    // an attached object with a fault, and a line that comes too late
    Row {
        words: "replay obj script",
        object: CONFIGURED,
        script: "object 8 1
ipi 1 2 8
object 8 1
",
        topology: "",
        text: "0 set 10 0 1
0 set 62 0 1
0 set 1 0 1
0 set 2 0 1
0 set 11 0 2
0 set 33 0 1
0 run 2 0
2 reply 1 15 4 0 0
3 late 8
end power 1 1 1
end proc 2 1 1
end power 10 1 1
end slave 11 2 2
end slave 33 1 1
end power 62 1 1
",
        exit: Exit::Done,
    },
];

#[test]
fn an_attached_object_is_put_in_force(rt: HostRuntime) -> Result<(), Fail> {
    check_rows(&rt, &ROWS)
}
