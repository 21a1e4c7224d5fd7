//! Runs over objects in which the order of the masks is neither that of the masters nor that of their nodes.

use super::checks::check;
use pm_base::Exit;
use std::test::Fail;
use test_fixtures::{DOMAINS, replay_of};

/// Two masters. The one with the greater node has the lesser mask; the other has the last bit of a word as its mask.
/// Both may use the slave 39, which can't be shared.
const LAST_BIT: &[u32] = &[
    2, 2, 1, 0x101, 2, 1, 0x80000000, 100, 0, 0, 7, 0x1, 100, 0, 0, 0x102, 1, 39, 0, 0x80000001,
];

/// A row: an object, a script in which both masters put a message into their boxes, and its whole text.
static ORDERED: [(&[u32], &str, &str); 2] = [
    // master 8 is the first of the object, and its message comes first; but the mask of master 7 is less
    (
        DOMAINS,
        "boot 7 0\npost 8 13 33 1 0 2\npost 7 13 33 1 0 2\nserve\n",
        "0 set 62 0 1
0 set 6 0 1
0 set 8 0 1
0 run 8 0
1 set 7 0 1
1 run 7 0
4 set 33 0 1
4 reply 7 0 0 0 0
4 reply 8 2002 0 0 0
end power 6 1 1
end proc 7 1 1
end proc 8 1 1
end slave 33 1 1
end power 62 1 1
",
    ),
    // the node of master 1 is less, but its mask is the greatest one: master 7 gets the slave
    (
        LAST_BIT,
        "ipi 1 21\nboot 7 0\npost 1 13 39 1 0 2\npost 7 13 39 1 0 2\nserve\n",
        "0 set 10 0 1
0 set 62 0 1
0 set 1 0 1
0 set 2 0 1
0 set 39 0 1
0 run 2 0
1 set 39 1 0
1 reply 1 0 0 0 0
2 set 6 0 1
2 set 7 0 1
2 run 7 0
5 set 39 0 1
5 reply 7 0 0 0 0
5 reply 1 2007 7 0 0
end power 1 1 1
end proc 2 1 1
end power 6 1 1
end proc 7 1 1
end power 10 1 1
end slave 39 1 1
end power 62 1 1
",
    ),
];

#[test]
fn messages_are_served_by_the_masks_as_numbers(rt: HostRuntime) -> Result<(), Fail> {
    for (object, script, text) in &ORDERED {
        let asked = replay_of(object, script.as_bytes());
        check(&rt, &asked, None, text.as_bytes(), Exit::Done)?;
    }
    Ok(())
}
