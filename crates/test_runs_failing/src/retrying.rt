//! Runs over a device that fails commands, which each later step tries again.

use super::checks::check_listed;
use std::test::Fail;
use test_fixtures::{DOMAINS, replay_of};

/// A row: the numbers of the commands that fail, a script, its text, and the values of the device at the end.
static LISTED: [(&[u32], &str, &str, &[(u32, u32)]); 5] = [
    // a slave is skipped as long as its domain is down
    (
        &[5],
        "boot 7 0
ipi 7 13 28 1 0 2
ipi 7 3 28
",
        "0 set 62 0 1
0 set 6 0 1
0 set 8 0 1
0 run 8 0
1 set 7 0 1
1 run 7 0
2 fail 10 0 1
2 reply 7 2000 0 0 0
3 set 10 0 1
3 set 28 0 1
3 reply 7 0 1 1 1
end power 6 1 1
end proc 7 1 1
end proc 8 1 1
end power 10 1 1
end slave 28 1 1
end power 62 1 1
",
        &[(62, 1), (10, 1), (28, 1)],
    ),
    // nothing goes up in a domain that the device didn't take up
    (
        &[1, 2],
        "boot 7 0
ipi 7 13 33 1 0 2
ipi 7 3 33
",
        "0 fail 62 0 1
0 run 8 0
1 fail 62 0 1
1 run 7 0
2 set 62 0 1
2 set 6 0 1
2 set 7 0 1
2 set 8 0 1
2 set 33 0 1
2 reply 7 0 0 0 0
3 reply 7 0 1 1 1
end power 6 1 1
end proc 7 1 1
end proc 8 1 1
end slave 33 1 1
end power 62 1 1
",
        &[(62, 1), (6, 1), (7, 1), (8, 1), (33, 1)],
    ),
    // a domain stays up as long as a slave below it doesn't take the command to go down
    (
        &[7, 8],
        "boot 7 0
ipi 7 13 28 1 0 2
ipi 7 14 28
ipi 7 3 28
ipi 7 13 28 4 0 2
ipi 7 14 28
",
        "0 set 62 0 1
0 set 6 0 1
0 set 8 0 1
0 run 8 0
1 set 7 0 1
1 run 7 0
2 set 10 0 1
2 set 28 0 1
2 reply 7 0 0 0 0
3 fail 28 1 0
3 reply 7 2000 0 0 0
4 fail 28 1 0
4 reply 7 0 0 0 0
5 reply 7 0 0 0 0
6 set 28 1 0
6 set 10 1 0
6 reply 7 0 0 0 0
end power 6 1 1
end proc 7 1 1
end proc 8 1 1
end power 62 1 1
",
        &[(62, 1), (10, 0), (28, 0)],
    ),
    // a domain that doesn't take the command to go down serves the next request
    (
        &[8],
        "boot 7 0
ipi 7 13 28 1 0 2
ipi 7 14 28
ipi 7 13 28 1 0 2
ipi 7 14 28
",
        "0 set 62 0 1
0 set 6 0 1
0 set 8 0 1
0 run 8 0
1 set 7 0 1
1 run 7 0
2 set 10 0 1
2 set 28 0 1
2 reply 7 0 0 0 0
3 set 28 1 0
3 fail 10 1 0
3 reply 7 2000 0 0 0
4 set 28 0 1
4 reply 7 0 0 0 0
5 set 28 1 0
5 set 10 1 0
5 reply 7 0 0 0 0
end power 6 1 1
end proc 7 1 1
end proc 8 1 1
end power 62 1 1
",
        &[(62, 1), (10, 0), (28, 0)],
    ),
    // a domain doesn't take the command to go down, over a slave that never went up
    (
        &[6, 7],
        "boot 7 0
ipi 7 13 28 1 0 2
ipi 7 14 28
ipi 7 13 28 1 0 2",
        "0 set 62 0 1
0 set 6 0 1
0 set 8 0 1
0 run 8 0
1 set 7 0 1
1 run 7 0
2 set 10 0 1
2 fail 28 0 1
2 reply 7 2000 0 0 0
3 fail 10 1 0
3 reply 7 2000 0 0 0
4 set 28 0 1
4 reply 7 0 0 0 0
end power 6 1 1
end proc 7 1 1
end proc 8 1 1
end power 10 1 1
end slave 28 1 1
end power 62 1 1
",
        &[(62, 1), (10, 1), (28, 1)],
    ),
];

#[test]
fn what_fails_is_tried_again_in_each_step(rt: HostRuntime) -> Result<(), Fail> {
    for (failing, script, text, values) in &LISTED {
        let asked = replay_of(DOMAINS, script.as_bytes());
        check_listed(&rt, failing, &asked, text, values)?;
    }
    Ok(())
}
