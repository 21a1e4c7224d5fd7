//! Runs in which masters put messages into their boxes, and a later line serves them.

use super::checks::{check, check_broken_off, check_joined, check_pieces};
use super::steps::check_settled;
use pm_base::Exit;
use std::test::Fail;
use test_fixtures::{Asked, BOXES, BOXES_SETTLED, OBJECT, joined, replay_of};

/// A script over the laboratory's object and after its first line `ipi 1 21`, and its text after that line's.
static SERVED_RUNS: [(&str, &str); 5] = [
    // master 1, whose mask is less, is served first; a full box keeps its message; a message of no master is
    // dropped
    (
        "boot 7 0
post 7 13 39 1 0 2
post 1 13 39 1 0 2
post 1 1
serve
serve
post 8 1
",
        "2 set 6 0 1
2 set 7 0 1
2 run 7 0
5 busy 1
6 set 39 0 1
6 reply 1 0 0 0 0
6 reply 7 2007 1 0 0
8 drop 8
end power 1 1 1
end proc 2 1 1
end power 6 1 1
end proc 7 1 1
end power 10 1 1
end slave 39 1 1
end power 62 1 1
",
    ),
    // a master is switched off while its message waits
    (
        "boot 7 0\npost 1 1\nipi 7 8 10 2\nserve\n",
        "2 set 6 0 1
2 set 7 0 1
2 run 7 0
4 set 2 1 0
4 set 1 1 0
4 set 10 1 0
4 reply 7 0 0 0 0
5 drop 1
end power 6 1 1
end proc 7 1 1
end power 62 1 1
",
    ),
    // a master that is off fills its box, which is empty after its message was dropped
    (
        "post 7 13 39 1 0 2\nserve\nboot 7 0\nserve\n",
        "3 drop 7
4 set 6 0 1
4 set 7 0 1
4 run 7 0
end power 1 1 1
end proc 2 1 1
end power 6 1 1
end proc 7 1 1
end power 10 1 1
end power 62 1 1
",
    ),
    // a message that is sent goes past a full box
    (
        "post 1 13 33 1 0 2\nipi 1 14 33\nserve\n",
        "3 reply 1 2002 0 0 0
4 set 33 0 1
4 reply 1 0 0 0 0
end power 1 1 1
end proc 2 1 1
end power 10 1 1
end slave 33 1 1
end power 62 1 1
",
    ),
    // empty boxes are served
    (
        "serve\n",
        "end power 1 1 1
end proc 2 1 1
end power 10 1 1
end power 62 1 1
",
    ),
];

#[test]
fn each_run_with_messages_in_boxes_writes_its_text(rt: HostRuntime) -> Result<(), Fail> {
    check_settled(&rt, &SERVED_RUNS)
}

/// A script over the object of three masters and after its first line `ipi 1 21`, and its text after that line's. By
/// their masks master 7 comes first, then 8, and then 1.
static ORDERED_RUNS: [(&str, &str); 6] = [
    // the first message forces off the master whose message is served after it
    (
        "boot 7 0\npost 1 13 33 1 0 2\npost 7 8 10 2\nserve\n",
        "2 set 6 0 1
2 set 7 0 1
2 run 7 0
5 set 2 1 0
5 set 1 1 0
5 set 10 1 0
5 reply 7 0 0 0 0
5 drop 1
end power 6 1 1
end proc 7 1 1
end power 62 1 1
",
    ),
    // the first message restarts everything: a later master is off then, and the slave that another one used is
    // free again
    (
        "boot 7 0
boot 8 0
ipi 1 13 33 1 0 2
post 1 13 33 1 0 2
post 8 3 11
post 7 12 1 1
serve
serve
",
        "2 set 6 0 1
2 set 7 0 1
2 run 7 0
3 set 8 0 1
3 run 8 0
4 set 33 0 1
4 reply 1 0 0 0 0
8 set 7 1 0
8 set 8 1 0
8 set 11 0 2
8 set 6 1 0
8 run 2 0
8 reply 7 0 0 0 0
8 drop 8
8 reply 1 0 0 0 0
end power 1 1 1
end proc 2 1 1
end power 10 1 1
end slave 11 2 2
end slave 33 1 1
end power 62 1 1
",
    ),
    // after a halt, boxes keep their messages and can be filled, and are empty after they were served
    (
        "boot 7 0
post 1 1
ipi 7 12 0 1
post 7 1
serve
serve
post 8 1
post 8 1
",
        "2 set 6 0 1
2 set 7 0 1
2 run 7 0
4 set 2 1 0
4 set 7 1 0
4 set 6 1 0
4 set 1 1 0
4 set 10 1 0
4 reply 7 0 0 0 0
6 drop 7
6 drop 1
9 busy 8
end power 62 1 1
",
    ),
    // a master that went to sleep isn't heard; one that fills its box in its sleep is heard, if it is awake at the
    // `serve`
    (
        "boot 7 0
post 1 13 33 1 0 2
ipi 1 7 2 0 0 0 0
wfi 2
serve
post 1 13 33 1 0 2
gic 2
serve
",
        "2 set 6 0 1
2 set 7 0 1
2 run 7 0
4 reply 1 0 0 0 0
5 set 2 1 0
5 set 1 1 0
5 set 10 1 0
6 drop 1
8 set 10 0 1
8 set 1 0 1
8 set 2 0 1
8 run 2 0
9 set 33 0 1
9 reply 1 0 0 0 0
end power 1 1 1
end proc 2 1 1
end power 6 1 1
end proc 7 1 1
end power 10 1 1
end slave 33 1 1
end power 62 1 1
",
    ),
    // a configured master that is off has a box, and a node that is no configured master has none
    (
        "post 8 1\npost 9 1\nserve\nboot 8 0\npost 8 1\nserve\n",
        "3 drop 9
4 drop 8
5 set 6 0 1
5 set 8 0 1
5 run 8 0
7 reply 8 0 65537 0 0
end power 1 1 1
end proc 2 1 1
end power 6 1 1
end proc 8 1 1
end power 10 1 1
end power 62 1 1
",
    ),
    // a failed command is tried again after each served message, and before a full box is told
    (
        "boot 7 0
break 33
post 7 13 33 1 0 2
post 1 3 33
post 1 1
serve
post 1 1
post 1 1
mend 33
serve
",
        "2 set 6 0 1
2 set 7 0 1
2 run 7 0
6 busy 1
7 fail 33 0 1
7 reply 7 2000 0 0 0
7 fail 33 0 1
7 reply 1 0 1 0 2
8 fail 33 0 1
9 fail 33 0 1
9 busy 1
10 set 33 0 1
11 reply 1 0 65537 0 0
end power 1 1 1
end proc 2 1 1
end power 6 1 1
end proc 7 1 1
end power 10 1 1
end slave 33 1 1
end power 62 1 1
",
    ),
];

#[test]
fn each_message_is_served_on_what_the_one_before_left(rt: HostRuntime) -> Result<(), Fail> {
    for (lines, text) in &ORDERED_RUNS {
        check_pieces(&rt, BOXES, &["ipi 1 21\n", lines], &[BOXES_SETTLED, text])?;
    }
    Ok(())
}

/// The lines of a full box and of two served messages, and the text before and after them.
const BOOTED: &str = "2 set 6 0 1\n2 set 7 0 1\n2 run 7 0\n";

const SERVED: &str = "5 busy 7
6 set 11 0 2
6 reply 7 0 0 0 0
6 set 33 0 1
6 reply 1 0 0 0 0
";

const CLOSED: &str = "7 drop 9
end power 1 1 1
end proc 2 1 1
end power 6 1 1
end proc 7 1 1
end power 10 1 1
end slave 11 2 2
end slave 33 1 1
end power 62 1 1
";

#[test]
fn the_text_breaks_off_at_each_byte_of_messages_in_boxes(rt: HostRuntime) -> Result<(), Fail> {
    let script = "ipi 1 21
boot 7 0
post 1 13 33 1 0 2
post 7 13 11 1 0 2
post 7 1
serve
ipi 9 1
";
    let asked = replay_of(BOXES, script.as_bytes());
    let whole = joined(rt.alloc(), &[BOXES_SETTLED, BOOTED, SERVED, CLOSED])?;
    check(&rt, &asked, None, &whole, Exit::Done)?;
    let before = joined(rt.alloc(), &[BOXES_SETTLED, BOOTED])?.len();
    for length in before..before.saturating_add(SERVED.len()) {
        check_broken_off(&rt, &asked, length, &whole)?;
    }
    Ok(())
}

/// The reach of master 7 over the object of two masters; a script in which both put a message into their boxes; and
/// the difference without those of master 7: the slave that it uses.
const REACH: &str = "master 7 self 7
slave 11 use 7
power 6 above 7
power 62 above 7
";

static COMPARED: [(&str, &str); 2] = [
    (
        "ipi 1 21\nboot 7 0\npost 7 13 11 1 0 2\npost 1 13 33 1 0 2\nserve\n",
        "differ slave 11\nsteps 5\n",
    ),
    // the slave moves in another line
    (
        "ipi 1 21\nboot 7 0\nipi 7 13 11 1 0 2\npost 7 14 11\npost 1 13 11 1 0 2\nserve\n",
        "differ slave 11\nsteps 6\n",
    ),
];

#[test]
fn what_a_message_in_a_box_changes_is_found(rt: HostRuntime) -> Result<(), Fail> {
    for (script, found) in &COMPARED {
        let asked = Asked {
            words: "isolate obj script 7",
            object: OBJECT,
            script: script.as_bytes(),
            failing: &[],
            topology: &[],
        };
        check_joined(&rt, &asked, &[REACH, found], Exit::Done)?;
    }
    Ok(())
}
