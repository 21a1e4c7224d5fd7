//! Runs with calls on clocks: their replies, the lines of clocks that start or stop, and the closing lines of those
//! that run.

use super::checks::{check, check_broken_off, check_joined};
use pm_base::Exit;
use std::test::Fail;
use test_fixtures::{joined, replay_of};

/// Two masters. The first may use the slaves 24, 33, 53 and 54, and the second 33 alone; the second may force power node 1, which
/// has the first one's processors. 53 and 54 are the phase-locked loops of the clocks 3 and 4; 33 has clock 5, which takes 4 and
/// then 3, and 24 has clock 14, which takes 5 and then 4.
const CLOCKED: &[u32] = &[
    2, 3, 1, 0x101, 2, 1, 0x1, 100, 0, 0, 7, 0x100, 100, 0, 0, 0x102, 4, 24, 1, 0x1, 33, 1, 0x101,
    53, 1, 0x1, 54, 1, 0x1, 0x104, 1, 1, 0x100,
];

/// The text of its load, at which each slave is held in its last state.
const LOADED: &str = "0 set 10 0 1
0 set 62 0 1
0 set 1 0 1
0 set 2 0 1
0 set 24 0 1
0 set 33 0 1
0 set 53 0 1
0 set 54 0 1
0 run 2 0
";

/// The units' closing table of a run that leaves all so; also after `boot 7 0`.
const HELD: &str = "end power 1 1 1
end proc 2 1 1
end power 10 1 1
end slave 24 1 1
end slave 33 1 1
end slave 53 1 1
end slave 54 1 1
end power 62 1 1
";

const BOTH_HELD: &str = "end power 1 1 1
end proc 2 1 1
end power 6 1 1
end proc 7 1 1
end power 10 1 1
end slave 24 1 1
end slave 33 1 1
end slave 53 1 1
end slave 54 1 1
end power 62 1 1
";

/// A row: a script, its lines after the load's, the closing table of the units, and that of the clocks.
static RUNS: [(&str, &str, &str, &str); 9] = [
    // enable, state, a divider that is too large, a root that can't be enabled, disable
    (
        "ipi 1 36 5\nipi 1 38 5\nipi 1 39 5 64\nipi 1 36 4\nipi 1 37 5\n",
        "1 reply 1 0 0 0 0
1 clock 5 0 1
2 reply 1 0 1 0 0
3 reply 1 15 0 0 0
4 reply 1 2003 0 0 0
5 reply 1 0 0 0 0
5 clock 5 1 0
",
        HELD,
        "",
    ),
    // a clock below one that doesn't run yet starts with it; both stop if the phase-locked loop goes down
    (
        "ipi 1 36 14\nipi 1 36 5\nipi 1 21\n",
        "1 reply 1 0 0 0 0
2 reply 1 0 0 0 0
2 clock 5 0 1
2 clock 14 0 1
3 set 24 1 0
3 set 33 1 0
3 set 53 1 0
3 set 54 1 0
3 reply 1 0 0 0 0
3 clock 5 1 0
3 clock 14 1 0
",
        "end power 1 1 1\nend proc 2 1 1\nend power 10 1 1\nend power 62 1 1\n",
        "",
    ),
    // dividers and parents are told when asked, and are in the closing lines
    (
        "ipi 1 36 5\nipi 1 39 5 63\nipi 1 40 5\nipi 1 43 5 1\nipi 1 44 5\nipi 1 36 14\nipi 1 43 14 1\n",
        "1 reply 1 0 0 0 0
1 clock 5 0 1
2 reply 1 0 0 0 0
3 reply 1 0 63 0 0
4 reply 1 0 0 0 0
5 reply 1 0 1 0 0
6 reply 1 0 0 0 0
6 clock 14 0 1
7 reply 1 0 0 0 0
",
        HELD,
        "end clock 5 63 1\nend clock 14 1 1\n",
    ),
    // each refusal: another master enables it, no permission, no such parent, no such clock; roots may be asked
    // for their state
    (
        "boot 7 0\nipi 7 36 5\nipi 1 39 5 2\nipi 7 36 14\nipi 7 38 14\nipi 1 43 5 2\nipi 1 36 16\nipi 1 38 4\nipi 1 38 0\n",
        "1 set 6 0 1
1 set 7 0 1
1 run 7 0
2 reply 7 0 0 0 0
2 clock 5 0 1
3 reply 1 2007 7 0 0
4 reply 7 2002 0 0 0
5 reply 7 0 0 0 0
6 reply 1 15 0 0 0
7 reply 1 2003 0 0 0
8 reply 1 0 1 0 0
9 reply 1 0 0 0 0
",
        BOTH_HELD,
        "end clock 5 1 0\n",
    ),
    // the message of a master that is off is dropped; a clock that two masters enable runs on if one of them shuts
    // down
    (
        "ipi 7 36 5\nboot 7 0\nipi 7 36 5\nipi 1 36 5\nipi 7 12 0 0\nipi 1 37 5\n",
        "1 drop 7
2 set 6 0 1
2 set 7 0 1
2 run 7 0
3 reply 7 0 0 0 0
3 clock 5 0 1
4 reply 1 0 0 0 0
5 set 7 1 0
5 set 6 1 0
5 reply 7 0 0 0 0
6 reply 1 0 0 0 0
6 clock 5 1 0
",
        HELD,
        "",
    ),
    // a master that is forced off enables nothing any more, nor does it after it is started again
    (
        "boot 7 0\nipi 1 36 5\nipi 7 8 1 2\nboot 2 0\nipi 1 13 54 1 0 2\n",
        "1 set 6 0 1
1 set 7 0 1
1 run 7 0
2 reply 1 0 0 0 0
2 clock 5 0 1
3 set 2 1 0
3 set 24 1 0
3 set 33 1 0
3 set 53 1 0
3 set 54 1 0
3 set 1 1 0
3 set 10 1 0
3 reply 7 0 0 0 0
3 clock 5 1 0
4 set 10 0 1
4 set 1 0 1
4 set 2 0 1
4 run 2 0
5 set 54 0 1
5 reply 1 0 0 0 0
",
        "end power 1 1 1
end proc 2 1 1
end power 6 1 1
end proc 7 1 1
end power 10 1 1
end slave 54 1 1
end power 62 1 1
",
        "",
    ),
    // a master that is off and active again within a step keeps its enables
    (
        "ipi 1 36 5\nipi 1 12 1 0\nipi 1 13 54 1 0 2\n",
        "1 reply 1 0 0 0 0
1 clock 5 0 1
2 set 24 1 0
2 set 33 1 0
2 set 53 1 0
2 set 54 1 0
2 run 2 0
2 reply 1 0 0 0 0
2 clock 5 1 0
3 set 54 0 1
3 reply 1 0 0 0 0
3 clock 5 0 1
",
        "end power 1 1 1
end proc 2 1 1
end power 10 1 1
end slave 54 1 1
end power 62 1 1
",
        "end clock 5 1 0\n",
    ),
    // two calls in one line: a clock that started is told once, after both; one that is as before the line isn't
    // told
    (
        "boot 7 0\npost 1 36 5\npost 7 36 5\nserve\npost 1 37 5\npost 7 39 5 2\nserve\npost 1 36 5\npost 7 37 5\nserve\n",
        "1 set 6 0 1
1 set 7 0 1
1 run 7 0
4 reply 1 0 0 0 0
4 reply 7 0 0 0 0
4 clock 5 0 1
7 reply 1 0 0 0 0
7 reply 7 0 0 0 0
10 reply 1 0 0 0 0
10 reply 7 0 0 0 0
",
        BOTH_HELD,
        "end clock 5 2 0\n",
    ),
    // enabling an enabled clock, and disabling one that isn't, change nothing
    (
        "ipi 1 37 5\nipi 1 36 5\nipi 1 36 5\nipi 1 37 5\nipi 1 37 5\n",
        "1 reply 1 0 0 0 0
2 reply 1 0 0 0 0
2 clock 5 0 1
3 reply 1 0 0 0 0
4 reply 1 0 0 0 0
4 clock 5 1 0
5 reply 1 0 0 0 0
",
        HELD,
        "",
    ),
];

#[test]
fn clocks_follow_calls_and_slaves(rt: HostRuntime) -> Result<(), Fail> {
    for (script, lines, units, clocks) in &RUNS {
        let asked = replay_of(CLOCKED, script.as_bytes());
        check_joined(&rt, &asked, &[LOADED, *lines, *units, *clocks], Exit::Done)?;
    }
    Ok(())
}

#[test]
fn the_text_breaks_off_at_each_byte_of_the_lines_of_clocks(rt: HostRuntime) -> Result<(), Fail> {
    let asked = replay_of(CLOCKED, b"ipi 1 36 14\nipi 1 36 5\n");
    let told = "1 reply 1 0 0 0 0
2 reply 1 0 0 0 0
2 clock 5 0 1
2 clock 14 0 1
";
    let ends = "end clock 5 1 0\nend clock 14 1 0\n";
    let whole = joined(rt.alloc(), &[LOADED, told, HELD, ends])?;
    check(&rt, &asked, None, &whole, Exit::Done)?;
    let before = LOADED.len();
    for length in before..whole.len() {
        check_broken_off(&rt, &asked, length, &whole)?;
    }
    Ok(())
}
