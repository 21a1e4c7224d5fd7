//! Rows of the usual object: three masters, each of which may use every slave. One starts, holds each slave, and
//! enables clocks.

use crate::checks::check;
use pm_base::Exit;
use std::test::Fail;
use test_fixtures::{USUAL, joined, replay_of};

/// The text of the load.
const LOADED: &str = "0 set 9 0 1
0 set 10 0 1
0 set 62 0 1
0 set 1 0 1
0 set 6 0 1
0 set 2 0 1
0 set 11 0 2
0 set 12 0 2
0 set 13 0 2
0 set 14 0 2
0 set 15 0 2
0 set 16 0 2
0 set 17 0 2
0 set 18 0 2
0 set 19 0 2
0 set 20 0 1
0 set 21 0 1
0 set 22 0 1
0 set 23 0 1
0 set 24 0 1
0 set 25 0 1
0 set 26 0 1
0 set 27 0 1
0 set 28 0 1
0 set 29 0 1
0 set 30 0 1
0 set 31 0 1
0 set 32 0 1
0 set 33 0 1
0 set 34 0 1
0 set 35 0 1
0 set 36 0 1
0 set 37 0 1
0 set 38 0 1
0 set 39 0 1
0 set 40 0 1
0 set 41 0 1
0 set 42 0 1
0 set 43 0 1
0 set 44 0 1
0 set 45 0 1
0 set 46 0 1
0 set 47 0 1
0 set 48 0 1
0 set 50 0 1
0 set 51 0 1
0 set 52 0 1
0 set 53 0 1
0 set 54 0 1
0 set 55 0 2
0 set 56 0 1
0 set 57 0 1
0 set 58 0 1
0 set 59 0 1
0 set 60 0 1
0 set 61 0 1
0 set 63 0 1
0 set 64 0 1
0 set 65 0 1
0 set 66 0 1
0 set 67 0 1
0 set 68 0 1
0 set 69 0 1
0 run 2 0
";

/// The closing table if each slave keeps its state.
const CLOSED: &str = "end power 1 1 1
end proc 2 1 1
end power 6 1 1
end power 9 1 1
end power 10 1 1
end slave 11 2 2
end slave 12 2 2
end slave 13 2 2
end slave 14 2 2
end slave 15 2 2
end slave 16 2 2
end slave 17 2 2
end slave 18 2 2
end slave 19 2 2
end slave 20 1 1
end slave 21 1 1
end slave 22 1 1
end slave 23 1 1
end slave 24 1 1
end slave 25 1 1
end slave 26 1 1
end slave 27 1 1
end slave 28 1 1
end slave 29 1 1
end slave 30 1 1
end slave 31 1 1
end slave 32 1 1
end slave 33 1 1
end slave 34 1 1
end slave 35 1 1
end slave 36 1 1
end slave 37 1 1
end slave 38 1 1
end slave 39 1 1
end slave 40 1 1
end slave 41 1 1
end slave 42 1 1
end slave 43 1 1
end slave 44 1 1
end slave 45 1 1
end slave 46 1 1
end slave 47 1 1
end slave 48 1 1
end slave 50 1 1
end slave 51 1 1
end slave 52 1 1
end slave 53 1 1
end slave 54 1 1
end slave 55 2 2
end slave 56 1 1
end slave 57 1 1
end slave 58 1 1
end slave 59 1 1
end slave 60 1 1
end slave 61 1 1
end power 62 1 1
end slave 63 1 1
end slave 64 1 1
end slave 65 1 1
end slave 66 1 1
end slave 67 1 1
end slave 68 1 1
end slave 69 1 1
";

/// The text of the last line of the third script, and its closing table: the master has finished its initialization.
const SETTLED: &str = "3 set 12 2 0
3 set 13 2 0
3 set 14 2 0
3 set 15 2 0
3 set 16 2 0
3 set 17 2 0
3 set 18 2 0
3 set 20 1 0
3 set 21 1 0
3 set 22 1 0
3 set 23 1 0
3 set 24 1 0
3 set 25 1 0
3 set 26 1 0
3 set 27 1 0
3 set 28 1 0
3 set 29 1 0
3 set 30 1 0
3 set 31 1 0
3 set 32 1 0
3 set 33 1 0
3 set 34 1 0
3 set 35 1 0
3 set 36 1 0
3 set 37 1 0
3 set 38 1 0
3 set 39 1 0
3 set 40 1 0
3 set 41 1 0
3 set 42 1 0
3 set 43 1 0
3 set 44 1 0
3 set 45 1 0
3 set 46 1 0
3 set 47 1 0
3 set 48 1 0
3 set 50 1 0
3 set 51 1 0
3 set 52 1 0
3 set 53 1 0
3 set 54 1 0
3 set 57 1 0
3 set 58 1 0
3 set 59 1 0
3 set 60 1 0
3 set 61 1 0
3 set 63 1 0
3 set 64 1 0
3 set 65 1 0
3 set 66 1 0
3 set 67 1 0
3 set 68 1 0
3 set 69 1 0
3 set 6 1 0
3 set 9 1 0
3 reply 1 0 0 0 0
3 clock 5 1 0
3 clock 14 1 0
end power 1 1 1
end proc 2 1 1
end power 10 1 1
end slave 11 2 2
end slave 19 2 2
end slave 55 2 2
end slave 56 1 1
end power 62 1 1
";

/// A row: a script, its text after the load's, and its closing lines.
static ROWS: [(&str, &str, &str); 3] = [
    // no line
    ("", "", CLOSED),
    // a clock is enabled, read, set beyond its range, and disabled; another is a root
    (
        "ipi 1 36 5
ipi 1 38 5
ipi 1 39 5 64
ipi 1 36 4
ipi 1 37 5
",
        "1 reply 1 0 0 0 0
1 clock 5 0 1
2 reply 1 0 1 0 0
3 reply 1 15 0 0 0
4 reply 1 2003 0 0 0
5 reply 1 0 0 0 0
5 clock 5 1 0
",
        CLOSED,
    ),
    // a clock that follows another runs once that does, and stops with the slaves by which it runs
    (
        "ipi 1 36 14
ipi 1 36 5
ipi 1 21
",
        "1 reply 1 0 0 0 0
2 reply 1 0 0 0 0
2 clock 5 0 1
2 clock 14 0 1
",
        SETTLED,
    ),
];

#[test]
fn the_usual_object_is_loaded_and_its_clocks_run(rt: HostRuntime) -> Result<(), Fail> {
    for (script, text, closing) in &ROWS {
        let whole = joined(rt.alloc(), &[LOADED, text, closing])?;
        let asked = replay_of(USUAL, script.as_bytes());
        check(&rt, &asked, &whole, Exit::Done)?;
    }
    Ok(())
}
