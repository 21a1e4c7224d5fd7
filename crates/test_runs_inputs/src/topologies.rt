//! Runs over the topology of a file.

use super::checks::check;
use super::running::run;
use pm_base::Exit;
use pm_io::MemSink;
use std::process::Abort;
use std::test::Fail;
use test_fixtures::{Asked, LABORATORY, SMALL, joined};

/// A chip of two power nodes, three processors and a slave.
const POWERS: &str = "power 62 none 1 20 3000\npower 1 62 0 30 500\n";

const PROCS: &str = "proc 2 1 300 400\nproc 7 62 100 200\nproc 8 62 100 200\n";

const SLAVE: &str = "slave 100 62\nstate 0 1000 0 0\nstate 1 0 1 5\nline 100 100\n";

const OWNERS: &str = "owner 1 2\nowner 6 7\nowner 7 7\n";

const LAST: &str = "owner 8 8\n";

const SCRIPT: &str = "ipi 1 21\n";

const TEXT: &str = "0 set 62 0 1
0 set 1 0 1
0 set 2 0 1
0 set 100 0 1
0 run 2 0
1 set 100 1 0
1 reply 1 0 0 0 0
end power 1 1 1
end proc 2 1 1
end power 62 1 1
";

const REACHED: &str = "master 1 self 1
slave 100 use 1
power 1 above 1
power 62 above 1
";

/// A script over the laboratory's object.
const MESSAGES: &str =
    "ipi 1 21\nipi 1 13 33 4 0 1\nipi 7 13 11 1 0 1\nipi 1 17 33 1\nipi 1 7 2 0 0 4096 0\nwfi 2\n";

const REPLAY: &str = "replay obj script topo";

/// A row: words, an object, the parts of the topology's text, the bytes at which reads fail, the text of the run and
/// its exit.
type Case = (
    &'static str,
    &'static [u32],
    &'static [&'static str],
    &'static [(u32, u32)],
    &'static str,
    Exit,
);

static CASES: [Case; 16] = [
    (
        REPLAY,
        SMALL,
        &[POWERS, PROCS, SLAVE, OWNERS, LAST],
        &[],
        TEXT,
        Exit::Done,
    ),
    (
        "reach obj 1 topo",
        SMALL,
        &[POWERS, PROCS, SLAVE, OWNERS, LAST],
        &[],
        REACHED,
        Exit::Done,
    ),
    // a master without an entry, and a parent that isn't there
    (
        REPLAY,
        SMALL,
        &[POWERS, PROCS, SLAVE, OWNERS],
        &[],
        "fault topology 8 3\n",
        Exit::BadText,
    ),
    (
        REPLAY,
        SMALL,
        &[
            POWERS,
            "proc 2 1 300 400\nproc 7 61 100 200\n",
            SLAVE,
            OWNERS,
            LAST,
        ],
        &[],
        "fault text 4 3\n",
        Exit::BadText,
    ),
    // a bad line, and one out of its place
    (
        REPLAY,
        SMALL,
        &["power 62\n"],
        &[],
        "fault text 1 1\n",
        Exit::BadText,
    ),
    (
        REPLAY,
        SMALL,
        &[LAST, POWERS],
        &[],
        "fault text 2 2\n",
        Exit::BadText,
    ),
    (
        "isolate obj script 1 topo",
        SMALL,
        &[],
        &[],
        "fault topology 8 0\n",
        Exit::BadText,
    ),
    // the object is judged first, then the topology, and then the word of a master
    (
        "reach obj x topo",
        &[2, 1],
        &["power 62\n"],
        &[],
        "fault object 3 2\n",
        Exit::BadObject,
    ),
    (
        "reach obj x topo",
        SMALL,
        &["power 62\n"],
        &[],
        "fault text 1 1\n",
        Exit::BadText,
    ),
    (
        "reach obj x topo",
        SMALL,
        &[POWERS, PROCS, SLAVE, OWNERS, LAST],
        &[],
        "fault node\n",
        Exit::BadText,
    ),
    // names that aren't there, and a byte at which a read fails
    (
        "reach no x topo",
        SMALL,
        &[],
        &[],
        "fault read\n",
        Exit::ReadFault,
    ),
    (
        "reach obj x no",
        SMALL,
        &[],
        &[],
        "fault read\n",
        Exit::ReadFault,
    ),
    (
        "replay obj no topo",
        SMALL,
        &[POWERS, PROCS, SLAVE, OWNERS],
        &[],
        "fault topology 8 3\n",
        Exit::BadText,
    ),
    (
        "replay obj no topo",
        SMALL,
        &[POWERS, PROCS, SLAVE, OWNERS, LAST],
        &[],
        "fault read\n",
        Exit::ReadFault,
    ),
    (
        REPLAY,
        SMALL,
        &[POWERS, PROCS],
        &[(2, 7)],
        "fault read\n",
        Exit::ReadFault,
    ),
    // too many words
    (
        "replay obj script topo topo",
        SMALL,
        &[],
        &[],
        "fault usage\n",
        Exit::Usage,
    ),
];

fn asked_of<'a>(case: &Case, topology: &'a [u8]) -> Asked<'a> {
    let (words, object, _, failing, _, _) = *case;
    Asked {
        words,
        object,
        script: SCRIPT.as_bytes(),
        failing,
        topology,
    }
}

fn check_case(
    rt: &(impl Abort + AllocGlobal),
    case: &Case,
    parts: &[&str],
    text: &str,
    exit: Exit,
) -> Result<(), Fail> {
    let topology = joined(rt.alloc(), parts)?;
    let asked = asked_of(case, topology.as_slice());
    check(rt, &asked, None, text.as_bytes(), exit)
}

/// The text of a run that ends with Done.
fn written_by(rt: &(impl Abort + AllocGlobal), asked: &Asked) -> Result<MemSink, Fail> {
    let mut out = MemSink::new(rt.alloc(), None)?;
    assert_eq!(rt; run(rt.alloc(), asked, &mut out)?, Exit::Done);
    Ok(out)
}

/// A run over a topology has its units. The faults of the topology come between those of the object and of the word
/// of a master.
#[test]
fn topologies_are_read(rt: HostRuntime) -> Result<(), Fail> {
    for case in &CASES {
        let (_, _, parts, _, text, exit) = *case;
        check_case(&rt, case, parts, text, exit)?;
    }
    Ok(())
}

/// The text of the chip's topology is read again as that topology: a run over it is a run over the chip.
#[test]
fn the_table_of_the_chip_is_read_again(rt: HostRuntime) -> Result<(), Fail> {
    let mut asked = Asked {
        words: "table",
        object: LABORATORY,
        script: MESSAGES.as_bytes(),
        failing: &[],
        topology: &[],
    };
    let table = written_by(&rt, &asked)?;
    asked.words = "replay obj script";
    let over_chip = written_by(&rt, &asked)?;
    asked.words = REPLAY;
    asked.topology = table.bytes();
    check(&rt, &asked, None, over_chip.bytes(), Exit::Done)
}
