//! Runs over sinks that fail, stall, or take few bytes at a time.

ghost use Rattle.std.specs.Prelude.{[]};

use super::cases::{Case, check_cases, check_each_length};
use super::running::run;
use pm_base::{Exit, Failed};
use pm_io::Sink;
use std::alloc::Global;
use std::process::Abort;
use std::test::Fail;
use test_fixtures::{
    ALONE, Asked, LABORATORY, LABORATORY_LOADED, LABORATORY_SETTLED, OBJECT, STARTED, bytes_of,
    joined, replay_of,
};

const SMALL: &[u32] = &[3, 1, 1, 7, 0x101, 1, 1, 1, 100, 0, 0];

const SMALL_TEXT: &str = "header 7\nsection masters\nmaster 1 1 100 0 0\n";

const REPLAY: &str = "replay obj script";

/// A script, and the text of its run over the object of two masters.
const SCRIPT: &str = "ipi 1 21\nboot 7 0\nipi 7 13 11 2 0 2\nipi 8 3 11\n";

const TEXT: &str = "0 set 10 0 1
0 set 62 0 1
0 set 1 0 1
0 set 2 0 1
0 set 11 0 2
0 set 33 0 1
0 run 2 0
1 set 11 2 0
1 set 33 1 0
1 reply 1 0 0 0 0
2 set 6 0 1
2 set 7 0 1
2 run 7 0
3 set 11 0 1
3 reply 7 0 0 0 0
4 drop 8
end power 1 1 1
end proc 2 1 1
end power 6 1 1
end proc 7 1 1
end power 10 1 1
end slave 11 1 1
end power 62 1 1
";

/// The text of a script whose first line is dropped.
const DROPPED: &str = "0 set 62 0 1\n0 set 6 0 1\n0 set 7 0 1\n0 run 7 0\n1 drop 8\n";

static EXITS: [Case; 16] = [
    (REPLAY, OBJECT, SCRIPT, &[], TEXT, "", Exit::Done),
    ("print obj", SMALL, "", &[], SMALL_TEXT, "", Exit::Done),
    // words without a form
    (
        "replay obj",
        OBJECT,
        "",
        &[],
        "",
        "fault usage\n",
        Exit::Usage,
    ),
    // unreadable objects
    (
        REPLAY,
        &[2, 1],
        "",
        &[],
        "",
        "fault object 3 2\n",
        Exit::BadObject,
    ),
    (
        "print obj",
        &[2, 1],
        "",
        &[],
        "",
        "fault object 3 2\n",
        Exit::BadObject,
    ),
    // an unreadable text
    (
        "build script",
        &[],
        "header\nx\n",
        &[],
        "",
        "fault text 2 1\n",
        Exit::BadText,
    ),
    // a line that can't be read, at first and after a step
    (
        REPLAY,
        ALONE,
        "x",
        &[],
        STARTED,
        "fault line 1 1\n",
        Exit::BadLine,
    ),
    (
        REPLAY,
        ALONE,
        "ipi 8 3 11\nwfi x\nipi 8 3 11\n",
        &[],
        DROPPED,
        "fault line 2 2\n",
        Exit::BadLine,
    ),
    // inputs that aren't there or fail
    (
        "replay no script",
        OBJECT,
        "",
        &[],
        "",
        "fault read\n",
        Exit::ReadFault,
    ),
    (
        "replay obj no",
        OBJECT,
        "",
        &[],
        "",
        "fault read\n",
        Exit::ReadFault,
    ),
    (
        "print no",
        OBJECT,
        "",
        &[],
        "",
        "fault read\n",
        Exit::ReadFault,
    ),
    (
        "build no",
        OBJECT,
        "",
        &[],
        "",
        "fault read\n",
        Exit::ReadFault,
    ),
    (
        REPLAY,
        OBJECT,
        "",
        &[(0, 4)],
        "",
        "fault read\n",
        Exit::ReadFault,
    ),
    (
        REPLAY,
        ALONE,
        "",
        &[(1, 0)],
        STARTED,
        "fault read\n",
        Exit::ReadFault,
    ),
    (
        REPLAY,
        ALONE,
        "ipi 8 3 11\nipi 8 3 12",
        &[(1, 20)],
        DROPPED,
        "fault read\n",
        Exit::ReadFault,
    ),
    (
        "build script",
        &[],
        "header\n",
        &[(1, 7)],
        "",
        "fault read\n",
        Exit::ReadFault,
    ),
];

#[test]
fn a_sink_of_each_length_under_each_exit(rt: HostRuntime) -> Result<(), Fail> {
    check_cases(&rt, &EXITS)
}

#[test]
fn a_sink_of_each_length_under_an_object(rt: HostRuntime) -> Result<(), Fail> {
    let body = bytes_of(rt.alloc(), SMALL)?;
    let asked = Asked {
        words: "build script",
        object: &[],
        script: SMALL_TEXT.as_bytes(),
        failing: &[],
        topology: &[],
    };
    check_each_length(&rt, &asked, &body, "", Exit::Done)
}

/// The text of a line in which a serial port is requested, and the closing table.
const REQUESTED: &str = "2 set 33 0 1
2 reply 1 0 0 0 0
end power 1 1 1
end proc 2 1 1
end power 10 1 1
end slave 33 1 1
end power 62 1 1
";

#[test]
fn a_sink_of_each_length_under_several_lines(rt: HostRuntime) -> Result<(), Fail> {
    let text = [LABORATORY_LOADED, LABORATORY_SETTLED, REQUESTED];
    let text = joined(rt.alloc(), &text)?;
    let asked = replay_of(LABORATORY, b"ipi 1 21\nipi 1 13 33 1 0 2\n");
    check_each_length(&rt, &asked, &text, "", Exit::Done)
}

/// The ways in which a sink takes pieces.
#[derive(Clone, Copy)]
enum Way {
    /// It takes one byte of each piece.
    Trickles,
    /// Nothing.
    IsFull,
    /// It fails one write, after so many, and takes every other piece whole.
    FailsOnce(u32),
}

/// A sink that takes pieces in one of these ways. One that takes single bytes keeps them; one that takes whole pieces
/// counts their bytes.
#[derive(Drop)]
struct OddSink {
    way: Way,
    held: Vec<u8>,
    taken: usize,
    faults: u64,
    stalls: u64,
}

impl Sink for OddSink {
    ghost state = { λ sink. record { bytes = []; faults = sink.faults; stalls = sink.stalls } };

    fn write(&mut self, piece: &[u8]) -> Result<usize, Failed> {
        match (self.way, piece) {
            (Way::Trickles, [first, ..]) => match self.held.push(*first) {
                Ok(()) => Ok(1),
                Err(_) => {
                    self.faults = self.faults.saturating_add(1);
                    Err(Failed)
                }
            },
            (Way::Trickles, []) => Ok(0),
            (Way::IsFull, [_, ..]) => {
                self.stalls = self.stalls.saturating_add(1);
                Ok(0)
            }
            (Way::IsFull, []) => Ok(0),
            (Way::FailsOnce(before), _) => {
                if before == 0 && self.faults == 0 {
                    self.faults = 1;
                    return Err(Failed);
                }
                self.way = Way::FailsOnce(before.saturating_sub(1));
                self.taken = self.taken.saturating_add(piece.len());
                Ok(piece.len())
            }
        }
    }
}

/// Runs a script over a sink of one of these ways. Returns the sink and the exit.
fn run_odd(alloc: Global, way: Way) -> Result<(OddSink, Exit), Fail> {
    let mut sink = OddSink {
        way,
        held: Vec::new(alloc),
        taken: 0,
        faults: 0,
        stalls: 0,
    };
    let exit = run(alloc, &replay_of(OBJECT, SCRIPT.as_bytes()), &mut sink)?;
    Ok((sink, exit))
}

fn check_text(rt: &impl Abort, exit: Exit, text: &[u8]) {
    assert_eq!(rt; (exit, text), (Exit::Done, TEXT.as_bytes()));
}

#[test]
fn a_sink_that_takes_little_at_a_time(rt: HostRuntime) -> Result<(), Fail> {
    let (slow, exit) = run_odd(rt.alloc(), Way::Trickles)?;
    check_text(&rt, exit, &slow.held);
    Ok(())
}

fn check_stalls(rt: &impl Abort, exit: Exit, stalls: u64) {
    assert_eq!(rt; (exit, stalls), (Exit::WriteFault, 1));
}

#[test]
fn a_sink_that_takes_nothing(rt: HostRuntime) -> Result<(), Fail> {
    let (full, exit) = run_odd(rt.alloc(), Way::IsFull)?;
    check_stalls(&rt, exit, full.stalls);
    Ok(())
}

/// The number of bytes of `TEXT` that are taken before each write: the lines of a step are one write, and so is each
/// closing line.
static BEFORE: [usize; 12] = [0, 86, 130, 164, 195, 204, 220, 235, 251, 266, 283, 300];

fn check_taken(rt: &impl Abort, writes: u32, exit: Exit, found: usize, taken: usize) {
    assert_eq!(rt;
        (exit, found),
        (Exit::WriteFault, taken),
        "after {writes} writes"
    );
}

#[test]
fn a_sink_that_fails_once_and_then_takes_again(rt: HostRuntime) -> Result<(), Fail> {
    for (writes, taken) in (0..).zip(&BEFORE) {
        let (sink, exit) = run_odd(rt.alloc(), Way::FailsOnce(writes))?;
        check_taken(&rt, writes, exit, sink.taken, *taken);
    }
    Ok(())
}
