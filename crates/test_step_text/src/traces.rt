//! The lines of output of a step.

use crate::rows::all_right;
use pm_base::{BoundedList, Command, LineId, NoMemory, NodeId, Unit};
use pm_core::{Answer, Done, Outbox, Start};
use pm_ipi::Response;
use pm_trace::{TextLine, entries, entry};
use std::alloc::Global;
use std::test::Fail;

/// An outbox of a step with at most one command and one start, and with room for two late replies and two callbacks.
pub(crate) fn outbox(
    alloc: Global,
    done: Option<Done>,
    start: Option<Start>,
    answer: Answer,
) -> Result<Outbox, NoMemory> {
    let mut commands = BoundedList::with_room(alloc, 1)?;
    if let Some(done) = done {
        commands.push(done);
    }
    let mut starts = BoundedList::with_room(alloc, 1)?;
    if let Some(start) = start {
        starts.push(start);
    }
    Ok(Outbox {
        moved: BoundedList::with_room(alloc, 0)?,
        turned: false,
        pulse: None,
        done: commands,
        starts,
        late: BoundedList::with_room(alloc, 2)?,
        callbacks: BoundedList::with_room(alloc, 2)?,
        answer,
    })
}

/// The lines of a step with this number.
pub(crate) fn text_of(alloc: Global, n: u32, out: &Outbox) -> Result<Vec<u8>, Fail> {
    let mut text = Vec::new(alloc);
    let mut line = TextLine::new();
    for k in 0..entries(out, &out.answer) {
        entry(n, out, &out.answer, k, &mut line);
        text.extend_from_slice(line.as_slice())?;
    }
    Ok(text)
}

/// A row: the number of a step, its answer, and its lines without any command. The last line is the longest.
static ANSWERS: [(u32, Answer, &str); 6] = [
    (1, Answer::Silent, ""),
    (6, Answer::Drop { master: NodeId(8) }, "6 drop 8\n"),
    (
        3,
        Answer::Reply {
            master: NodeId(1),
            response: Response {
                status: 0,
                words: [2, 1, 3],
            },
        },
        "3 reply 1 0 2 1 3\n",
    ),
    (
        10,
        Answer::Ack {
            master: NodeId(1),
            node: NodeId(33),
            status: 19,
            point: 9,
            shown: true,
        },
        "10 call 1 31 33 19 9 0\n",
    ),
    (
        10,
        Answer::Ack {
            master: NodeId(1),
            node: NodeId(33),
            status: 19,
            point: 9,
            shown: false,
        },
        "",
    ),
    (
        4_294_967_295,
        Answer::Ack {
            master: NodeId(4_294_967_295),
            node: NodeId(4_294_967_295),
            status: 4_294_967_295,
            point: 4_294_967_295,
            shown: true,
        },
        "4294967295 call 4294967295 31 4294967295 4294967295 4294967295 0\n",
    ),
];

/// Whether the lines of a step are this text.
fn writes(
    alloc: Global,
    n: u32,
    done: Option<Done>,
    start: Option<Start>,
    answer: Answer,
    text: &str,
) -> Result<bool, Fail> {
    let out = outbox(alloc, done, start, answer)?;
    Ok(text_of(alloc, n, &out)?.as_slice() == text.as_bytes())
}

fn wrong_answer(alloc: Global) -> Result<Option<usize>, Fail> {
    for (place, (n, answer, text)) in ANSWERS.iter().enumerate() {
        if !writes(alloc, *n, None, None, *answer, text)? {
            return Ok(Some(place));
        }
    }
    Ok(None)
}

#[test]
fn each_answer_is_its_line(rt: HostRuntime) -> Result<(), Fail> {
    all_right(&rt, wrong_answer(rt.alloc())?);
    Ok(())
}

pub(crate) const DROP: Answer = Answer::Drop { master: NodeId(8) };

/// A row: the number of a step; its command with the unit, the value before, the commanded value and whether it was
/// taken; its answer; and its lines.
static COMMANDS: [(u32, Unit, u32, u32, bool, Answer, &str); 7] = [
    (
        0,
        Unit::Node(NodeId(10)),
        0,
        1,
        true,
        DROP,
        "0 set 10 0 1\n0 drop 8\n",
    ),
    (
        5,
        Unit::Node(NodeId(10)),
        1,
        0,
        true,
        DROP,
        "5 set 10 1 0\n5 drop 8\n",
    ),
    (
        16_777_216,
        Unit::Node(NodeId(10)),
        2,
        1,
        true,
        DROP,
        "16777216 set 10 2 1\n16777216 drop 8\n",
    ),
    (
        5,
        Unit::Node(NodeId(10)),
        0,
        1,
        false,
        DROP,
        "5 fail 10 0 1\n5 drop 8\n",
    ),
    (
        2,
        Unit::Line(LineId(33)),
        0,
        1,
        true,
        DROP,
        "2 line 33 0 1\n2 drop 8\n",
    ),
    (
        2,
        Unit::Line(LineId(33)),
        1,
        0,
        false,
        DROP,
        "2 linefail 33 1 0\n2 drop 8\n",
    ),
    (
        5,
        Unit::Node(NodeId(10)),
        1,
        0,
        true,
        Answer::Silent,
        "5 set 10 1 0\n",
    ),
];

fn wrong_command(alloc: Global) -> Result<Option<usize>, Fail> {
    for (place, (n, unit, from, value, ok, answer, text)) in COMMANDS.iter().enumerate() {
        let command = Command {
            unit: *unit,
            value: *value,
        };
        let done = Done {
            command,
            from: *from,
            ok: *ok,
        };
        if !writes(alloc, *n, Some(done), None, *answer, text)? {
            return Ok(Some(place));
        }
    }
    Ok(None)
}

#[test]
fn each_command_is_its_line_before_the_answer(rt: HostRuntime) -> Result<(), Fail> {
    all_right(&rt, wrong_command(rt.alloc())?);
    Ok(())
}

/// A row: the number of a step, the processor that starts, its address, and the line. The last line is the longest.
static STARTS: [(u32, u32, u64, &str); 3] = [
    (0, 2, 0, "0 run 2 0\n"),
    (4, 7, 4096, "4 run 7 4096\n"),
    (
        4_294_967_295,
        4_294_967_295,
        18_446_744_073_709_551_615,
        "4294967295 run 4294967295 18446744073709551615\n",
    ),
];

fn wrong_start(alloc: Global) -> Result<Option<usize>, Fail> {
    for (place, (n, proc, address, text)) in STARTS.iter().enumerate() {
        let start = Start {
            proc: NodeId(*proc),
            address: *address,
        };
        if !writes(alloc, *n, None, Some(start), Answer::Silent, text)? {
            return Ok(Some(place));
        }
    }
    Ok(None)
}

#[test]
fn each_start_is_its_line(rt: HostRuntime) -> Result<(), Fail> {
    all_right(&rt, wrong_start(rt.alloc())?);
    Ok(())
}

pub(crate) const COMMAND: Done = Done {
    command: Command {
        unit: Unit::Node(NodeId(7)),
        value: 1,
    },
    from: 0,
    ok: true,
};

pub(crate) const START: Start = Start {
    proc: NodeId(7),
    address: 16,
};

#[test]
fn a_start_stands_between_the_commands_and_the_answer(rt: HostRuntime) -> Result<(), Fail> {
    let text = "3 set 7 0 1\n3 run 7 16\n3 drop 8\n";
    assert!(rt; writes(rt.alloc(), 3, Some(COMMAND), Some(START), DROP, text)?);
    Ok(())
}
