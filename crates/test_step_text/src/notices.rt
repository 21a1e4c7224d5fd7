//! The lines of late replies and callbacks.

use crate::rows::all_right;
use crate::traces::{COMMAND, DROP, START, outbox, text_of};
use pm_base::{BoundedList, NoMemory, NodeId};
use pm_core::{Answer, Callback, Late, Outbox};
use pm_trace::{TextLine, entries, entry};
use std::alloc::Global;
use std::test::Fail;

const LATE: Late = Late {
    master: NodeId(1),
    status: 2006,
};

const GREATEST: u32 = u32::MAX;

/// A callback whose words are all of the greatest length.
const CALLBACK: Callback = Callback {
    master: NodeId(GREATEST),
    id: GREATEST,
    args: [GREATEST; 4],
};

/// A row: the number of a step, its late replies and callbacks (it has no other output), and the lines.
static NOTICES: [(u32, Option<Late>, Option<Callback>, &str); 4] = [
    (6, Some(LATE), None, "6 reply 1 2006 0 0 0\n"),
    (
        3,
        None,
        Some(Callback {
            master: NodeId(7),
            id: 30,
            args: [201, 50, 0, 100],
        }),
        "3 call 7 30 201 50 0 100\n",
    ),
    (
        GREATEST,
        None,
        Some(CALLBACK),
        "4294967295 call 4294967295 4294967295 4294967295 4294967295 4294967295 4294967295\n",
    ),
    (
        GREATEST,
        Some(Late {
            master: NodeId(GREATEST),
            status: GREATEST,
        }),
        None,
        "4294967295 reply 4294967295 4294967295 0 0 0\n",
    ),
];

/// Whether the lines of a step with only these notices are this text.
fn tells(
    alloc: Global,
    n: u32,
    late: Option<Late>,
    callback: Option<Callback>,
    text: &str,
) -> Result<bool, Fail> {
    let mut out = outbox(alloc, None, None, Answer::Silent)?;
    out.late = list_of(alloc, late)?;
    out.callbacks = list_of(alloc, callback)?;
    Ok(text_of(alloc, n, &out)?.as_slice() == text.as_bytes())
}

/// A list of one element or none.
fn list_of<T: Copy + Drop>(alloc: Global, item: Option<T>) -> Result<BoundedList<T>, NoMemory> {
    let mut list = BoundedList::with_room(alloc, 1)?;
    if let Some(item) = item {
        list.push(item);
    }
    Ok(list)
}

fn wrong_notice(alloc: Global) -> Result<Option<usize>, Fail> {
    for (place, (n, late, callback, text)) in NOTICES.iter().enumerate() {
        if !tells(alloc, *n, *late, *callback, text)? {
            return Ok(Some(place));
        }
    }
    Ok(None)
}

#[test]
fn each_late_reply_and_each_callback_is_its_line(rt: HostRuntime) -> Result<(), Fail> {
    all_right(&rt, wrong_notice(rt.alloc())?);
    Ok(())
}

/// Two late replies.
fn replies(alloc: Global) -> Result<BoundedList<Late>, NoMemory> {
    let mut late = BoundedList::with_room(alloc, 2)?;
    late.push(LATE);
    late.push(Late {
        master: NodeId(7),
        status: 0,
    });
    Ok(late)
}

/// Two callbacks: a master is told that its request has ended, and another is asked to suspend.
fn callbacks(alloc: Global) -> Result<BoundedList<Callback>, NoMemory> {
    let mut calls = BoundedList::with_room(alloc, 2)?;
    calls.push(Callback {
        master: NodeId(1),
        id: 31,
        args: [7, 2005, 1, 0],
    });
    calls.push(Callback {
        master: NodeId(7),
        id: 30,
        args: [201, 50, 0, 100],
    });
    Ok(calls)
}

/// The lines of a step with every kind of output.
static LINES: [&str; 7] = [
    "3 set 7 0 1\n",
    "3 run 7 16\n",
    "3 reply 1 2006 0 0 0\n",
    "3 reply 7 0 0 0 0\n",
    "3 call 1 31 7 2005 1 0\n",
    "3 call 7 30 201 50 0 100\n",
    "3 drop 8\n",
];

/// The index of the first of those lines that a step doesn't have there.
fn wrong_line(out: &Outbox) -> Option<usize> {
    let mut line = TextLine::new();
    for (k, text) in LINES.iter().enumerate() {
        if k >= entries(out, &out.answer) {
            return Some(k);
        }
        entry(3, out, &out.answer, k, &mut line);
        if line.as_slice() != text.as_bytes() {
            return Some(k);
        }
    }
    None
}

#[test]
fn late_replies_and_callbacks_stand_between_the_starts_and_the_answer(
    rt: HostRuntime,
) -> Result<(), Fail> {
    let mut out = outbox(rt.alloc(), Some(COMMAND), Some(START), DROP)?;
    out.late = replies(rt.alloc())?;
    out.callbacks = callbacks(rt.alloc())?;
    assert_eq!(rt; entries(&out, &out.answer), 7);
    all_right(&rt, wrong_line(&out));
    Ok(())
}
