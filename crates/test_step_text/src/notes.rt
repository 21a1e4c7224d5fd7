//! The lines of a script line's own notes.

use crate::rows::all_right;
use pm_base::NodeId;
use pm_trace::{TextLine, busy_line, call_line, no_task_line, task_line};

/// A row: the number of a script line, the master whose box is full, and the line.
static BUSY: [(u32, u32, &str); 3] = [
    (5, 1, "5 busy 1\n"),
    (0, 7, "0 busy 7\n"),
    (u32::MAX, u32::MAX, "4294967295 busy 4294967295\n"),
];

/// The index of the first wrong row.
fn wrong_busy() -> Option<usize> {
    let mut line = TextLine::new();
    for (place, (n, master, text)) in BUSY.iter().enumerate() {
        busy_line(*n, NodeId(*master), &mut line);
        if line.as_slice() != text.as_bytes() {
            return Some(place);
        }
    }
    None
}

#[test]
fn a_full_box_is_told_in_a_line(rt: HostRuntime) {
    all_right(&rt, wrong_busy());
}

/// A row: the number of a script line, the processor whose power call is answered, the answer, and the line.
static CALLED: [(u32, u32, i32, &str); 6] = [
    (2, 2, 0, "2 smc 2 0\n"),
    (5, 2, 1, "5 smc 2 1\n"),
    (0, 7, -3, "0 smc 7 -3\n"),
    (10, 3, -10, "10 smc 3 -10\n"),
    (
        u32::MAX,
        u32::MAX,
        i32::MIN,
        "4294967295 smc 4294967295 -2147483648\n",
    ),
    (1, 2, i32::MAX, "1 smc 2 2147483647\n"),
];

/// The index of the first wrong row.
fn wrong_call() -> Option<usize> {
    let mut line = TextLine::new();
    for (place, (n, proc, code, text)) in CALLED.iter().enumerate() {
        call_line(*n, NodeId(*proc), *code, &mut line);
        if line.as_slice() != text.as_bytes() {
            return Some(place);
        }
    }
    None
}

#[test]
fn the_answer_to_a_power_call_is_told_in_a_line(rt: HostRuntime) {
    all_right(&rt, wrong_call());
}

/// A row: the number of a script line, the key of the missing task, and the line.
static NO_TASK: [(u32, u32, &str); 3] = [
    (9, 0, "9 notask 0\n"),
    (0, 1, "0 notask 1\n"),
    (u32::MAX, u32::MAX, "4294967295 notask 4294967295\n"),
];

/// The index of the first wrong row.
fn wrong_no_task() -> Option<usize> {
    let mut line = TextLine::new();
    for (place, (n, key, text)) in NO_TASK.iter().enumerate() {
        no_task_line(*n, *key, &mut line);
        if line.as_slice() != text.as_bytes() {
            return Some(place);
        }
    }
    None
}

#[test]
fn a_missing_task_is_told_in_a_line(rt: HostRuntime) {
    all_right(&rt, wrong_no_task());
}

/// A row: the number of a script line, the key of the task that is called, the time, the word that it returns, and
/// the line.
static FIRED: [(u32, u64, u64, u32, &str); 4] = [
    (4, 0, 100, 1, "4 task 0 100 1\n"),
    (5, 0, 350, 2, "5 task 0 350 2\n"),
    (0, 1, 0, 0, "0 task 1 0 0\n"),
    (
        u32::MAX,
        u64::MAX,
        u64::MAX - 1,
        u32::MAX,
        "4294967295 task 18446744073709551615 18446744073709551614 4294967295\n",
    ),
];

/// The index of the first wrong row.
fn wrong_fired() -> Option<usize> {
    let mut line = TextLine::new();
    for (place, (n, key, at, told, text)) in FIRED.iter().enumerate() {
        task_line(*n, *key, *at, *told, &mut line);
        if line.as_slice() != text.as_bytes() {
            return Some(place);
        }
    }
    None
}

#[test]
fn the_call_of_a_task_is_told_in_a_line(rt: HostRuntime) {
    all_right(&rt, wrong_fired());
}
