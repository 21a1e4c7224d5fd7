//! Each reset line of the chip is released, asserted and pulsed while all processors run.

use crate::rows::all_right;
use pm_base::{LineId, Mode, NodeId, Unit};
use pm_core::{Book, Outbox};
use std::alloc::Global;
use std::test::Fail;
use test_books::{Case, Desk, Trigger, Want, event_of, settled, wrong_answer};

/// Masters 1, 7 and 8. These words are followed by a record for each of the numbers 0 to 70: the first master may
/// reset the line, if it is one.
static MASTERS: [u32; 22] = [
    2, 2, 1, 0x101, 3, 1, 0x1, 100, 0, 0, 7, 0x100, 100, 0, 0, 8, 0x200, 100, 0, 0, 0x105, 71,
];

static PROCS: [u32; 6] = [2, 3, 4, 5, 7, 8];

/// The numbers up to 70 that no line has, since they aren't those of a processor or a slave.
static NO_LINES: [u32; 7] = [0, 1, 6, 9, 10, 62, 70];

/// The book while all processors run.
fn busy(alloc: Global) -> Result<Box<Desk>, Fail> {
    let mut words = Vec::new(alloc);
    words.extend_from_slice(&MASTERS)?;
    for line in 0..71u32 {
        words.push(line)?;
        words.push(0x1)?;
    }
    let mut desk = settled(alloc, &words)?;
    for proc in &PROCS {
        desk.take(&event_of(Trigger::Boot(*proc, 0)));
    }
    Ok(desk)
}

/// An action on a line, and then: whether the processor with the line's number runs, if there is one; the value of
/// the line; and whether it is pulsed.
type Action = (u32, bool, u32, bool);

/// A line is released before it was ever asserted, asserted, asserted again, and released.
static ASSERTED: [Action; 4] = [
    (0, true, 0, false),
    (1, false, 1, false),
    (1, false, 1, false),
    (0, false, 0, false),
];

/// A line is pulsed; and again, while its processor is off; and released.
static PULSED: [Action; 3] = [
    (2, false, 0, true),
    (2, false, 0, true),
    (0, false, 0, false),
];

/// A line is asserted, and pulsed over that.
static PULSED_OVER_1: [Action; 2] = [(1, false, 1, false), (2, false, 0, true)];

/// All actions on a number that no line has.
static REFUSED: [u32; 4] = [0, 1, 2, 3];

fn is_off(book: &Book, proc: u32) -> bool {
    matches!(book.mode(NodeId(proc)), Mode::Off)
}

/// Whether all processors run, except the one with this number if it isn't to run.
fn procs_stand(book: &Book, line: u32, runs: bool) -> bool {
    for proc in &PROCS {
        if is_off(book, *proc) != (*proc == line && !runs) {
            return false;
        }
    }
    true
}

fn is_pulsed(out: &Outbox, line: u32) -> bool {
    match out.pulse {
        Some(pulse) => pulse.0 == line,
        None => false,
    }
}

/// Whether a call of the first master on a line gets another answer, with no words.
fn is_answered_otherwise(desk: &mut Desk, line: u32, action: u32, status: u32) -> bool {
    let case: Case = (1, 17, [line, action, 0, 0], Want::Reply(status, [0; 3]));
    wrong_answer(desk, &[case]).is_some()
}

/// Makes the actions one after another, and then starts the processor again.
fn wrong_action(desk: &mut Desk, line: u32, actions: &[Action]) -> bool {
    for (action, runs, value, pulsed) in actions {
        if is_answered_otherwise(desk, line, *action, 0)
            || !procs_stand(&desk.book, line, *runs)
            || desk.book.value(Unit::Line(LineId(line))) != *value
            || is_pulsed(&desk.out, line) != *pulsed
        {
            return true;
        }
    }
    desk.take(&event_of(Trigger::Boot(line, 0)));
    !procs_stand(&desk.book, line, true)
}

fn has_no_line(number: u32) -> bool {
    for other in &NO_LINES {
        if *other == number {
            return true;
        }
    }
    false
}

fn wrong_refusal(desk: &mut Desk, number: u32) -> bool {
    for action in &REFUSED {
        if is_answered_otherwise(desk, number, *action, 2003) {
            return true;
        }
    }
    !procs_stand(&desk.book, number, true)
}

/// Whether a line's number is wrong: a line isn't as it should be, or the number of none isn't refused.
fn is_wrong(desk: &mut Desk, number: u32) -> bool {
    if has_no_line(number) {
        return wrong_refusal(desk, number);
    }
    wrong_action(desk, number, &ASSERTED)
        || wrong_action(desk, number, &PULSED)
        || wrong_action(desk, number, &PULSED_OVER_1)
}

fn wrong_line(desk: &mut Desk) -> Option<usize> {
    for number in 0..71u32 {
        if is_wrong(desk, number) {
            return Some(number as usize);
        }
    }
    None
}

#[test]
fn each_line_stops_its_own_processor_and_no_other(rt: HostRuntime) -> Result<(), Fail> {
    let mut desk = busy(rt.alloc())?;
    all_right(&rt, wrong_line(&mut desk));
    Ok(())
}
