//! A list of events is stepped through in one call, and one by one.

use crate::both::{ASKED, Turn};
use crate::rows::all_right;
use crate::sides::{desk_of, writes};
use pm_base::{Event, List, NodeId, Unit, with};
use pm_core::{Book, Outbox};
use pm_laws::{quiet_event, run};
use pm_script::parse_line;
use std::alloc::Global;
use std::test::Fail;
use test_books::{Desk, SMALL_OBJECT, have_moved, object_of};

/// The quiet event of a line: nothing in place of a message of the master.
fn event_without(m: NodeId, line: &str) -> Result<Event, Fail> {
    let event = parse_line(line.as_bytes())?;
    let pass = Event::Pass;
    let is_left_out = *quiet_event(m, &event, &pass) == pass;
    Ok(if is_left_out { Event::Pass } else { event })
}

/// The quiet events of these lines.
fn events_without(alloc: Global, m: NodeId, turns: &[Turn]) -> Result<Vec<Event>, Fail> {
    let mut events = Vec::new(alloc);
    for (_, line, _, _) in turns {
        events.push(event_without(m, line)?)?;
    }
    Ok(events)
}

/// Steps through these events in one call.
fn run_at_once(desk: &mut Desk, events: &[Event]) {
    run(&mut desk.book, events, &mut desk.out);
}

/// The book from load, stepped through these events in one call.
fn run_of(alloc: Global, events: &[Event]) -> Result<Box<Desk>, Fail> {
    let object = Box::into_inner(object_of(alloc, SMALL_OBJECT)?);
    let mut desk = desk_of(alloc, object, List::new(alloc))?;
    run_at_once(&mut desk, events);
    Ok(desk)
}

/// The book from load, stepped through these events one by one.
fn steps_of(alloc: Global, events: &[Event]) -> Result<Box<Desk>, Fail> {
    let object = Box::into_inner(object_of(alloc, SMALL_OBJECT)?);
    let mut desk = desk_of(alloc, object, List::new(alloc))?;
    for event in events {
        desk.take(event);
    }
    Ok(desk)
}

/// Whether these nodes have these values and operating points.
fn are_valued(book: &Book, nodes: &[(u32, u32, u32)]) -> bool {
    for (number, value, point) in nodes {
        let node = NodeId(*number);
        if (book.value(Unit::Node(node)), book.point(node)) != (*value, *point) {
            return false;
        }
    }
    true
}

/// Whether each unit has one value in both books.
fn are_equal(one: &Book, other: &Book) -> bool {
    for k in 0..one.units() {
        let unit = one.unit(k);
        if one.value(unit) != other.value(unit) {
            return false;
        }
    }
    one.units() == other.units()
}

/// A row: the master that is left out, and the outputs of the last step. Node 9 is no master.
static ENDS: [(u32, &str); 2] = [
    (9, "9 run 2 0\n"),
    (8, "9 run 2 0\n9 call 1 31 8 2006 0 0\n"),
];

/// Nodes, their values and their operating points at the end.
static END: [(u32, u32, u32); 6] = [
    (2, 1, 1),
    (8, 0, 0),
    (46, 0, 0),
    (100, 1, 1),
    (107, 0, 0),
    (108, 1, 1),
];

/// The books after these events, at once and one by one.
fn desks_of(alloc: Global, events: &[Event]) -> Result<(Box<Desk>, Box<Desk>), Fail> {
    with(run_of(alloc, events)?, steps_of(alloc, events))
}

/// Whether the outputs of the last of nine steps are this text, in both outboxes.
fn both_write(alloc: Global, one: &Outbox, other: &Outbox, text: &str) -> Result<bool, Fail> {
    Ok(writes(alloc, 9, one, text)? && writes(alloc, 9, other, text)?)
}

/// Whether these events, in one call and one by one, have these outputs at their end, and leave equal books with the
/// values of `END`.
fn ends(alloc: Global, events: &[Event], text: &str) -> Result<bool, Fail> {
    let (at_once, by_steps) = desks_of(alloc, events)?;
    let are_told = both_write(alloc, &at_once.out, &by_steps.out, text);
    let are_kept = are_equal(&at_once.book, &by_steps.book) && are_valued(&at_once.book, &END);
    drop(at_once);
    drop(by_steps);
    Ok(are_told? && are_kept)
}

/// The index of the first wrong row.
fn wrong_end(alloc: Global) -> Result<Option<usize>, Fail> {
    for (place, (m, text)) in ENDS.iter().enumerate() {
        let events = events_without(alloc, NodeId(*m), &ASKED)?;
        if !ends(alloc, events.as_slice(), text)? {
            return Ok(Some(place));
        }
    }
    Ok(None)
}

#[test]
fn a_run_ends_as_its_steps_do(rt: HostRuntime) -> Result<(), Fail> {
    all_right(&rt, wrong_end(rt.alloc())?);
    Ok(())
}

/// A row: the number of lines that are run, and then the text in the outbox and the nodes that moved.
static KEPT: [(usize, &str, &[u32]); 2] = [
    (0, "0 run 2 0\n", &[2, 100]),
    (9, "0 run 2 0\n0 call 1 31 8 2006 0 0\n", &[2]),
];

/// Two equal books after these events.
fn same_desks(alloc: Global, events: &[Event]) -> Result<(Box<Desk>, Box<Desk>), Fail> {
    with(run_of(alloc, events)?, run_of(alloc, events))
}

/// Whether a run of no event, after these, leaves this text and these nodes in the outbox, and the book as it is.
fn keeps(alloc: Global, events: &[Event], text: &str, moved: &[u32]) -> Result<bool, Fail> {
    let (still, mut desk) = same_desks(alloc, events)?;
    run_at_once(&mut desk, &[]);
    let is_told = writes(alloc, 0, &desk.out, text);
    let is_kept = have_moved(&desk.out, moved) && are_equal(&desk.book, &still.book);
    drop(still);
    drop(desk);
    Ok(is_told? && is_kept)
}

/// The index of the first wrong row.
fn wrong_kept(alloc: Global, all: &[Event]) -> Result<Option<usize>, Fail> {
    for (place, (count, text, moved)) in KEPT.iter().enumerate() {
        let events = all.get(..*count).ok_or("too few")?;
        if !keeps(alloc, events, text, moved)? {
            return Ok(Some(place));
        }
    }
    Ok(None)
}

#[test]
fn a_run_of_no_event_changes_nothing(rt: HostRuntime) -> Result<(), Fail> {
    let all = events_without(rt.alloc(), NodeId(8), &ASKED)?;
    let wrong = wrong_kept(rt.alloc(), all.as_slice());
    drop(all);
    all_right(&rt, wrong?);
    Ok(())
}
