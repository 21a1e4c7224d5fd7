//! Notifiers, and the notes that wait for a master.

use crate::chip::chip;
use crate::rows::{all_right, boxed, same};
use pm_base::NodeId;
use pm_notify::{NodeEvent, Note, Notify, Waiting};
use std::alloc::Global;
use std::test::Fail;

const CHANGE: NodeEvent = NodeEvent::Change;

const ZERO_USERS: NodeEvent = NodeEvent::ZeroUsers;

/// An act on the notifiers and slots of three masters, with the expected outcome.
enum Action {
    /// Sets or removes the notifier of a master for an event of a node.
    Put(usize, u32, NodeEvent, bool),
    /// Whether a master has a notifier for an event of a node.
    Asked(usize, u32, NodeEvent, bool),
    /// A note waits for a master about a node.
    Wait(usize, u32, Note),
    /// A master takes its next note, which is this one.
    Takes(usize, u32, Note),
    /// Nothing waits for a master.
    Empty(usize),
    /// A master's notes are cleared.
    Clear(usize),
    /// All notifiers are dropped at once.
    Forget,
}

/// Notifiers: each is set and removed by itself, and removed with its master's.
static NOTIFIERS: [Action; 29] = [
    Action::Asked(0, 11, CHANGE, false),
    Action::Put(0, 11, CHANGE, true),
    Action::Asked(0, 11, CHANGE, true),
    Action::Asked(0, 11, ZERO_USERS, false),
    Action::Asked(1, 11, CHANGE, false),
    Action::Asked(0, 12, CHANGE, false),
    Action::Put(0, 11, CHANGE, true),
    Action::Put(0, 10, ZERO_USERS, true),
    Action::Put(2, 11, ZERO_USERS, true),
    Action::Asked(0, 10, ZERO_USERS, true),
    Action::Asked(0, 10, CHANGE, false),
    Action::Asked(2, 11, ZERO_USERS, true),
    Action::Asked(2, 11, CHANGE, false),
    Action::Put(0, 11, CHANGE, false),
    Action::Asked(0, 11, CHANGE, false),
    Action::Asked(0, 10, ZERO_USERS, true),
    Action::Put(0, 62, CHANGE, true),
    // the chip has no node 1000, and there is no fourth master
    Action::Put(0, 1000, CHANGE, true),
    Action::Asked(0, 1000, CHANGE, false),
    Action::Put(3, 11, CHANGE, true),
    Action::Asked(3, 11, CHANGE, false),
    Action::Clear(3),
    Action::Asked(0, 62, CHANGE, true),
    Action::Clear(0),
    Action::Asked(0, 62, CHANGE, false),
    Action::Asked(0, 10, ZERO_USERS, false),
    Action::Asked(2, 11, ZERO_USERS, true),
    Action::Put(0, 62, CHANGE, true),
    Action::Asked(0, 62, CHANGE, true),
];

/// Notes are taken by the number of their node and then by their kind: power node 1 comes before processor 2 and
/// slave 11, though the chip's tables have them in another order.
static ORDER: [Action; 22] = [
    Action::Empty(1),
    Action::Wait(1, 33, Note::Change),
    Action::Wait(1, 11, Note::ZeroUsers),
    Action::Wait(1, 62, Note::Ack { status: 0 }),
    Action::Wait(1, 11, Note::Ack { status: 2005 }),
    Action::Wait(1, 2, Note::Change),
    Action::Wait(1, 11, Note::Change),
    Action::Wait(1, 1, Note::Ack { status: 15 }),
    Action::Wait(1, 10, Note::Change),
    Action::Empty(0),
    Action::Empty(2),
    Action::Takes(1, 1, Note::Ack { status: 15 }),
    Action::Takes(1, 2, Note::Change),
    Action::Takes(1, 10, Note::Change),
    Action::Takes(1, 11, Note::Ack { status: 2005 }),
    Action::Takes(1, 11, Note::Change),
    // a note that comes while others are taken is in its place
    Action::Wait(1, 1, Note::ZeroUsers),
    Action::Takes(1, 1, Note::ZeroUsers),
    Action::Takes(1, 11, Note::ZeroUsers),
    Action::Takes(1, 33, Note::Change),
    Action::Takes(1, 62, Note::Ack { status: 0 }),
    Action::Empty(1),
];

/// One slot for each master, node and kind: the last note counts, and no other slot is touched.
static SLOTS: [Action; 36] = [
    Action::Wait(0, 33, Note::Ack { status: 0 }),
    Action::Wait(0, 33, Note::Ack { status: 2006 }),
    Action::Wait(2, 33, Note::Ack { status: 19 }),
    Action::Takes(0, 33, Note::Ack { status: 2006 }),
    Action::Empty(0),
    Action::Takes(2, 33, Note::Ack { status: 19 }),
    Action::Empty(2),
    Action::Wait(0, 33, Note::Change),
    Action::Wait(0, 33, Note::Change),
    Action::Wait(0, 33, Note::ZeroUsers),
    Action::Takes(0, 33, Note::Change),
    Action::Takes(0, 33, Note::ZeroUsers),
    Action::Empty(0),
    // nothing waits about a node that the chip doesn't have, nor for a master that isn't there
    Action::Wait(0, 1000, Note::Ack { status: 2003 }),
    Action::Wait(3, 33, Note::Change),
    Action::Empty(0),
    Action::Empty(3),
    // notifiers stay when notes are taken, and a cleared master loses both
    Action::Put(1, 33, CHANGE, true),
    Action::Wait(1, 33, Note::Change),
    Action::Wait(2, 33, Note::Change),
    Action::Takes(1, 33, Note::Change),
    Action::Asked(1, 33, CHANGE, true),
    Action::Wait(1, 11, Note::ZeroUsers),
    Action::Clear(1),
    Action::Empty(1),
    Action::Takes(2, 33, Note::Change),
    // all notifiers are dropped at once, and what waits stays
    Action::Put(0, 33, CHANGE, true),
    Action::Put(2, 11, CHANGE, true),
    Action::Wait(2, 11, Note::Ack { status: 0 }),
    Action::Wait(2, 33, Note::Change),
    Action::Forget,
    Action::Asked(0, 33, CHANGE, false),
    Action::Asked(2, 11, CHANGE, false),
    Action::Takes(2, 11, Note::Ack { status: 0 }),
    Action::Takes(2, 33, Note::Change),
    Action::Empty(2),
];

fn is_taken(taken: Option<Waiting>, node: u32, note: Note) -> bool {
    match taken {
        Some(waiting) => waiting.node.0 == node && waiting.note == note,
        None => false,
    }
}

/// Does the act of a row. Returns whether the outcome is as expected.
fn is_right(notify: &mut Notify, action: &Action) -> bool {
    match action {
        Action::Put(master, node, event, on) => {
            notify.put(*master, NodeId(*node), *event, *on);
            true
        }
        Action::Asked(master, node, event, on) => {
            notify.asked(*master, NodeId(*node), *event) == *on
        }
        Action::Wait(master, node, note) => {
            notify.wait(*master, NodeId(*node), *note);
            true
        }
        Action::Takes(master, node, note) => is_taken(notify.take(*master), *node, *note),
        Action::Empty(master) => notify.take(*master).is_none(),
        Action::Clear(master) => {
            notify.clear(*master);
            true
        }
        Action::Forget => {
            notify.forget();
            true
        }
    }
}

/// The index of the first row with another outcome.
fn wrong_action(notify: &mut Notify, actions: &[Action]) -> Option<usize> {
    for (place, action) in actions.iter().enumerate() {
        if !is_right(notify, action) {
            return Some(place);
        }
    }
    None
}

/// Empty notifiers and slots for three masters of the chip.
fn notifiers(alloc: Global) -> Result<Box<Notify>, Fail> {
    let chip = chip(alloc)?;
    let notify = Notify::load(alloc, &chip, 3)?;
    Ok(boxed(alloc, notify)?)
}

#[test]
fn each_notifier_is_on_or_off_by_itself(rt: HostRuntime) -> Result<(), Fail> {
    let mut notify = notifiers(rt.alloc())?;
    all_right(&rt, wrong_action(&mut notify, &NOTIFIERS));
    Ok(())
}

#[test]
fn notes_are_taken_by_node_and_then_by_kind(rt: HostRuntime) -> Result<(), Fail> {
    let mut notify = notifiers(rt.alloc())?;
    all_right(&rt, wrong_action(&mut notify, &ORDER));
    Ok(())
}

#[test]
fn a_later_note_takes_the_slot_of_an_earlier_one(rt: HostRuntime) -> Result<(), Fail> {
    let mut notify = notifiers(rt.alloc())?;
    all_right(&rt, wrong_action(&mut notify, &SLOTS));
    Ok(())
}

#[test]
fn an_event_has_its_number(rt: HostRuntime) -> Result<(), Fail> {
    let events = [
        NodeEvent::from_number(0),
        NodeEvent::from_number(1),
        NodeEvent::from_number(2),
        NodeEvent::from_number(3),
    ];
    same(&rt, events, [None, Some(CHANGE), Some(ZERO_USERS), None]);
    same(&rt, (CHANGE.number(), ZERO_USERS.number()), (1, 2));
    same(
        &rt,
        (CHANGE.note(), ZERO_USERS.note()),
        (Note::Change, Note::ZeroUsers),
    );
    Ok(())
}
