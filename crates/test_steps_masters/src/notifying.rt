//! Notifiers: the checks of the call, what masters are told, and what waits while they sleep.

use crate::rows::all_right;
use std::test::Fail;
use test_books::{Case, Notice, Trigger, Want, wrong_answer_over, wrong_notice_over};

/// Masters 1 and 7, which may suspend each other. Both may use slave 11 at a time; only the first one may use slaves
/// 33 and 63.
static NOTIFYING: [u32; 26] = [
    2, 2, 1, 0x101, 2, 1, 0x1, 100, 0x100, 0x100, 7, 0x100, 40, 0x1, 0, 0x102, 3, 11, 1, 0x101, 33,
    0, 0x1, 63, 0, 0x1,
];

/// No reply words.
const NONE: [u32; 3] = [0; 3];

/// REGISTER_NOTIFIER: the node, the event, the wake word, and whether the notifier is set.
static REGISTRATIONS: [Case; 24] = [
    // the node: a processor, and no node; alone, with a bad event, and with a bad switch
    (1, 5, [2, 1, 0, 1], Want::Reply(2003, NONE)),
    (1, 5, [99, 1, 0, 1], Want::Reply(2003, NONE)),
    (1, 5, [0, 1, 0, 0], Want::Reply(2003, NONE)),
    (7, 5, [7, 3, 0, 1], Want::Reply(2003, NONE)),
    (7, 5, [70, 1, 0, 2], Want::Reply(2003, NONE)),
    // the event: alone, of a power node, and without the permission
    (1, 5, [11, 0, 0, 1], Want::Reply(15, NONE)),
    (1, 5, [11, 3, 0, 1], Want::Reply(15, NONE)),
    (1, 5, [11, u32::MAX, 0, 1], Want::Reply(15, NONE)),
    (1, 5, [10, 2, 0, 1], Want::Reply(15, NONE)),
    (1, 5, [10, 0, 0, 1], Want::Reply(15, NONE)),
    (7, 5, [33, 3, 0, 1], Want::Reply(15, NONE)),
    // the switch: alone, and without the permission
    (1, 5, [11, 1, 0, 2], Want::Reply(15, NONE)),
    (1, 5, [10, 1, 0, u32::MAX], Want::Reply(15, NONE)),
    (7, 5, [33, 1, 0, 2], Want::Reply(15, NONE)),
    // the permission, for each event, and for removing too
    (7, 5, [33, 1, 0, 1], Want::Reply(2002, NONE)),
    (7, 5, [33, 2, 0, 1], Want::Reply(2002, NONE)),
    (7, 5, [63, 1, 0, 0], Want::Reply(2002, NONE)),
    // accepted, whatever the wake word; a power node needs no permission, and no use is needed
    (7, 5, [11, 1, 0, 1], Want::Reply(0, NONE)),
    (7, 5, [11, 2, u32::MAX, 1], Want::Reply(0, NONE)),
    (7, 5, [11, 2, 2, 0], Want::Reply(0, NONE)),
    (7, 5, [9, 1, 1, 1], Want::Reply(0, NONE)),
    (1, 5, [33, 2, 7, 1], Want::Reply(0, NONE)),
    (1, 5, [33, 1, 0, 0], Want::Reply(0, NONE)),
    // a master that isn't configured isn't heard
    (8, 5, [11, 1, 0, 1], Want::Drop),
];

#[test]
fn the_first_check_of_a_registration_decides(rt: HostRuntime) -> Result<(), Fail> {
    let wrong = wrong_answer_over(rt.alloc(), &NOTIFYING, &REGISTRATIONS)?;
    all_right(&rt, wrong);
    Ok(())
}

/// The notices to masters that are awake.
static EVENTS: [Notice; 22] = [
    (Trigger::Call(7, 5, [11, 1, 0, 1]), &[], &[]),
    (
        Trigger::Call(1, 13, [11, 1, 0, 2]),
        &[],
        &[(7, 32, [11, 1, 2, 0])],
    ),
    // a step that leaves the state tells nothing, and one more user tells nothing
    (Trigger::Call(7, 13, [11, 2, 0, 2]), &[], &[]),
    (Trigger::Call(7, 5, [11, 2, 0, 1]), &[], &[]),
    // the first user releases it, but another still uses it
    (
        Trigger::Call(1, 14, [11, 0, 0, 0]),
        &[],
        &[(7, 32, [11, 1, 1, 0])],
    ),
    // the last user releases it: the change comes first
    (
        Trigger::Call(7, 14, [11, 0, 0, 0]),
        &[],
        &[(7, 32, [11, 1, 0, 0]), (7, 32, [11, 2, 0, 0])],
    ),
    // a user that requires nothing releases it: the state doesn't change
    (Trigger::Call(1, 13, [11, 0, 0, 2]), &[], &[]),
    (
        Trigger::Call(1, 14, [11, 0, 0, 0]),
        &[],
        &[(7, 32, [11, 2, 0, 0])],
    ),
    // a refused call tells nothing
    (Trigger::Call(1, 14, [11, 0, 0, 0]), &[], &[]),
    // two masters, in the order of the object
    (Trigger::Call(1, 5, [11, 1, 0, 1]), &[], &[]),
    (
        Trigger::Call(7, 13, [11, 1, 0, 2]),
        &[],
        &[(1, 32, [11, 1, 2, 0]), (7, 32, [11, 1, 2, 0])],
    ),
    // only one event of one master is removed
    (Trigger::Call(7, 5, [11, 1, 0, 0]), &[], &[]),
    (
        Trigger::Call(7, 14, [11, 0, 0, 0]),
        &[],
        &[(1, 32, [11, 1, 0, 0]), (7, 32, [11, 2, 0, 0])],
    ),
    // by node, and then by event
    (Trigger::Call(1, 5, [63, 2, 0, 1]), &[], &[]),
    (Trigger::Call(1, 5, [63, 1, 0, 1]), &[], &[]),
    (Trigger::Call(1, 5, [9, 1, 0, 1]), &[], &[]),
    (
        Trigger::Call(1, 13, [63, 1, 0, 2]),
        &[],
        &[(1, 32, [9, 1, 1, 0]), (1, 32, [63, 1, 1, 0])],
    ),
    (
        Trigger::Call(1, 14, [63, 0, 0, 0]),
        &[],
        &[
            (1, 32, [9, 1, 0, 0]),
            (1, 32, [63, 1, 0, 0]),
            (1, 32, [63, 2, 0, 0]),
        ],
    ),
    // the end of a request comes before events of nodes, even of a node with a lower number
    (
        Trigger::Call(7, 6, [2, 3, 0, 0]),
        &[],
        &[(1, 30, [201, 0, 0, 100])],
    ),
    (Trigger::Call(7, 5, [1, 1, 0, 1]), &[], &[]),
    (Trigger::Call(1, 7, [2, 0, 0, 0]), &[], &[]),
    (
        Trigger::Wfi(2),
        &[],
        &[(7, 31, [2, 0, 2, 0]), (7, 32, [1, 1, 0, 0])],
    ),
];

#[test]
fn masters_are_told_of_the_events_for_which_they_asked(rt: HostRuntime) -> Result<(), Fail> {
    let wrong = wrong_notice_over(rt.alloc(), &NOTIFYING, &EVENTS)?;
    all_right(&rt, wrong);
    Ok(())
}

/// The notes that wait for a sleeping master, and the notices when it wakes.
static WAITS: [Notice; 24] = [
    (Trigger::Call(7, 5, [11, 1, 0, 1]), &[], &[]),
    (Trigger::Call(7, 5, [11, 2, 0, 1]), &[], &[]),
    (
        Trigger::Call(7, 6, [1, 3, 0, 0]),
        &[],
        &[(1, 30, [201, 0, 0, 100])],
    ),
    (Trigger::Call(7, 7, [7, 0, 0, 0]), &[], &[]),
    (Trigger::Wfi(7), &[], &[]),
    // each kind waits; several changes are one note
    (Trigger::Call(1, 13, [11, 1, 0, 2]), &[], &[]),
    (Trigger::Call(1, 14, [11, 0, 0, 0]), &[], &[]),
    (Trigger::Tick(100), &[], &[]),
    (Trigger::Call(1, 13, [11, 1, 0, 2]), &[], &[]),
    // by node, and then by kind, with the operating points at the time of waking
    (
        Trigger::Gic(7),
        &[],
        &[
            (7, 31, [1, 2006, 1, 0]),
            (7, 32, [11, 1, 2, 0]),
            (7, 32, [11, 2, 2, 0]),
        ],
    ),
    // a note that was told doesn't wait any more
    (Trigger::Call(7, 7, [7, 0, 0, 0]), &[], &[]),
    (Trigger::Wfi(7), &[], &[]),
    (Trigger::Gic(7), &[], &[]),
    // a suspending master is told at once, and nothing more when it goes on
    (Trigger::Call(7, 7, [7, 0, 0, 0]), &[], &[]),
    (
        Trigger::Call(1, 14, [11, 0, 0, 0]),
        &[],
        &[(7, 32, [11, 1, 0, 0]), (7, 32, [11, 2, 0, 0])],
    ),
    (Trigger::Gic(7), &[], &[]),
    // its own domain goes down and up with it: first comes what waited, and then the event of its waking
    (Trigger::Call(7, 5, [6, 1, 0, 1]), &[], &[]),
    (Trigger::Call(7, 7, [7, 0, 0, 0]), &[], &[]),
    (Trigger::Wfi(7), &[], &[]),
    (
        Trigger::Gic(7),
        &[],
        &[(7, 32, [6, 1, 1, 0]), (7, 32, [6, 1, 1, 0])],
    ),
    // no notifier, and nothing waits
    (Trigger::Call(7, 5, [6, 1, 0, 0]), &[], &[]),
    (Trigger::Call(7, 7, [7, 0, 0, 0]), &[], &[]),
    (Trigger::Wfi(7), &[], &[]),
    (Trigger::Gic(7), &[], &[]),
];

#[test]
fn what_a_sleeping_master_would_be_told_waits_until_it_wakes(rt: HostRuntime) -> Result<(), Fail> {
    let wrong = wrong_notice_over(rt.alloc(), &NOTIFYING, &WAITS)?;
    all_right(&rt, wrong);
    Ok(())
}
