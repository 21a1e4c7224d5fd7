//! Each check of each call, alone and with a later one.

use crate::rows::all_right;
use pm_base::Event;
use pm_core::Answer;
use std::test::Fail;
use test_books::{Case, Want, settled, wrong_answer, wrong_answer_over};

/// Masters 1 and 7. Both may use slaves 11 and 12; only the first one may use slave 33. Slave 12 can't be shared.
pub(crate) static ONE_USER: [u32; 26] = [
    2, 2, 1, 0x101, 2, 1, 0x1, 100, 0, 0, 7, 0x100, 100, 0, 0, 0x102, 3, 11, 1, 0x101, 12, 0,
    0x101, 33, 0, 0x1,
];

/// Each check fails alone, and together with a later one.
static CHECKS: [Case; 33] = [
    // senders that are no configured masters
    (0, 3, [11, 0, 0, 0], Want::Drop),
    (2, 3, [11, 0, 0, 0], Want::Drop),
    (6, 3, [11, 0, 0, 0], Want::Drop),
    (8, 3, [11, 0, 0, 0], Want::Drop),
    (11, 3, [11, 0, 0, 0], Want::Drop),
    // the call: these numbers are unknown, whatever their arguments
    (1, 0, [11, 0, 0, 0], Want::Reply(19, [0, 0, 0])),
    (7, 99, [33, 1, 0, 3], Want::Reply(19, [0, 0, 0])),
    // the address: no object is attached there
    (1, 2, [99, 0, 0, 0], Want::Reply(15, [0, 0, 0])),
    // the acknowledge kind, alone and with a bad node
    (1, 13, [11, 1, 0, 0], Want::Reply(15, [0, 0, 0])),
    (1, 13, [11, 1, 0, 4], Want::Reply(15, [0, 0, 0])),
    (1, 13, [99, 1, 0, 4], Want::Reply(15, [0, 0, 0])),
    // the node: a power node and a processor are no slaves
    (1, 13, [99, 1, 0, 2], Want::Reply(2003, [0, 0, 0])),
    (1, 13, [1, 8, 0, 2], Want::Reply(2003, [0, 0, 0])),
    (1, 14, [2, 0, 0, 0], Want::Reply(2003, [0, 0, 0])),
    (1, 3, [70, 0, 0, 0], Want::Reply(2003, [0, 0, 0])),
    // a slave with no record in the object
    (1, 14, [13, 0, 0, 0], Want::Reply(2002, [0, 0, 0])),
    // the permission, alone and with a bad capability
    (7, 13, [33, 1, 0, 2], Want::Reply(2002, [0, 0, 0])),
    (7, 13, [33, 8, 0, 2], Want::Reply(2002, [0, 0, 0])),
    (7, 14, [33, 0, 0, 0], Want::Reply(2002, [0, 0, 0])),
    // the capabilities: a memory has no WAKEUP, and no slave has bit 3
    (1, 13, [11, 4, 0, 2], Want::Reply(19, [0, 0, 0])),
    (1, 13, [33, 15, 0, 2], Want::Reply(19, [0, 0, 0])),
    // a row that isn't used can't be released
    (1, 14, [11, 0, 0, 0], Want::Reply(2002, [0, 0, 0])),
    // in use by the caller, alone and with a bad capability
    (7, 13, [12, 2, 0, 2], Want::Reply(0, [0, 0, 0])),
    (7, 13, [12, 1, 0, 2], Want::Reply(2004, [0, 0, 0])),
    (7, 13, [12, 4, 0, 2], Want::Reply(19, [0, 0, 0])),
    (7, 3, [12, 0, 0, 0], Want::Reply(0, [1, 2, 1])),
    // in use by another, alone and with a bad capability
    (1, 13, [12, 1, 0, 2], Want::Reply(2007, [7, 0, 0])),
    (1, 13, [12, 4, 0, 2], Want::Reply(19, [0, 0, 0])),
    (1, 3, [12, 0, 0, 0], Want::Reply(0, [1, 0, 2])),
    (1, 14, [12, 0, 0, 0], Want::Reply(2002, [0, 0, 0])),
    // free again
    (7, 14, [12, 0, 0, 0], Want::Reply(0, [0, 0, 0])),
    (1, 13, [12, 1, 0, 2], Want::Reply(0, [0, 0, 0])),
    (7, 13, [12, 1, 0, 2], Want::Reply(2007, [1, 0, 0])),
];

#[test]
fn the_first_check_that_fails_decides(rt: HostRuntime) -> Result<(), Fail> {
    let wrong = wrong_answer_over(rt.alloc(), &ONE_USER, &CHECKS)?;
    all_right(&rt, wrong);
    Ok(())
}

/// Acknowledge kind 1 has no answer, and kind 3 gets a callback with the operating point after the step.
static ACKNOWLEDGED: [Case; 6] = [
    (1, 13, [11, 2, 0, 1], Want::Silent),
    (1, 13, [11, 2, 0, 1], Want::Silent),
    (1, 13, [99, 2, 0, 1], Want::Silent),
    (7, 13, [11, 1, 0, 3], Want::Ack(11, 0, 2)),
    (7, 13, [11, 1, 0, 3], Want::Ack(11, 2004, 2)),
    (7, 13, [99, 1, 0, 3], Want::Ack(99, 2003, 0)),
];

/// The status of a slave that the caller may not use, and the least state that all its users need.
static USERS: [Case; 5] = [
    (1, 13, [33, 0, 0, 2], Want::Reply(0, [0, 0, 0])),
    (7, 3, [33, 0, 0, 0], Want::Reply(0, [0, 0, 2])),
    (1, 3, [11, 0, 0, 0], Want::Reply(0, [2, 2, 3])),
    (7, 14, [11, 0, 0, 0], Want::Reply(0, [0, 0, 0])),
    (1, 3, [11, 0, 0, 0], Want::Reply(0, [1, 2, 1])),
];

#[test]
fn acknowledgements_and_other_events(rt: HostRuntime) -> Result<(), Fail> {
    let mut desk = settled(rt.alloc(), &ONE_USER)?;
    all_right(&rt, wrong_answer(&mut desk, &ACKNOWLEDGED));
    assert!(rt; desk.take(&Event::Tick { count: 5 }) == Answer::Silent);
    all_right(&rt, wrong_answer(&mut desk, &USERS));
    Ok(())
}

/// No reply words.
const NONE: [u32; 3] = [0; 3];

/// Calls on processors. Neither master is suspending at first.
static SUSPENDS: [Case; 27] = [
    (1, 1, [11, 0, 0, 0], Want::Reply(0, [65_537, 0, 0])),
    // SELF_SUSPEND: the node is no processor
    (1, 7, [11, 0, 0, 0], Want::Reply(2003, NONE)),
    (1, 7, [10, 0, 0, 0], Want::Reply(2003, NONE)),
    (1, 7, [99, 0, 0, 0], Want::Reply(2003, NONE)),
    // it is another master's, active or off, and nobody's
    (1, 7, [7, 0, 0, 0], Want::Reply(2002, NONE)),
    (7, 7, [3, 0, 0, 0], Want::Reply(2002, NONE)),
    (1, 7, [8, 0, 0, 0], Want::Reply(2002, NONE)),
    // it is off
    (1, 7, [3, 0, 0, 0], Want::Reply(1, NONE)),
    // it starts to suspend, and then suspends already; only its master sees that
    (1, 7, [2, 0, 0, 0], Want::Reply(0, NONE)),
    (1, 7, [2, 0, 0, 0], Want::Reply(2004, NONE)),
    (7, 7, [2, 0, 0, 0], Want::Reply(2002, NONE)),
    // ABORT_SUSPEND: the node is no processor, alone and with a bad reason
    (1, 9, [100, 11, 0, 0], Want::Reply(2003, NONE)),
    (1, 9, [99, 99, 0, 0], Want::Reply(2003, NONE)),
    // the reason: alone, and with another master's processor
    (1, 9, [99, 2, 0, 0], Want::Reply(15, NONE)),
    (1, 9, [104, 2, 0, 0], Want::Reply(15, NONE)),
    (1, 9, [99, 7, 0, 0], Want::Reply(15, NONE)),
    // another master's: alone, and not suspending
    (7, 9, [100, 2, 0, 0], Want::Reply(2002, NONE)),
    (1, 9, [100, 7, 0, 0], Want::Reply(2002, NONE)),
    (1, 9, [103, 8, 0, 0], Want::Reply(2002, NONE)),
    // it is off, and it is active without a request
    (1, 9, [100, 3, 0, 0], Want::Reply(1, NONE)),
    (7, 9, [103, 7, 0, 0], Want::Reply(1, NONE)),
    // it goes on
    (1, 9, [103, 2, 0, 0], Want::Reply(0, NONE)),
    (1, 9, [103, 2, 0, 0], Want::Reply(1, NONE)),
    (1, 7, [2, 0, 0, 0], Want::Reply(0, NONE)),
    (1, 9, [100, 2, 0, 0], Want::Reply(0, NONE)),
    // INIT_FINALIZE has no checks
    (1, 21, [99, 0, 0, 0], Want::Reply(0, NONE)),
    (7, 21, [99, 0, 0, 0], Want::Reply(0, NONE)),
];

#[test]
fn the_first_check_of_a_suspend_decides(rt: HostRuntime) -> Result<(), Fail> {
    let wrong = wrong_answer_over(rt.alloc(), &ONE_USER, &SUSPENDS)?;
    all_right(&rt, wrong);
    Ok(())
}

/// The calls on slaves in use.
static REQUIREMENTS: [Case; 25] = [
    // SET_REQUIREMENT: the acknowledge kind, alone and with a bad node
    (1, 15, [11, 1, 0, 0], Want::Reply(15, NONE)),
    (1, 15, [99, 1, 0, 4], Want::Reply(15, NONE)),
    // the node is no slave, alone and with a bad capability
    (1, 15, [2, 1, 0, 2], Want::Reply(2003, NONE)),
    (1, 15, [99, 8, 0, 2], Want::Reply(2003, NONE)),
    // the permission, alone and with a bad capability
    (7, 15, [33, 1, 0, 2], Want::Reply(2002, NONE)),
    (7, 15, [33, 8, 0, 2], Want::Reply(2002, NONE)),
    (1, 15, [13, 1, 0, 2], Want::Reply(2002, NONE)),
    // the capabilities, although the slave isn't in use
    (1, 15, [11, 4, 0, 2], Want::Reply(19, NONE)),
    // it isn't in use
    (1, 15, [11, 1, 0, 2], Want::Reply(2002, NONE)),
    // SET_MAX_LATENCY: the node, the permission, the use
    (1, 16, [99, 0, 0, 0], Want::Reply(2003, NONE)),
    (1, 16, [10, 0, 0, 0], Want::Reply(2003, NONE)),
    (7, 16, [33, 0, 0, 0], Want::Reply(2002, NONE)),
    (1, 16, [11, 0, 0, 0], Want::Reply(2002, NONE)),
    // another master's use isn't one's own
    (7, 13, [11, 2, 0, 2], Want::Reply(0, NONE)),
    (1, 15, [11, 1, 0, 2], Want::Reply(2002, NONE)),
    (1, 16, [11, 0, 0, 0], Want::Reply(2002, NONE)),
    // a latency that a state with a lesser one meets
    (7, 16, [11, 0, 0, 0], Want::Reply(0, NONE)),
    (7, 3, [11, 0, 0, 0], Want::Reply(0, [2, 2, 1])),
    (7, 16, [11, u32::MAX, 0, 0], Want::Reply(0, NONE)),
    (7, 3, [11, 0, 0, 0], Want::Reply(0, [1, 2, 1])),
    // a later requirement replaces it, under each acknowledge kind
    (7, 15, [11, 1, 0, 3], Want::Ack(11, 0, 2)),
    (7, 15, [11, 8, 0, 3], Want::Ack(11, 19, 2)),
    (7, 15, [11, 2, 0, 1], Want::Silent),
    (7, 3, [11, 0, 0, 0], Want::Reply(0, [1, 2, 1])),
    (7, 14, [11, 0, 0, 0], Want::Reply(0, NONE)),
];

#[test]
fn the_first_check_of_a_requirement_decides(rt: HostRuntime) -> Result<(), Fail> {
    let wrong = wrong_answer_over(rt.alloc(), &ONE_USER, &REQUIREMENTS)?;
    all_right(&rt, wrong);
    Ok(())
}
