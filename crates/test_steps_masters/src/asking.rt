//! A master asks another to suspend, and a master aborts its suspend. The first check that fails decides.

use crate::rows::all_right;
use std::test::Fail;
use test_books::{Case, Trigger, Want, event_of, settled, wrong_answer, wrong_answer_over};

/// Masters 1, 8 and 7, in this order, with the timeouts 100, 0 and 40. The first may suspend all three, 8 may suspend
/// 7, and 7 may suspend 1. The first may also wake 7 and 8.
pub(crate) static ASKING: [u32; 20] = [
    2, 1, 1, 0x101, 3, 1, 0x1, 100, 0x301, 0x300, 8, 0x200, 0, 0x100, 0, 7, 0x100, 40, 0x1, 0,
];

/// No reply words.
const NONE: [u32; 3] = [0; 3];

/// REQUEST_SUSPEND: the node, the acknowledge kind, the latency, the state. Master 8 is off.
static REQUESTS: [Case; 40] = [
    // the acknowledge kind: alone, with a node that names no master, and without the permission
    (1, 6, [7, 0, 0, 0], Want::Reply(15, NONE)),
    (1, 6, [7, 4, 0, 0], Want::Reply(15, NONE)),
    (1, 6, [99, 4, 0, 0], Want::Reply(15, NONE)),
    (7, 6, [7, 0, 0, 0], Want::Reply(15, NONE)),
    // the node: a slave, power nodes without a master's number, and no node; also from a caller that may not
    // suspend itself
    (1, 6, [11, 2, 0, 0], Want::Reply(2003, NONE)),
    (1, 6, [10, 2, 0, 0], Want::Reply(2003, NONE)),
    (7, 6, [62, 2, 0, 0], Want::Reply(2003, NONE)),
    (1, 6, [99, 2, 0, 0], Want::Reply(2003, NONE)),
    (1, 6, [0, 2, 0, 0], Want::Reply(2003, NONE)),
    // the permission: alone, and with a target that is off; and a master that isn't configured
    (7, 6, [7, 2, 0, 0], Want::Reply(2002, NONE)),
    (7, 6, [8, 2, 0, 0], Want::Reply(2002, NONE)),
    (1, 6, [6, 2, 0, 0], Want::Reply(2002, NONE)),
    // a master that is off isn't suspended, and isn't heard
    (1, 6, [8, 2, 0, 0], Want::Reply(1, NONE)),
    (8, 6, [7, 2, 0, 0], Want::Drop),
    // refusals under the other acknowledge kinds, with the operating point of the node: the power node's, if one
    // has the number
    (1, 6, [99, 1, 0, 0], Want::Silent),
    (1, 6, [99, 3, 0, 0], Want::Ack(99, 2003, 0)),
    (1, 6, [6, 3, 0, 0], Want::Ack(6, 2002, 1)),
    (1, 6, [8, 3, 0, 0], Want::Ack(8, 1, 0)),
    // accepted: there is no answer yet
    (1, 6, [7, 3, 50, 3], Want::Silent),
    // one is pending: under each acknowledge kind, with a bad kind, and without the permission
    (1, 6, [7, 2, 0, 0], Want::Reply(2004, NONE)),
    (1, 6, [7, 3, 0, 0], Want::Ack(7, 2004, 1)),
    (1, 6, [7, 1, 0, 0], Want::Silent),
    (1, 6, [7, 4, 0, 0], Want::Reply(15, NONE)),
    (7, 6, [7, 2, 0, 0], Want::Reply(2002, NONE)),
    // a processor that is off names its master, which is active; each name of a master finds its pending request
    (7, 6, [3, 2, 0, 0], Want::Silent),
    (7, 6, [1, 2, 0, 0], Want::Reply(2004, NONE)),
    (1, 6, [1, 2, 0, 0], Want::Reply(2004, NONE)),
    (1, 6, [5, 2, 0, 0], Want::Reply(2004, NONE)),
    // one is pending on a master that is suspending
    (7, 7, [7, 0, 0, 0], Want::Reply(0, NONE)),
    (1, 6, [7, 2, 0, 0], Want::Reply(2004, NONE)),
    // none is pending any more, but the target isn't active: alone, and under each acknowledge kind
    (7, 9, [100, 7, 0, 0], Want::Reply(0, NONE)),
    (7, 7, [7, 0, 0, 0], Want::Reply(0, NONE)),
    (1, 6, [7, 2, 0, 0], Want::Reply(1, NONE)),
    (1, 6, [7, 3, 0, 0], Want::Ack(7, 1, 3)),
    (1, 6, [7, 1, 0, 0], Want::Silent),
    // it is active again, and can be asked; a suspending master is heard, and may ask
    (7, 9, [100, 7, 0, 0], Want::Reply(0, NONE)),
    (1, 7, [2, 0, 0, 0], Want::Reply(0, NONE)),
    (1, 6, [7, 2, 0, 0], Want::Silent),
    (1, 6, [7, 2, 0, 0], Want::Reply(2004, NONE)),
    (1, 6, [1, 2, 0, 0], Want::Reply(2004, NONE)),
];

#[test]
fn the_first_check_of_a_request_to_suspend_decides(rt: HostRuntime) -> Result<(), Fail> {
    let wrong = wrong_answer_over(rt.alloc(), &ASKING, &REQUESTS)?;
    all_right(&rt, wrong);
    Ok(())
}

/// ABORT_SUSPEND by an active processor: the reason, the node. Processor 3 of master 1 is asleep.
static ABORTS: [Case; 17] = [
    // no request is pending; then one is, but only on another master
    (7, 9, [101, 7, 0, 0], Want::Reply(1, NONE)),
    (7, 6, [1, 2, 0, 0], Want::Silent),
    (7, 9, [101, 7, 0, 0], Want::Reply(1, NONE)),
    // each check, with a request pending on the caller
    (1, 6, [7, 2, 0, 0], Want::Silent),
    (7, 9, [101, 11, 0, 0], Want::Reply(2003, NONE)),
    (7, 9, [99, 6, 0, 0], Want::Reply(2003, NONE)),
    (7, 9, [99, 7, 0, 0], Want::Reply(15, NONE)),
    (7, 9, [104, 2, 0, 0], Want::Reply(15, NONE)),
    (7, 9, [101, 2, 0, 0], Want::Reply(2002, NONE)),
    // the caller's processors that are off or asleep
    (1, 9, [101, 4, 0, 0], Want::Reply(1, NONE)),
    (1, 9, [101, 3, 0, 0], Want::Reply(1, NONE)),
    // it ends the caller's request once, and doesn't end that of another master
    (7, 9, [103, 7, 0, 0], Want::Reply(0, NONE)),
    (7, 9, [103, 7, 0, 0], Want::Reply(1, NONE)),
    (7, 6, [1, 2, 0, 0], Want::Reply(2004, NONE)),
    (1, 9, [100, 2, 0, 0], Want::Reply(0, NONE)),
    (1, 9, [100, 2, 0, 0], Want::Reply(1, NONE)),
    (7, 6, [1, 2, 0, 0], Want::Silent),
];

/// Processor 3 starts, suspends and sleeps.
static ASLEEP: [Trigger; 3] = [
    Trigger::Boot(3, 0),
    Trigger::Call(1, 7, [3, 0, 0, 0]),
    Trigger::Wfi(3),
];

#[test]
fn the_first_check_of_an_abort_decides(rt: HostRuntime) -> Result<(), Fail> {
    let mut desk = settled(rt.alloc(), &ASKING)?;
    for trigger in &ASLEEP {
        desk.take(&event_of(*trigger));
    }
    all_right(&rt, wrong_answer(&mut desk, &ABORTS));
    Ok(())
}
