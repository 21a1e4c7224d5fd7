//! Late replies and callbacks: what each step tells the masters.

use crate::desk::{Desk, settled};
use crate::events::{Trigger, event_of};
use pm_core::Outbox;
use std::alloc::Global;
use std::test::Fail;

/// A late reply: the master and the status.
pub type Reply = (u32, u32);

/// A callback: the master, the number and the arguments.
pub type Call = (u32, u32, [u32; 4]);

/// Whether the outbox has exactly these late replies, in order.
pub fn have_replied(out: &Outbox, replies: &[Reply]) -> bool {
    let late = out.late.as_slice();
    for (place, wanted) in replies.iter().enumerate() {
        let found = match late.get(place) {
            Some(reply) => (reply.master.0, reply.status),
            None => return false,
        };
        if found != *wanted {
            return false;
        }
    }
    late.len() == replies.len()
}

/// Whether the outbox has exactly these callbacks, in order.
pub fn have_called(out: &Outbox, callbacks: &[Call]) -> bool {
    let calls = out.callbacks.as_slice();
    for (place, wanted) in callbacks.iter().enumerate() {
        let found = match calls.get(place) {
            Some(call) => (call.master.0, call.id, call.args),
            None => return false,
        };
        if found != *wanted {
            return false;
        }
    }
    calls.len() == callbacks.len()
}

/// A row: an event, and the late replies and the callbacks of its step, each in order.
pub type Notice = (Trigger, &'static [Reply], &'static [Call]);

/// The index of the first row whose step tells something else.
pub fn wrong_notice(desk: &mut Desk, notices: &[Notice]) -> Option<usize> {
    for (place, (trigger, late, calls)) in notices.iter().enumerate() {
        desk.take(&event_of(*trigger));
        if !have_replied(&desk.out, late) || !have_called(&desk.out, calls) {
            return Some(place);
        }
    }
    None
}

/// The index of the first row whose step tells something else, over a settled book of an object of these words.
pub fn wrong_notice_over(
    alloc: Global,
    words: &[u32],
    notices: &[Notice],
) -> Result<Option<usize>, Fail> {
    let mut desk = settled(alloc, words)?;
    Ok(wrong_notice(&mut desk, notices))
}
