//! The answers to the senders of messages.

use crate::desk::{Desk, settled};
use crate::events::message;
use pm_base::NodeId;
use pm_core::Answer;
use pm_ipi::Response;
use std::alloc::Global;
use std::test::Fail;

/// An expected answer: none, a drop, a reply with a status and three words, or an acknowledgement with a node, its
/// status and its operating point.
#[derive(Clone, Copy)]
pub enum Want {
    Silent,
    Drop,
    Reply(u32, [u32; 3]),
    Ack(u32, u32, u32),
}

/// The expected answer to a sender, as the book gives it.
fn answer_to(sender: u32, want: Want) -> Answer {
    let master = NodeId(sender);
    match want {
        Want::Silent => Answer::Silent,
        Want::Drop => Answer::Drop { master },
        Want::Reply(status, words) => Answer::Reply {
            master,
            response: Response { status, words },
        },
        Want::Ack(node, status, point) => Answer::Ack {
            master,
            node: NodeId(node),
            status,
            point,
            shown: true,
        },
    }
}

/// A case: the master, the number of the call, its first four arguments, and the expected answer.
pub type Case = (u32, u32, [u32; 4], Want);

/// The index of the first case with another answer.
pub fn wrong_answer(desk: &mut Desk, cases: &[Case]) -> Option<usize> {
    for (place, (master, api, args, want)) in cases.iter().enumerate() {
        if desk.take(&message(*master, *api, *args)) != answer_to(*master, *want) {
            return Some(place);
        }
    }
    None
}

/// The index of the first case with another answer, over a settled book of an object of these words.
pub fn wrong_answer_over(
    alloc: Global,
    words: &[u32],
    cases: &[Case],
) -> Result<Option<usize>, Fail> {
    let mut desk = settled(alloc, words)?;
    Ok(wrong_answer(&mut desk, cases))
}
