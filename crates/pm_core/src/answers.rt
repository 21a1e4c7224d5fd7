//! How the sender of a message is answered.

ghost use Rattle.std.specs.Prelude.{◌≡◌};
ghost use Rattle.pm_ipi.specs.Calls.{ack_of, node_of};
ghost use Rattle.pm_values.specs.Caches.{AreKept};
ghost use Rattle.pm_core.specs.Step.{acknowledged, answer_by, answer_of};
ghost use Rattle.pm_core.specs.declared.replies.Answer.TheVariants.{Ack};
ghost use Rattle.pm_procs.specs.Modes.{is_awake};
ghost use Rattle.pm_state.specs.Nodes.{master_mode};
ghost use Rattle.pm_state.specs.Values.{point};

use crate::replies::Answer;
use pm_base::NodeId;
use pm_calls::Verdict;
use pm_ipi::{AckKind, Call, Response};
use pm_procs::is_awake;
use pm_state::Tables;
use pm_tell::Served;
use pm_values::{Caches, point};

/// What the sender of a message gets by the verdict on it, in the book after it. It is left in a place of the caller.
#[inline(always)]
pub(crate) fn answer(tables: &Tables, caches: &Caches, served: &Option<Served>, answer: &mut Answer)
    requires { AreKept tables.now caches.now }
    ensures { answer.new ≡ answer_by served.now tables.now }
{
    match served {
        None => *answer = Answer::Silent,
        Some(served) => answer_to(tables, caches, served, answer),
    }
}

/// Leaves the answer to a message, by its verdict: a drop, nothing, a reply or an acknowledgement.
fn answer_to(tables: &Tables, caches: &Caches, served: &Served, answer: &mut Answer)
    requires { AreKept tables.now caches.now }
    ensures { answer.new ≡ answer_of served.now.verdict served.now.master served.now.call tables.now }
{
    let master = served.master;
    if matches!(served.verdict, Verdict::Dropped) {
        *answer = Answer::Drop { master };
        return;
    }
    match served.verdict.response() {
        Some(response) => acknowledge(tables, caches, master, &served.call, response, answer),
        None => *answer = Answer::Silent,
    }
}

/// Leaves a response in the form that the call's acknowledge kind asks for (UG1200, REQUEST_ACK_NO,
/// REQUEST_ACK_BLOCKING, REQUEST_ACK_NON_BLOCKING).
fn acknowledge(
    tables: &Tables,
    caches: &Caches,
    master: NodeId,
    call: &Call,
    response: Response,
    answer: &mut Answer,
)
    requires { AreKept tables.now caches.now }
    ensures { answer.new ≡ acknowledged (ack_of call.now) master (node_of call.now) response tables.now }
{
    match call.ack() {
        AckKind::No => *answer = Answer::Silent,
        AckKind::Blocking => *answer = Answer::Reply { master, response },
        AckKind::NonBlocking => {
            call_back(tables, caches, master, call.node(), response.status, answer);
        }
    }
}

/// The acknowledge callback, with the operating point of its node. It isn't compiled into the other answers, which look
/// nothing up.
#[inline(never)]
fn call_back(
    tables: &Tables,
    caches: &Caches,
    master: NodeId,
    node: NodeId,
    status: u32,
    answer: &mut Answer,
)
    requires { AreKept tables.now caches.now }
    ensures { answer.new ≡ Ack master node status (point node tables.now) (is_awake (master_mode master tables.now)) }
{
    *answer = Answer::Ack {
        master,
        node,
        status,
        point: point(tables, caches, node),
        shown: is_awake(tables.master_mode(master)),
    };
}
