//! The calls on clocks to which a book replies, and the responses that replace the book's.

ghost use Rattle.std.specs.Prelude.{◌≡◌};
ghost use Rattle.pm_clocks.specs.Clocked.{made, with_response};

use pm_base::{Event, NodeId};
use pm_clock_tree::{ClockCall, decode_clock_call};
use pm_core::Answer;
use pm_ipi::Response;

/// The call on a clock that an event makes, with its sender; None for another event, or if the book doesn't reply.
#[inline]
pub(crate) fn made(event: &Event, answer: &Answer) -> Option<(NodeId, ClockCall)>
    ensures { result ≡ made event.now answer.now }
{
    match event {
        Event::Ipi { master, message } => match answer {
            Answer::Reply { .. } => {
                let call = decode_clock_call(message)?;
                Some((*master, call))
            }
            _ => None,
        },
        _ => None,
    }
}

/// A reply with this response in place of its own. Any other answer stays.
pub(crate) fn with_response(response: Response, answer: Answer) -> Answer
    ensures { result ≡ with_response response answer }
{
    match answer {
        Answer::Reply { master, .. } => Answer::Reply { master, response },
        other => other,
    }
}
