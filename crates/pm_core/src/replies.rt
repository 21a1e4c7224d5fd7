//! How a message is answered.

use pm_base::NodeId;
use pm_ipi::Response;

/// What the sender of a message gets.
#[derive(Clone, Copy, Debug, PartialEq, Eq)]
pub enum Answer {
    /// Nothing: the event is no message, or its call wants no acknowledgement.
    Silent,
    /// Nothing: the sender is no configured master, or is asleep or off, so that its message was dropped.
    Drop {
        master: NodeId,
    },
    /// A reply to the sender.
    Reply {
        master: NodeId,
        response: Response,
    },
    /// The acknowledge callback (UG1200, callback 31): the node of the call, its status, and the
    /// node's operating point after the step. It is written where `shown` is set.
    Ack {
        master: NodeId,
        node: NodeId,
        status: u32,
        point: u32,
        shown: bool,
    },
}
