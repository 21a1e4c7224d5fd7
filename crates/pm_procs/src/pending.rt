//! Requests to suspend that are pending (UG1200, request suspend).

ghost use Rattle.std.specs.Prelude.{◌≡◌, IfOk, option_map, slice_set};
ghost use Rattle.pm_procs.specs.Pending as spec;
ghost use Rattle.pm_procs.specs.Pending.{all_ended, all_lowered, none_pending, request_of};

use pm_base::{NoMemory, NodeId};
use pm_ipi::AckKind;
use std::alloc::Global;

/// The timeout of a master on which no request to suspend is ever due.
pub const NEVER: u32 = 0xFFFF_FFFF;

/// A request to suspend that is pending on a master: the place of the master that asked, how it wants to
/// hear of the end, the node that it named, and the time that is left until the request is due. `None`
/// is never due.
#[derive(Clone, Copy, Debug, PartialEq, Eq)]
pub struct Pending {
    pub by: usize,
    pub ack: AckKind,
    pub node: NodeId,
    pub left: Option<u32>,
}

impl Pending {
    /// The request that a master makes now. Its time is the timeout of the master that it asks.
    pub fn new(by: usize, ack: AckKind, node: NodeId, timeout: u32) -> Pending
        ensures { result ≡ request_of by ack node timeout }
    {
        Pending {
            by,
            ack,
            node,
            left: time_left(timeout),
        }
    }

    /// The request after so many units of time: what was left of its time is less by that, or 0 where
    /// it was no more.
    pub fn lowered(self, count: u32) -> Pending
        ensures { result ≡ spec.lowered count self }
    {
        Pending {
            left: self.left.map(|left| left.saturating_sub(count)),
            ..self
        }
    }

    /// Whether the request is due if so many units of time pass: no more than that is left of its
    /// time. One of which no time is left is due in any tick, also in one of 0 units.
    pub fn is_due(&self, count: u32) -> bool
        ensures { result ≡ spec.is_due count self.now }
    {
        match self.left {
            None => false,
            Some(left) => left <= count,
        }
    }
}

/// The time until a request is due, by the timeout of the master that is asked.
fn time_left(timeout: u32) -> Option<u32>
    ensures { result ≡ spec.time_left timeout }
{
    if timeout == NEVER {
        None
    } else {
        Some(timeout)
    }
}

/// Nothing is pending on any of so many masters.
pub(crate) fn none_pending(alloc: Global, masters: usize) -> Result<Vec<Option<Pending>>, NoMemory>
    ensures { IfOk result (λ pending. pending.items ≡ spec.none_pending masters) }
{
    vec![in alloc; None; masters].map_err(|_| NoMemory)
}

/// Sets what is pending on the master at a place. Nothing changes if it isn't there.
pub(crate) fn set_pending(pending: &mut [Option<Pending>], master: usize, request: Option<Pending>)
    ensures { pending.new ≡ slice_set pending.old master request }
{
    if master < pending.len() {
        pending[master] = request;
    }
}

/// So many units of time pass for each request.
pub(crate) fn lower_all(pending: &mut [Option<Pending>], count: u32)
    ensures { pending.new ≡ all_lowered count pending.old }
{
    for request in pending.iter_mut() {
        *request = lowered_request(*request, count);
    }
}

/// Nothing is pending on any master any more.
pub(crate) fn end_all(pending: &mut [Option<Pending>])
    ensures { pending.new ≡ all_ended pending.old }
{
    for request in pending.iter_mut() {
        *request = None;
    }
}

/// A request, if there is one, after so many units of time.
fn lowered_request(request: Option<Pending>, count: u32) -> Option<Pending>
    ensures { result ≡ option_map (spec.lowered count) request }
{
    request.map(|request| request.lowered(count))
}
