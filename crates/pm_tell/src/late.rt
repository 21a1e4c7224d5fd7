//! Late replies.

ghost use Rattle.std.specs.Prelude.{◌≡◌, ◌+◌, ◌≤◌, ◌++◌, length, option_to_list};
ghost use Rattle.pm_tell.specs.Callbacks as spec;

use crate::ended::Ended;
use pm_base::{BoundedList, NodeId};
use pm_ipi::AckKind;
use pm_state::{Tables, master_node};

/// A reply to a master whose request that another one suspends has ended, with the status of its end.
#[derive(Clone, Copy, Debug, PartialEq, Eq)]
pub struct Late {
    pub master: NodeId,
    pub status: u32,
}

/// The late reply for a request that ended, if the master that asked wants one.
fn late_by(ack: AckKind, master: NodeId, status: u32) -> Option<Late>
    ensures { option_to_list result ≡ spec.late_by ack master status }
{
    match ack {
        AckKind::Blocking => Some(Late { master, status }),
        AckKind::No | AckKind::NonBlocking => None,
    }
}

/// Puts the late replies for these requests into `late`.
pub(crate) fn tell_late(tables: &Tables, ended: &[Ended], late: &mut BoundedList<Late>)
    requires room { length late.old.items + length ended.now ≤ late.old.room }
    ensures { late.new ≡ record late.old { items = late.old.items ++ spec.late_replies ended.now tables.now } }
{
    for end in ended {
        if let Some(reply) = late_of(tables, end) {
            late.push(reply);
        }
    }
}

/// The late reply to whoever made a request that ended, if that was asked for.
fn late_of(tables: &Tables, end: &Ended) -> Option<Late>
    ensures { option_to_list result ≡ spec.late_of tables.now end.now }
{
    let asking = master_node(tables.object().masters.as_slice(), end.request.by);
    late_by(end.request.ack, asking, end.status)
}
