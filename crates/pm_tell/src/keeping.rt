//! The notes that wait for a master that is asleep.

ghost use Rattle.std.specs.Prelude.{◌≡◌, flat_map, map};
ghost use Rattle.pm_tell.specs.Callbacks as spec;
ghost use Rattle.pm_tell.specs.Callbacks.{notes_of_master};
ghost use Rattle.pm_state.specs.Talk.{talked, wait_of};
ghost use Rattle.pm_tell.specs.Telling.{news_in};

use crate::callbacks::acknowledged_to;
use crate::ended::Ended;
use crate::telling::Telling;
use pm_notify::{NodeEvent, Note, Waiting, notifiers_are_kept};
use pm_state::Tables;

/// Whether the master at a place has asked to be told this of a node.
#[inline(always)]
pub(crate) fn is_wanted(tables: &Tables, k: usize, notice: Waiting) -> bool
    ensures { result ≡ spec.is_wanted (notes_of_master k tables.now) notice notice.note }
{
    match notice.note {
        Note::Ack { .. } => false,
        Note::Change => tables.notify().asked(k, notice.node, NodeEvent::Change),
        Note::ZeroUsers => tables.notify().asked(k, notice.node, NodeEvent::ZeroUsers),
    }
}

/// The notes to a master that is asleep wait.
pub(crate) fn keep_notes(tables: &mut Tables, telling: &Telling, k: usize)
    ensures { tables.new
        ≡ talked (map (wait_of k) (spec.notes_to (news_in telling.now) k (notes_of_master k tables.old))) tables.old }
{
    notifiers_are_kept();
    keep_ended(tables, k, telling.ended());
    keep_notices(tables, k, telling.notices());
}

/// Keeps the acknowledgements of ended requests for the master at a place, which is asleep.
fn keep_ended(tables: &mut Tables, k: usize, ended: &[Ended])
    ensures { tables.new ≡ talked (map (wait_of k) (flat_map (spec.acknowledged_to k) ended.now)) tables.old }
{
    for end in ended {
        keep_end(tables, k, end);
    }
}

/// Keeps the acknowledgement of an ended request, if the master at a place made it and wants a callback.
fn keep_end(tables: &mut Tables, k: usize, end: &Ended)
    ensures { tables.new ≡ talked (map (wait_of k) (spec.acknowledged_to k end.now)) tables.old }
{
    if let Some(waiting) = acknowledged_to(k, end) {
        tables.wait_note(k, waiting);
    }
}

/// Keeps the node events that the master at a place, which is asleep, asked for.
fn keep_notices(tables: &mut Tables, k: usize, notices: &[Waiting])
    ensures { tables.new
        ≡ talked (map (wait_of k) (flat_map (spec.noticed_by (notes_of_master k tables.old)) notices.now)) tables.old }
{
    notifiers_are_kept();
    for notice in notices {
        keep_notice(tables, k, *notice);
    }
}

/// Keeps a node event, if the master at a place asked for it.
fn keep_notice(tables: &mut Tables, k: usize, notice: Waiting)
    ensures { tables.new ≡ talked (map (wait_of k) (spec.noticed_by (notes_of_master k tables.old) notice)) tables.old }
{
    if is_wanted(tables, k, notice) {
        tables.wait_note(k, notice);
    }
}
