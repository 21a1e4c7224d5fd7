//! The callbacks to the masters in a step.

ghost use Rattle.std.specs.Prelude.{◌≡◌, ◌+◌, ◌<◌, ◌≤◌, ◌++◌, false, length, flat_map, map, option_to_list};
ghost use Rattle.pm_tell.specs.Callbacks.{callbacks_at_most, notes_of_master, told_if};
ghost use Rattle.pm_state.specs.Units.{unit_count};
ghost use Rattle.pm_notify.specs.MasterNotes.{waiting_in};
ghost use Rattle.pm_base.specs.declared.names.Mode.TheVariants.{Asleep};
ghost use Rattle.pm_procs.specs.Modes.{same_mode};
ghost use Rattle.pm_values.specs.Caches.{AreKept};
ghost use Rattle.pm_tell.specs.Callbacks as spec;
ghost use Rattle.pm_state.specs.Members.{mode_of_master};
ghost use Rattle.pm_values.specs.Notifications.{notice_count};
ghost use Rattle.pm_state.specs.Sound.{HasNotes};
ghost use Rattle.pm_state.specs.Talk.{take_of, talked};
ghost use Rattle.pm_tell.specs.Telling.{NoneWakes, mode_before, news_in};
ghost use Rattle.pm_values.specs.Along.{modes_of};

use crate::ended::Ended;
use crate::keeping::{is_wanted, keep_notes};
use crate::telling::Telling;
use pm_base::{BoundedList, Mode, NodeId};
use pm_calls::Asked;
use pm_ipi::AckKind;
use pm_ipi::callbacks::{ACKNOWLEDGE, INIT_SUSPEND, NOTIFY, REASON_MASTER};
use pm_notify::{
    NodeEvent, Note, Waiting, notifiers_are_kept, others_keep_their_notes, takes_drain_the_slots,
};
use pm_procs::{is_awake, same_mode};
use pm_state::{Tables, master_node};
use pm_topology::units_stand_in_order;
use pm_values::{Caches, point};

/// A callback to a master: its number and its arguments (UG1200, callbacks). Missing arguments are 0.
#[derive(Clone, Copy, Debug, PartialEq, Eq)]
pub struct Callback {
    pub master: NodeId,
    pub id: u32,
    pub args: [u32; 4],
}

/// The callback that asks a master to suspend (UG1200, callback 30).
fn init_suspend(master: NodeId, asked: &Asked) -> Callback
    ensures { result ≡ spec.init_suspend master asked.now }
{
    Callback {
        master,
        id: INIT_SUSPEND,
        args: [REASON_MASTER, asked.latency, asked.state, asked.timeout],
    }
}

/// The callback that asks the master at a place to suspend, if that is the one that is asked.
fn asks_to(k: usize, master: NodeId, asks: Option<Asked>) -> Option<Callback>
    ensures { option_to_list result ≡ spec.asks_to k master asks }
{
    let asked = asks?;
    if asked.target == k {
        Some(init_suspend(master, &asked))
    } else {
        None
    }
}

/// Puts the callback that asks the master at a place to suspend into `callbacks`, if that is the one that is asked.
fn tell_asked(k: usize, master: NodeId, asks: Option<Asked>, callbacks: &mut BoundedList<Callback>)
    requires { length callbacks.old.items < callbacks.old.room }
    ensures callbacks { callbacks.new
        ≡ record callbacks.old { items = callbacks.old.items ++ spec.asks_to k master asks } }
    ensures few { length callbacks.new.items ≤ length callbacks.old.items + 1 }
{
    if let Some(callback) = asks_to(k, master, asks) {
        callbacks.push(callback);
    }
}

/// The callback that tells of an event of a node (UG1200, callback 32), with its operating point.
fn notification(master: NodeId, node: NodeId, event: NodeEvent, now: u32) -> Callback
    ensures { result ≡ spec.notification master node event now }
{
    Callback {
        master,
        id: NOTIFY,
        args: [node.0, event.number(), now, 0],
    }
}

/// A note as a callback (UG1200, callbacks 31 and 32), with the operating point of its node.
fn callback_by(master: NodeId, node: NodeId, now: u32, note: Note) -> Callback
    ensures { result ≡ spec.callback_by master node now note }
{
    match note {
        Note::Ack { status } => Callback {
            master,
            id: ACKNOWLEDGE,
            args: [node.0, status, now, 0],
        },
        Note::Change => notification(master, node, NodeEvent::Change, now),
        Note::ZeroUsers => notification(master, node, NodeEvent::ZeroUsers, now),
    }
}

/// The acknowledgement of a request that ended, for the master at a place, if that asked and wants it.
pub(crate) fn acknowledged_to(k: usize, end: &Ended) -> Option<Waiting>
    ensures { option_to_list result ≡ spec.acknowledged_to k end.now }
{
    match end.request.ack {
        AckKind::NonBlocking if end.request.by == k => Some(Waiting {
            node: end.request.node,
            note: Note::Ack { status: end.status },
        }),
        AckKind::No | AckKind::Blocking | AckKind::NonBlocking => None,
    }
}

/// Tells each master the news, in object order: one that is active or suspending by callbacks into `callbacks`, and one
/// that is asleep by notes that wait.
pub(crate) fn tell_masters(
    tables: &mut Tables,
    caches: &Caches,
    telling: &Telling,
    callbacks: &mut BoundedList<Callback>,
)
    requires kept { AreKept tables.old caches.now }
    requires notes { HasNotes tables.old }
    requires modes { telling.now.moved ≡ false → telling.now.modes.items ≡ modes_of tables.old }
    requires ended { length telling.now.ended.items ≤ length tables.old.fixed.object.masters }
    requires notices { length telling.now.notices.items ≤ notice_count (unit_count tables.old.fixed.topology) }
    requires room { length callbacks.old.items + callbacks_at_most tables.old ≤ callbacks.old.room }
    ensures book { tables.new
        ≡ talked (spec.note_changes (news_in telling.now) (mode_before telling.now) tables.old.now.talk.notes
        tables.old) tables.old }
    ensures callbacks { callbacks.new ≡ record callbacks.old {
      items = callbacks.old.items
          ++ spec.callbacks (news_in telling.now) (mode_before telling.now) tables.old.now.talk.notes tables.old;
    } }
{
    others_keep_their_notes();
    takes_drain_the_slots();
    units_stand_in_order();
    // Most steps have nothing to tell.
    if telling.has_no_news(tables) && !one_wakes(tables, telling) {
        return;
    }
    for k in 0..tables.masters() {
        let master = master_node(tables.object().masters.as_slice(), k);
        tell_master(tables, caches, telling, k, master, callbacks);
    }
}

/// Whether some master was asleep before the step and is active or suspending after it. Otherwise no note that waited
/// is told.
fn one_wakes(tables: &Tables, telling: &Telling) -> bool
    requires modes { telling.now.moved ≡ false → telling.now.modes.items ≡ modes_of tables.now }
    ensures { result ≡ false → NoneWakes telling.now tables.now }
{
    if !telling.moved {
        return false;
    }
    for k in 0..tables.masters() {
        if same_mode(telling.mode(k), Mode::Asleep) && is_awake(tables.mode_of_master(k)) {
            return true;
        }
    }
    false
}

/// Tells the master at a place the news. Nothing is told to one that is off.
fn tell_master(
    tables: &mut Tables,
    caches: &Caches,
    telling: &Telling,
    k: usize,
    master: NodeId,
    callbacks: &mut BoundedList<Callback>,
)
    requires kept { AreKept tables.old caches.now }
    requires room { length callbacks.old.items + (length (waiting_in (notes_of_master k tables.old))
        + (1 + (length telling.now.ended.items + length telling.now.notices.items))) ≤ callbacks.old.room }
    ensures book { tables.new ≡ talked (spec.note_changes_at (news_in telling.now) k (mode_before telling.now k)
        (mode_of_master tables.old.fixed tables.old.now.core k) (notes_of_master k tables.old)) tables.old }
    ensures callbacks { callbacks.new ≡ record callbacks.old {
      items = callbacks.old.items ++ spec.called_back (news_in telling.now) k master (mode_before telling.now k)
          (mode_of_master tables.old.fixed tables.old.now.core k) (notes_of_master k tables.old) tables.old;
    } }
{
    match tables.mode_of_master(k) {
        Mode::Off => {}
        Mode::Asleep => keep_notes(tables, telling, k),
        Mode::Active | Mode::Suspending => {
            tell_awake(tables, caches, telling, k, master, callbacks);
        }
    }
}

/// Puts the callbacks to a master into `callbacks`: of all notes that wait, if it was asleep before the step, of the
/// request to suspend, and of the new notes to it.
fn tell_awake(
    tables: &mut Tables,
    caches: &Caches,
    telling: &Telling,
    k: usize,
    master: NodeId,
    callbacks: &mut BoundedList<Callback>,
)
    requires kept { AreKept tables.old caches.now }
    requires room { length callbacks.old.items + (length (waiting_in (notes_of_master k tables.old))
        + (1 + (length telling.now.ended.items + length telling.now.notices.items))) ≤ callbacks.old.room }
    ensures book { tables.new
        ≡ talked (map (take_of k) (told_if (same_mode (mode_before telling.now k) Asleep)
        (notes_of_master k tables.old)))
        tables.old }
    ensures callbacks { callbacks.new ≡ record callbacks.old {
      items = callbacks.old.items
          ++ (map (spec.callback_of master tables.old)
          (told_if (same_mode (mode_before telling.now k) Asleep) (notes_of_master k tables.old))
          ++ (spec.asks_to k master telling.now.asks
          ++ map (spec.callback_of master tables.old) (spec.notes_to (news_in telling.now) k
          (notes_of_master k tables.old))));
    } }
{
    notifiers_are_kept();
    tell_woken(tables, caches, telling.mode(k), k, master, callbacks);
    tell_news(tables, caches, telling, k, master, callbacks);
}

/// Takes out all that waits for a master that was asleep before the step, and puts it into `callbacks`.
fn tell_woken(
    tables: &mut Tables,
    caches: &Caches,
    was: Mode,
    k: usize,
    master: NodeId,
    callbacks: &mut BoundedList<Callback>,
)
    requires kept { AreKept tables.old caches.now }
    requires room { length callbacks.old.items + length (waiting_in (notes_of_master k tables.old))
        ≤ callbacks.old.room }
    ensures book { tables.new
        ≡ talked (map (take_of k) (told_if (same_mode was Asleep) (notes_of_master k tables.old))) tables.old }
    ensures callbacks { callbacks.new ≡ record callbacks.old {
      items = callbacks.old.items ++ map (spec.callback_of master tables.old)
          (told_if (same_mode was Asleep) (notes_of_master k tables.old));
    } }
{
    if same_mode(was, Mode::Asleep) {
        tell_waiting(tables, caches, k, master, callbacks);
    }
}

/// Takes out all that waits for a master and puts it into `callbacks`, with the operating points of now.
fn tell_waiting(
    tables: &mut Tables,
    caches: &Caches,
    k: usize,
    master: NodeId,
    callbacks: &mut BoundedList<Callback>,
)
    requires kept { AreKept tables.old caches.now }
    requires room { length callbacks.old.items + length (waiting_in (notes_of_master k tables.old))
        ≤ callbacks.old.room }
    ensures book { tables.new ≡ talked (map (take_of k) (waiting_in (notes_of_master k tables.old))) tables.old }
    ensures callbacks { callbacks.new ≡ record callbacks.old {
      items = callbacks.old.items
          ++ map (spec.callback_of master tables.old) (waiting_in (notes_of_master k tables.old));
    } }
{
    takes_drain_the_slots();
    'notes: while let Some(waiting) = tables.take_note(k) {
        callbacks.push(callback_of(tables, caches, master, waiting));
    }
}

/// A note as a callback, with the operating point of its node now.
fn callback_of(tables: &Tables, caches: &Caches, master: NodeId, waiting: Waiting) -> Callback
    requires { AreKept tables.now caches.now }
    ensures { result ≡ spec.callback_of master tables.now waiting }
{
    let now = point(tables, caches, waiting.node);
    callback_by(master, waiting.node, now, waiting.note)
}

/// Puts into `callbacks` that a master is asked to suspend, and the notes to it.
fn tell_news(
    tables: &Tables,
    caches: &Caches,
    telling: &Telling,
    k: usize,
    master: NodeId,
    callbacks: &mut BoundedList<Callback>,
)
    requires kept { AreKept tables.now caches.now }
    requires room { length callbacks.old.items
        + (1 + (length telling.now.ended.items + length telling.now.notices.items)) ≤ callbacks.old.room }
    ensures { callbacks.new ≡ record callbacks.old {
      items = callbacks.old.items ++ (spec.asks_to k master telling.now.asks
          ++ map (spec.callback_of master tables.now) (spec.notes_to (news_in telling.now) k
          (notes_of_master k tables.now)));
    } }
{
    tell_asked(k, master, telling.asks(), callbacks);
    tell_ended(tables, caches, k, master, telling.ended(), callbacks);
    tell_notices(tables, caches, k, master, telling.notices(), callbacks);
}

/// Puts out the acknowledgements (31) of ended requests that the master at place `k` made, in their order.
fn tell_ended(
    tables: &Tables,
    caches: &Caches,
    k: usize,
    master: NodeId,
    ended: &[Ended],
    callbacks: &mut BoundedList<Callback>,
)
    requires kept { AreKept tables.now caches.now }
    requires room { length callbacks.old.items + length ended.now ≤ callbacks.old.room }
    ensures callbacks { callbacks.new ≡ record callbacks.old {
      items = callbacks.old.items
          ++ map (spec.callback_of master tables.now) (flat_map (spec.acknowledged_to k) ended.now);
    } }
    ensures few { length callbacks.new.items ≤ length callbacks.old.items + length ended.now }
{
    for end in ended {
        if let Some(waiting) = acknowledged_to(k, end) {
            callbacks.push(callback_of(tables, caches, master, waiting));
        }
    }
}

/// Puts out the notifications (32) of node events that the master at place `k` asked for, in their order.
fn tell_notices(
    tables: &Tables,
    caches: &Caches,
    k: usize,
    master: NodeId,
    notices: &[Waiting],
    callbacks: &mut BoundedList<Callback>,
)
    requires kept { AreKept tables.now caches.now }
    requires room { length callbacks.old.items + length notices.now ≤ callbacks.old.room }
    ensures callbacks { callbacks.new ≡ record callbacks.old {
      items = callbacks.old.items ++ map (spec.callback_of master tables.now)
          (flat_map (spec.noticed_by (notes_of_master k tables.now)) notices.now);
    } }
{
    // Most books have no notifier at all.
    if !tables.notify().may_ask() {
        return;
    }
    for notice in notices {
        if is_wanted(tables, k, *notice) {
            callbacks.push(callback_of(tables, caches, master, *notice));
        }
    }
}
