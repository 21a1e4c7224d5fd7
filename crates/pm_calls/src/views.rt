//! What the calls read of the book: each view is read once, and the checks of a call are made on it.

ghost use Rattle.std.specs.Prelude.{◌≡◌};
ghost use Rattle.pm_rows.specs.Rows.{now_of};
ghost use Rattle.pm_values.specs.Caches.{AreKept};
ghost use Rattle.pm_calls.specs.Views;
ghost use Rattle.pm_calls.specs.Views.{own_proc, proc_view, can_wake, wakeable, wake_view, can_suspend, is_asked, names_master, suspendable, suspendable_at, suspend_view, watched, status_view};

use pm_base::{Caps, Mode, NodeId, Unit, is_master_number};
use pm_object::MasterRec;
use pm_procs::{Proc, mode_number};
use pm_rows::Entry;
use pm_state::{Tables, master_node};
use pm_topology::Kind;
use pm_values::{Caches, value};

/// What a master sees of its row on a slave: the slave's place, if the node is one; the row, if the object permits
/// the pair; and the other master that uses the slave, if it can't be shared.
#[derive(Clone, Copy, Debug, PartialEq, Eq)]
pub struct RowView {
    pub slave: Option<usize>,
    pub entry: Option<Entry>,
    pub rival: Option<NodeId>,
}

/// The answer to a question for a node's status: its operating point, or None if the chip has no such node. Of a
/// slave it has the capabilities that the master requires of it now, and who uses it: 0 nobody, 1 only the master, 2
/// only others, 3 both.
#[derive(Clone, Copy, Debug, PartialEq, Eq)]
pub struct StatusView {
    pub state: Option<u32>,
    pub requested: Caps,
    pub usage: u32,
}

/// What a master sees of a processor: its place, if the node is one, and its mode and resume address, if it is its
/// own.
#[derive(Clone, Copy, Debug, PartialEq, Eq)]
pub struct ProcView {
    pub place: Option<usize>,
    pub own: Option<Proc>,
}

/// A processor that may be woken: the place of its owner, and its mode and resume address.
#[derive(Clone, Copy, Debug, PartialEq, Eq)]
pub struct Wakeable {
    pub owner: usize,
    pub proc: Proc,
}

/// What a master sees of a processor that it wants to wake: its place, if the node is one, and the processor, if it
/// may.
#[derive(Clone, Copy, Debug, PartialEq, Eq)]
pub struct WakeView {
    pub place: Option<usize>,
    pub target: Option<Wakeable>,
}

/// A master that may be asked to suspend: its place, whether a request is pending on it, its mode, and its timeout in
/// units of the script's time.
#[derive(Clone, Copy, Debug, PartialEq, Eq)]
pub struct Suspendable {
    pub master: usize,
    pub pending: bool,
    pub mode: Mode,
    pub timeout: u32,
}

/// What a master sees of another that it asks to suspend: whether the node can name a master, and the master, if the
/// object permits it.
#[derive(Clone, Copy, Debug, PartialEq, Eq)]
pub struct SuspendView {
    pub named: bool,
    pub target: Option<Suspendable>,
}

/// What a master sees of a node for which it sets a notifier: a slave, and whether the master may use it; a power
/// node; or neither.
#[derive(Clone, Copy, Debug, PartialEq, Eq)]
pub enum Watched {
    Nothing,
    PowerNode,
    SlaveNode { permitted: bool },
}

/// The capabilities that a row requires now; none without a row, or if it isn't used.
fn now_of(entry: Option<Entry>) -> Caps
    ensures { result ≡ now_of entry }
{
    match entry {
        Some(entry) if entry.row.used => entry.row.now,
        _ => Caps(0),
    }
}

/// The node of another master that uses this slave, if the slave can't be shared.
pub(crate) fn rival_node(tables: &Tables, master: usize, slave: usize) -> Option<NodeId>
    ensures { result ≡ Views.rival_node master slave tables.now }
{
    match tables.rows().rival(master, slave) {
        Some(rival) => Some(master_node(tables.object().masters.as_slice(), rival)),
        None => None,
    }
}

/// What a call reads of a processor: its place, and its mode and resume address if it is the caller's.
#[inline(always)]
pub(crate) fn proc_view(tables: &Tables, master: usize, node: NodeId) -> ProcView
    ensures { result ≡ proc_view master node tables.now }
{
    match tables.kind(node) {
        Kind::Proc(p) => ProcView {
            place: Some(p),
            own: own_proc(tables, master, p),
        },
        Kind::Slave(_) | Kind::Power(_) | Kind::Unknown => ProcView {
            place: None,
            own: None,
        },
    }
}

/// The mode and resume address of the processor at place `p`, if the master has it.
fn own_proc(tables: &Tables, master: usize, p: usize) -> Option<Proc>
    ensures { result ≡ own_proc master p tables.now }
{
    if tables.owns(master, p) {
        Some(tables.procs().proc(p))
    } else {
        None
    }
}

/// What REQUEST_WAKEUP reads of a processor: its place, and the processor if the caller may wake it.
pub(crate) fn wake_view(tables: &Tables, master: usize, node: NodeId) -> WakeView
    ensures { result ≡ wake_view master node tables.now }
{
    match tables.kind(node) {
        Kind::Proc(p) => WakeView {
            place: Some(p),
            target: wake_target(tables, master, p, tables.owner(p)),
        },
        Kind::Slave(_) | Kind::Power(_) | Kind::Unknown => WakeView {
            place: None,
            target: None,
        },
    }
}

/// The processor at place `p` with its owner, if it has one and the master may wake its processors.
fn wake_target(tables: &Tables, master: usize, p: usize, owner: Option<usize>) -> Option<Wakeable>
    ensures { result ≡ wakeable master p owner tables.now }
{
    let owner = owner?;
    if can_wake(tables, master, owner) {
        Some(Wakeable {
            owner,
            proc: tables.procs().proc(p),
        })
    } else {
        None
    }
}

/// Whether a master may wake the processors of `owner`: they are its own, or the object permits it.
fn can_wake(tables: &Tables, master: usize, owner: usize) -> bool
    ensures { result ≡ can_wake master owner tables.now }
{
    owner == master || tables.grants().permits_wake(master, owner)
}

/// The timeout of the master at a place, in units of the script's time; 0 if there is no such master.
fn master_timeout(masters: &[MasterRec], place: usize) -> u32
    ensures { result ≡ Views.master_timeout masters.now place }
{
    masters.get(place).map_or(0, |master| master.timeout)
}

/// Whether a request to suspend is pending on the master at a place.
pub(crate) fn is_asked(tables: &Tables, m: usize) -> bool
    ensures { result ≡ is_asked m tables.now }
{
    tables.procs().pending(m).is_some()
}

/// What REQUEST_SUSPEND reads: whether the node can name a master, and that master if the caller may suspend it.
pub(crate) fn suspend_view(tables: &Tables, master: usize, node: NodeId) -> SuspendView
    ensures { result ≡ suspend_view master node tables.now }
{
    SuspendView {
        named: names_master(tables, node),
        target: suspend_target(tables, master, tables.named_master(node)),
    }
}

/// Whether a node can name a master: it is a processor, or a master's number.
fn names_master(tables: &Tables, node: NodeId) -> bool
    ensures { result ≡ names_master tables.now.fixed node }
{
    matches!(tables.kind(node), Kind::Proc(_)) || is_master_number(node)
}

/// The master at a place as a target of REQUEST_SUSPEND; None if there is none, or the object doesn't permit it.
fn suspend_target(tables: &Tables, master: usize, target: Option<usize>) -> Option<Suspendable>
    ensures { result ≡ suspendable master target tables.now }
{
    let target = target?;
    if can_suspend(tables, master, target) {
        Some(suspendable_at(tables, target))
    } else {
        None
    }
}

/// The master at a place as a target of REQUEST_SUSPEND, with its timeout by the object in force.
fn suspendable_at(tables: &Tables, target: usize) -> Suspendable
    ensures { result ≡ suspendable_at target tables.now }
{
    Suspendable {
        master: target,
        pending: is_asked(tables, target),
        mode: tables.mode_of_master(target),
        timeout: master_timeout(tables.in_force().masters.as_slice(), target),
    }
}

/// Whether the object permits a master to ask another one to suspend.
fn can_suspend(tables: &Tables, master: usize, target: usize) -> bool
    ensures { result ≡ can_suspend master target tables.now }
{
    tables.grants().permits_suspend(master, target)
}

/// What REGISTER_NOTIFIER reads of a node: its kind, and of a slave whether the caller may use it.
pub(crate) fn watched_node(tables: &Tables, master: usize, node: NodeId) -> Watched
    ensures { result ≡ watched master node tables.now }
{
    match tables.kind(node) {
        Kind::Slave(slave) => Watched::SlaveNode {
            permitted: tables.grants().permits_use(master, slave),
        },
        Kind::Power(_) => Watched::PowerNode,
        Kind::Proc(_) | Kind::Unknown => Watched::Nothing,
    }
}

/// The status of a node that isn't a slave: its operating point alone.
fn plain(value: u32) -> StatusView
    ensures { result ≡ Views.plain value }
{
    StatusView {
        state: Some(value),
        requested: Caps(0),
        usage: 0,
    }
}

/// What GET_NODE_STATUS reads of a node (UG1200, PM_GET_NODE_STATUS).
pub(crate) fn status_view(
    tables: &Tables,
    caches: &Caches,
    master: usize,
    node: NodeId,
) -> StatusView
    requires { AreKept tables.now caches.now }
    ensures { result ≡ status_view master node tables.now }
{
    match tables.kind(node) {
        Kind::Unknown => StatusView {
            state: None,
            requested: Caps(0),
            usage: 0,
        },
        Kind::Proc(p) => plain(mode_number(tables.procs().mode(p))),
        Kind::Power(_) => plain(value(tables, caches, Unit::Node(node))),
        Kind::Slave(slave) => StatusView {
            state: Some(value(tables, caches, Unit::Node(node))),
            requested: now_of(tables.rows().entry_at(master, slave)),
            usage: tables.rows().usage(master, slave),
        },
    }
}
