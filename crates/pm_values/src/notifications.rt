//! What happens to nodes in a step: which change, and which have no users any more.

ghost use Rattle.std.specs.Prelude.{◌≡◌, ◌+◌, ◌<◌, ◌≤◌, false, length, slice_get, slice_set};
ghost use Rattle.pm_values.specs.Caches.{freed_by, noticed_at, renewed_at, use_of};
ghost use Rattle.pm_values.specs.Found.{with_more};
ghost use Rattle.pm_values.specs.Notifications as spec;
ghost use Rattle.pm_state.specs.Values.{placed};

use crate::caches::UnitKind;
use pm_base::{BoundedList, NodeId, Unit, at_or};
use pm_notify::{Note, Waiting};
use pm_rows::Rows;
use pm_state::Tables;
use pm_topology::Kind;

/// Whether a unit of this kind was used, and is used no more.
pub(crate) fn freed(kind: UnitKind, used: &[bool], rows: &Rows) -> bool
    ensures { result ≡ freed_by used.now rows.now kind }
{
    match kind {
        UnitKind::Entry(Kind::Slave(s)) => at_or(used, s, false) && !is_used(s, rows),
        UnitKind::Entry(Kind::Proc(_) | Kind::Power(_) | Kind::Unknown) => false,
        UnitKind::Reset(_) => false,
    }
}

/// Whether some master uses the slave at a place.
fn is_used(s: usize, rows: &Rows) -> bool
    ensures { result ≡ spec.is_used s rows.now }
{
    rows.users(s) != 0
}

/// Puts what happened to the unit of an entry into `notices`, by its value before.
#[inline(always)]
pub(crate) fn log_notice(
    entry: Option<(Unit, u32)>,
    value: u32,
    freed: bool,
    notices: &mut BoundedList<Waiting>,
)
    requires { length notices.old.items + 2 ≤ notices.old.room }
    ensures notices { notices.new ≡ with_more (noticed_at value freed entry) notices.old }
    ensures few { length notices.new.items ≤ length notices.old.items + 2 }
{
    if let Some((Unit::Node(node), before)) = entry {
        log_if(before != value, node, Note::Change, notices);
        log_if(freed, node, Note::ZeroUsers, notices);
    }
}

/// Puts a note about a node into `notices`, if that happened to it.
fn log_if(happened: bool, node: NodeId, note: Note, notices: &mut BoundedList<Waiting>)
    requires { length notices.old.items < notices.old.room }
    ensures notices { notices.new ≡ with_more (spec.log_if happened node note) notices.old }
    ensures few { length notices.new.items ≤ length notices.old.items + 1 }
{
    if happened {
        notices.push(Waiting { node, note });
    }
}

/// Writes whether some master uses each slave.
pub(crate) fn log_uses(tables: &Tables, used: &mut [bool])
    requires { length used.old ≡ length tables.now.fixed.topology.slaves }
    ensures { used.new ≡ placed (use_of tables.now.now.core) 0 tables.now.fixed.topology.slaves }
{
    let t = tables.topology();
    for s in 0..t.slaves.len() {
        used[s] = is_used(s, tables.rows());
    }
}

/// Writes whether some master uses the slave at a place.
pub(crate) fn log_use(tables: &Tables, s: usize, used: &mut [bool])
    ensures { used.new ≡ slice_set used.old s (spec.is_used s tables.now.now.core.rows) }
{
    if s < used.len() {
        used[s] = is_used(s, tables.rows());
    }
}

/// Writes whether some master uses the slave at a place, if it is asked for.
pub(crate) fn log_use_if(tables: &Tables, asked: bool, s: usize, used: &mut [bool])
    requires { length used.old ≡ length tables.now.fixed.topology.slaves }
    ensures { used.new ≡ renewed_at asked (use_of tables.now.now.core) s
        (slice_get tables.now.fixed.topology.slaves s) used.old }
{
    if asked {
        log_use(tables, s, used);
    }
}
