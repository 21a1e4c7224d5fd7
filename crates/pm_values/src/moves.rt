//! Which units a step moves, and what happens to them.

ghost use Rattle.std.specs.Prelude.{◌≡◌, ◌+◌, ◌<◌, ◌≤◌, length, slice_get};
ghost use Rattle.pm_topology.specs.UnitMap.{with_value_at};
ghost use Rattle.pm_values.specs.Caches.{is_settled, kind_value, moved_at, noticed_at, revalued};
ghost use Rattle.pm_values.specs.Found.{RestAsFound, freed_found, moves_found, notices_found, start_found, starts_found, value_found, with_more};
ghost use Rattle.pm_values.specs.Notifications.{notice_count};

use crate::caches::UnitKind;
use crate::found::Found;
use crate::marks::Marks;
use crate::notifications::log_notice;
use crate::starts::{Start, log_start};
use pm_base::{BoundedList, Unit, at_or};
use pm_notify::Waiting;
use pm_procs::{Procs, is_awake};
use pm_topology::{Kind, UnitMap};

/// Writes the value of each unit by its kind, puts those units into `moved` whose value isn't the one before, the
/// processors that are active now and were down by what is kept along the step into `starts`, and what happened to each
/// unit into `notices`.
pub(crate) fn log_units(
    found: &Found,
    kinds: &[UnitKind],
    awake: &Marks,
    values: &mut UnitMap<u32>,
    moved: &mut BoundedList<Unit>,
    starts: &mut BoundedList<Start>,
    notices: &mut BoundedList<Waiting>,
)
    requires settled { RestAsFound found.now awake.now kinds.now values.old }
    requires marks { length awake.now ≡ length kinds.now }
    requires places { length kinds.now ≡ length values.old }
    requires room { length moved.old.items + length values.old ≤ moved.old.room }
    requires starts { length starts.old.items + length (starts_found found.now kinds.now values.old)
        ≤ starts.old.room }
    requires notices { length notices.old.items + notice_count (length values.old) ≤ notices.old.room }
    ensures values { values.new ≡ revalued (value_found found.now) kinds.now values.old }
    ensures moved { moved.new ≡ with_more (moves_found found.now kinds.now values.old) moved.old }
    ensures starts { starts.new ≡ with_more (starts_found found.now kinds.now values.old) starts.old }
    ensures notices { notices.new ≡ with_more (notices_found found.now kinds.now values.old) notices.old }
    ensures few { length notices.new.items ≤ length notices.old.items + notice_count (length values.old) }
{
    let mut k = 0;
    while k < kinds.len() {
        log_kind(k, kinds[k], found, values, moved, starts, notices);
        k = awake.past(k);
    }
}

/// Writes the value of the unit at a place, of this kind, and logs what moved, started and happened there.
fn log_kind(
    k: usize,
    kind: UnitKind,
    found: &Found,
    values: &mut UnitMap<u32>,
    moved: &mut BoundedList<Unit>,
    starts: &mut BoundedList<Start>,
    notices: &mut BoundedList<Waiting>,
)
    requires room { length moved.old.items < moved.old.room }
    requires starts { length starts.old.items + length (start_found found.now kind (slice_get values.old k))
        ≤ starts.old.room }
    requires notices { length notices.old.items + 2 ≤ notices.old.room }
    ensures values { values.new ≡ with_value_at k (value_found found.now kind) values.old }
    ensures moved { moved.new
        ≡ with_more (moved_at (value_found found.now kind) (slice_get values.old k)) moved.old }
    ensures starts { starts.new ≡ with_more (start_found found.now kind (slice_get values.old k)) starts.old }
    ensures notices { notices.new
        ≡ with_more (noticed_at (value_found found.now kind) (freed_found found.now kind) (slice_get values.old k))
        notices.old }
    ensures few { length notices.new.items ≤ length notices.old.items + 2 }
{
    log_start(found, kind, k, values, starts);
    log_unit(
        k,
        found.value(kind),
        found.is_freed(kind),
        values,
        moved,
        notices,
    );
}

/// Writes the value of the unit at a place, puts the unit into `moved` if that isn't the one before, and what happened
/// to it into `notices`.
fn log_unit(
    k: usize,
    value: u32,
    freed: bool,
    values: &mut UnitMap<u32>,
    moved: &mut BoundedList<Unit>,
    notices: &mut BoundedList<Waiting>,
)
    requires room { length moved.old.items < moved.old.room }
    requires notices { length notices.old.items + 2 ≤ notices.old.room }
    ensures values { values.new ≡ with_value_at k value values.old }
    ensures moved { moved.new ≡ with_more (moved_at value (slice_get values.old k)) moved.old }
    ensures notices { notices.new ≡ with_more (noticed_at value freed (slice_get values.old k)) notices.old }
    ensures few { length notices.new.items ≤ length notices.old.items + 2 }
{
    let entry = values.entry(k);
    if is_settled(entry, value, freed) {
        return;
    }
    log_change(k, entry, value, freed, values, moved, notices);
}

/// Writes the value of a unit to which something happened, by its entry, and logs that it moved.
fn log_change(
    k: usize,
    entry: Option<(Unit, u32)>,
    value: u32,
    freed: bool,
    values: &mut UnitMap<u32>,
    moved: &mut BoundedList<Unit>,
    notices: &mut BoundedList<Waiting>,
)
    requires entry { entry ≡ slice_get values.old k }
    requires room { length moved.old.items < moved.old.room }
    requires notices { length notices.old.items + 2 ≤ notices.old.room }
    ensures values { values.new ≡ with_value_at k value values.old }
    ensures moved { moved.new ≡ with_more (moved_at value (slice_get values.old k)) moved.old }
    ensures notices { notices.new ≡ with_more (noticed_at value freed (slice_get values.old k)) notices.old }
    ensures few { length notices.new.items ≤ length notices.old.items + 2 }
{
    log_notice(entry, value, freed, notices);
    log_move(entry, value, moved);
    values.set_at(k, value);
}

/// Whether nothing happened to the unit of an entry: its value is the one before, and it wasn't left without users.
pub(crate) fn is_settled(entry: Option<(Unit, u32)>, value: u32, freed: bool) -> bool
    ensures { result ≡ is_settled value freed entry }
{
    match entry {
        Some((_, before)) => before == value && !freed,
        None => false,
    }
}

/// Puts the unit of an entry into `moved` if this value isn't the one before.
fn log_move(entry: Option<(Unit, u32)>, value: u32, moved: &mut BoundedList<Unit>)
    requires { length moved.old.items < moved.old.room }
    ensures { moved.new ≡ with_more (moved_at value entry) moved.old }
{
    if let Some((unit, before)) = entry {
        if before != value {
            moved.push(unit);
        }
    }
}

/// The value of a node of this kind: the state of a slave, 1 for a processor that runs and for a power
/// node that is up, and else 0.
pub(crate) fn kind_value(kind: Kind, states: &[u32], procs: &Procs, ups: &[bool]) -> u32
    ensures { result ≡ kind_value states.now procs.now.procs ups.now kind }
{
    match kind {
        Kind::Slave(place) => at_or(states, place, 0),
        Kind::Power(place) => { if at_or(ups, place, false) { 1 } else { 0 } }
        Kind::Proc(place) => { if is_awake(procs.mode(place)) { 1 } else { 0 } }
        Kind::Unknown => 0,
    }
}
