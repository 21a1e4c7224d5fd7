//! Which processors a step starts.

ghost use Rattle.std.specs.Prelude.{◌≡◌, ◌+◌, ◌≤◌, length, option_to_list, slice_get};
ghost use Rattle.pm_base.specs.declared.names.Unit.TheVariants.{Node};
ghost use Rattle.pm_topology.specs.declared.places.Kind.TheVariants as kinds;
ghost use Rattle.pm_values.specs.declared.caches.UnitKind.TheVariants.{Entry};
ghost use Rattle.pm_values.specs.Caches.{start_if};
ghost use Rattle.pm_values.specs.Found.{start_found, with_more};

use crate::caches::UnitKind;
use crate::found::Found;
use pm_base::{BoundedList, Mode, NodeId, Unit};
use pm_procs::{Proc, same_mode};
use pm_topology::{Kind, UnitMap};

/// A processor that was off or asleep and is active now, and the address at which it begins.
#[derive(Clone, Copy, Debug, PartialEq, Eq)]
pub struct Start {
    pub proc: NodeId,
    pub address: u64,
}

/// Puts the unit at a place, of this kind, into `starts`, if it is a processor that is active now and was down by what is
/// kept along the step.
pub(crate) fn log_start(
    found: &Found,
    kind: UnitKind,
    k: usize,
    values: &UnitMap<u32>,
    starts: &mut BoundedList<Start>,
)
    requires { length starts.old.items + length (start_found found.now kind (slice_get values.now k))
        ≤ starts.old.room }
    ensures { starts.new ≡ with_more (start_found found.now kind (slice_get values.now k)) starts.old }
{
    if let Some(start) = start_at(found, kind, k, values) {
        starts.push(start);
    }
}

/// The start of the unit at a place, of this kind, if it is a processor that starts. No other unit is looked up.
fn start_at(found: &Found, kind: UnitKind, k: usize, values: &UnitMap<u32>) -> Option<Start>
    ensures { option_to_list result ≡ start_found found.now kind (slice_get values.now k) }
{
    match kind {
        UnitKind::Entry(Kind::Proc(place)) => start_in(found, place, values.entry(k)),
        _ => None,
    }
}

/// The start of the unit of an entry, which is the processor at this place.
fn start_in(found: &Found, place: usize, entry: Option<(Unit, u32)>) -> Option<Start>
    ensures { option_to_list result ≡ start_found found.now (Entry (kinds.Proc place)) entry }
{
    match entry {
        Some((Unit::Node(node), _)) => {
            started(found.along.was_down(place), node, found.procs.proc(place))
        }
        _ => None,
    }
}

/// The start of a processor, if it was down and is active now.
fn started(down: bool, node: NodeId, proc: Proc) -> Option<Start>
    ensures { option_to_list result ≡ start_if down (Node node) proc }
{
    if down && same_mode(proc.mode, Mode::Active) {
        Some(Start {
            proc: node,
            address: proc.address,
        })
    } else {
        None
    }
}
