//! The operating characteristics of a node in its present state (UG1200, PM_GET_OP_CHARACTERISTIC).

ghost use Rattle.std.specs.Prelude.{◌≡◌, option_map, slice_get};
ghost use Rattle.pm_topology.specs.declared.topology.SlaveDef.{SlaveDef as Slave};
ghost use Rattle.pm_values.specs.Caches.{AreKept};
ghost use Rattle.pm_calls.specs.Characteristics.{characteristics, in_state, powered};

use pm_base::{NodeId, Unit};
use pm_state::Tables;
use pm_topology::{Kind, SlaveDef};
use pm_values::{Caches, value};

/// The power figure of a node in its present state, and the latency of leaving that state. Both are plain numbers,
/// each in a unit of this project's own.
#[derive(Clone, Copy, Debug, PartialEq, Eq)]
pub struct Characteristics {
    pub figure: u32,
    pub latency: u32,
}

/// The characteristics of a processor or power node: up, it has its figure and no latency; down, its latency alone.
fn powered(figure: u32, latency: u32, up: bool) -> Characteristics
    ensures { result ≡ powered figure latency up }
{
    if up {
        Characteristics { figure, latency: 0 }
    } else {
        Characteristics { figure: 0, latency }
    }
}

/// The characteristics of a slave in one of its states, by its index; zeros if it has no such state.
fn in_state(slave: &SlaveDef, state: u32) -> Characteristics
    ensures { result ≡ in_state (slice_get slave.now.states state) }
{
    match slave.states.as_slice().get(state as usize) {
        Some(state) => Characteristics {
            figure: state.figure,
            latency: state.latency,
        },
        None => Characteristics {
            figure: 0,
            latency: 0,
        },
    }
}

/// The characteristics of the slave at a place in one of its states, or None if there is no such slave.
fn slave_has(slaves: &[SlaveDef], place: usize, state: u32) -> Option<Characteristics>
    ensures { result ≡ option_map (λ (slave : Slave). in_state (slice_get slave.states state))
        (slice_get slaves.now place) }
{
    match slaves.get(place) {
        Some(slave) => Some(in_state(slave, state)),
        None => None,
    }
}

/// The characteristics of a node in its present state, by its kept value; None if the chip has no such node.
pub(crate) fn characteristics_of(
    tables: &Tables,
    caches: &Caches,
    node: NodeId,
) -> Option<Characteristics>
    requires { AreKept tables.now caches.now }
    ensures { result ≡ characteristics node tables.now }
{
    let value = value(tables, caches, Unit::Node(node));
    match tables.kind(node) {
        Kind::Proc(p) => {
            let proc = tables.topology().procs.as_slice().get(p).copied()?;
            Some(powered(proc.figure, proc.latency, value == 1))
        }
        Kind::Slave(s) => slave_has(tables.topology().slaves.as_slice(), s, value),
        Kind::Power(w) => {
            let power = tables.topology().powers.as_slice().get(w).copied()?;
            Some(powered(power.figure, power.latency, value == 1))
        }
        Kind::Unknown => None,
    }
}
