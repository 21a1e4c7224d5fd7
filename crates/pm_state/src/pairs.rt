//! The pairs of a master and a slave that the object permits.

ghost use Rattle.std.specs.Prelude.{◌≡◌, ◌++◌, ◌==◌, IfOk, OnOk, find};
ghost use Rattle.pm_state.specs.Pairs as spec;
ghost use Rattle.pm_state.specs.Pairs.{first_for, permitted_in, permitted_of_masters, preallocation};

use pm_base::{Caps, List, NoMemory};
use pm_object::{MasterRec, Object, PreGroup, PreRec, SlaveRec};
use pm_perms::{is_shareable, mask_has, slave_record};
use pm_rows::Pair;
use pm_slaves::capabilities;
use pm_topology::{SlaveDef, Topology};
use std::alloc::Global;

/// A permitted pair of a master and a slave, and the capabilities with which the object has it in use, if it does.
/// That is the same in whatever modes the masters are.
#[derive(Clone, Copy, Debug, PartialEq, Eq)]
pub struct Permitted {
    pub pair: Pair,
    pub current: Option<Caps>,
}

/// The first of these preallocations that is for a slave.
fn first_in(records: &[PreRec], slave: &SlaveDef) -> Option<PreRec>
    ensures { result ≡ find (λ (r : PreRec). r.node == slave.now.node.0) records.now }
{
    records
        .iter()
        .copied()
        .find(|entry| entry.node == slave.node.0)
}

/// The first preallocation of a master for a slave, in object order.
fn preallocation(object: &Object, master: &MasterRec, slave: &SlaveDef) -> Option<PreRec>
    ensures { result ≡ preallocation object.now master.now slave.now }
{
    for group in object.groups.as_slice() {
        let entry = first_for(group, master, slave);
        if entry.is_some() {
            return entry;
        }
    }
    None
}

/// The first preallocation of a group for a slave, where the group has the master's bit.
fn first_for(group: &PreGroup, master: &MasterRec, slave: &SlaveDef) -> Option<PreRec>
    ensures { result ≡ first_for master.now slave.now group.now }
{
    if mask_has(group.mask, master.mask) {
        first_in(group.recs.as_slice(), slave)
    } else {
        None
    }
}

/// These capabilities, without those that the slave lacks.
fn cut_to(all: Caps, word: u32) -> Caps
    ensures { result ≡ spec.cut_to all word }
{
    Caps(word & all.0)
}

/// The capabilities with which a master starts from off.
fn preset_by(all: Caps, entry: Option<PreRec>) -> Caps
    ensures { result ≡ spec.preset_by all entry }
{
    match entry {
        Some(entry) => cut_to(all, entry.preset),
        None => Caps(0),
    }
}

/// The capabilities with which a preallocation has a slave in use, if it does.
fn current_by(all: Caps, entry: Option<PreRec>) -> Option<Caps>
    ensures { result ≡ spec.current_by all entry }
{
    match entry {
        Some(entry) if entry.flags & 2 == 2 => Some(cut_to(all, entry.current)),
        _ => None,
    }
}

/// The pair of a master and a slave that it may use, with what the object says of it.
fn permitted_of(
    object: &Object,
    m: usize,
    master: &MasterRec,
    s: usize,
    slave: &SlaveDef,
    entry: &SlaveRec,
) -> Permitted
    ensures { result ≡ spec.permitted_of object.now m master.now s slave.now entry.now }
{
    let all = capabilities(slave.states.as_slice());
    let first = preallocation(object, master, slave);
    Permitted {
        pair: Pair {
            master: m,
            slave: s,
            shareable: is_shareable(entry),
            all,
            preset: preset_by(all, first),
        },
        current: current_by(all, first),
    }
}

/// Puts the pairs on a slave at the end: one for each master that may use it.
fn push_permitted_on(
    pairs: &mut List<Permitted>,
    object: &Object,
    place: usize,
    slave: &SlaveDef,
    entry: &SlaveRec,
) -> Result<(), NoMemory>
    ensures { OnOk result (pairs.new
        ≡ pairs.old ++ permitted_of_masters object.now 0 place slave.now entry.now object.now.masters) }
{
    for (m, master) in object.masters.as_slice().iter().enumerate() {
        if mask_has(entry.mask, master.mask) {
            pairs.push(permitted_of(object, m, master, place, slave, entry))?;
        }
    }
    Ok(())
}

/// The permitted pairs of a master of the object and a slave of the chip, slave by slave.
pub(crate) fn permitted_in(
    alloc: Global,
    object: &Object,
    t: &Topology,
) -> Result<List<Permitted>, NoMemory>
    ensures { IfOk result (λ pairs. pairs ≡ permitted_in object.now t.now) }
{
    let mut pairs = List::new(alloc);
    for (place, slave) in t.slaves.as_slice().iter().enumerate() {
        if let Some(entry) = slave_record(object, slave.node) {
            push_permitted_on(&mut pairs, object, place, slave, &entry)?;
        }
    }
    Ok(pairs)
}
