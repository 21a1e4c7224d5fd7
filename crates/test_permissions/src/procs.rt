//! The modes of processors and of their masters, and the owner of a processor.

use crate::chip::chip;
use crate::permissions::{HEAD, object_of};
use crate::rows::{all_right, boxed, same};
use pm_base::{List, Mode, NodeId};
use pm_perms::owner_of;
use pm_procs::{Proc, Procs};
use pm_topology::Topology;
use std::alloc::Global;
use std::test::Fail;

const OFF: Mode = Mode::Off;

const ACTIVE: Mode = Mode::Active;

const ASLEEP: Mode = Mode::Asleep;

const SUSPENDING: Mode = Mode::Suspending;

/// A row: the modes of two processors, and the mode of a master that has both.
static PAIRS: [(Mode, Mode, Mode); 16] = [
    (OFF, OFF, OFF),
    (OFF, ACTIVE, ACTIVE),
    (OFF, ASLEEP, ASLEEP),
    (OFF, SUSPENDING, SUSPENDING),
    (ACTIVE, OFF, ACTIVE),
    (ACTIVE, ACTIVE, ACTIVE),
    (ACTIVE, ASLEEP, ACTIVE),
    (ACTIVE, SUSPENDING, ACTIVE),
    (ASLEEP, OFF, ASLEEP),
    (ASLEEP, ACTIVE, ACTIVE),
    (ASLEEP, ASLEEP, ASLEEP),
    (ASLEEP, SUSPENDING, SUSPENDING),
    (SUSPENDING, OFF, SUSPENDING),
    (SUSPENDING, ACTIVE, ACTIVE),
    (SUSPENDING, ASLEEP, SUSPENDING),
    (SUSPENDING, SUSPENDING, SUSPENDING),
];

/// A list of two places.
fn two(alloc: Global, first: usize, second: usize) -> Result<List<usize>, Fail> {
    let mut places = List::new(alloc);
    places.push(first)?;
    places.push(second)?;
    Ok(places)
}

/// The places of the processors of three masters: those at 4 and 1, those at 0 and 5, and none.
fn members(alloc: Global) -> Result<Box<List<List<usize>>>, Fail> {
    let mut members = boxed(alloc, List::new(alloc))?;
    members.push(two(alloc, 4, 1)?)?;
    members.push(two(alloc, 0, 5)?)?;
    members.push(List::new(alloc))?;
    Ok(members)
}

/// The processors of the chip, with these masters.
fn processors(alloc: Global) -> Result<Box<Procs>, Fail> {
    let chip = chip(alloc)?;
    let members = Box::into_inner(members(alloc)?);
    let procs = Procs::load(alloc, &chip, members)?;
    Ok(boxed(alloc, procs)?)
}

/// The index of the first row in which the master of both has another mode, or another master has a mode.
fn wrong_pair(procs: &mut Procs) -> Option<usize> {
    for (place, (first, second, both)) in PAIRS.iter().enumerate() {
        procs.put(0, *first);
        procs.put(5, *second);
        let found = (
            procs.master_mode(0),
            procs.master_mode(1),
            procs.master_mode(2),
            procs.master_mode(3),
        );
        if found != (OFF, *both, OFF, OFF) {
            return Some(place);
        }
    }
    None
}

#[test]
fn a_master_has_the_mode_of_its_processors(rt: HostRuntime) -> Result<(), Fail> {
    let mut procs = processors(rt.alloc())?;
    all_right(&rt, wrong_pair(&mut procs));
    Ok(())
}

#[test]
fn a_processor_that_goes_off_forgets_its_address(rt: HostRuntime) -> Result<(), Fail> {
    let mut procs = processors(rt.alloc())?;
    procs.put(5, ACTIVE);
    procs.put_resume(5, 0xFFFF_FFFF_0000_0004);
    procs.put(5, SUSPENDING);
    procs.put(5, ASLEEP);
    let asleep = Proc {
        mode: ASLEEP,
        address: 0xFFFF_FFFF_0000_0004,
    };
    same(&rt, procs.proc(5), asleep);
    same(&rt, procs.resume(4), 0);
    procs.put(5, OFF);
    same(&rt, (procs.mode(5), procs.resume(5)), (OFF, 0));
    Ok(())
}

#[test]
fn what_is_not_there_is_off(rt: HostRuntime) -> Result<(), Fail> {
    let mut procs = processors(rt.alloc())?;
    procs.put(99, ACTIVE);
    procs.put_resume(99, 1);
    same(&rt, procs.proc(99), Proc::off());
    same(&rt, procs.members(0), [4, 1].as_slice());
    assert!(rt; procs.members(3).is_empty());
    Ok(())
}

/// A row: the rest of an object's text, a node, and the place of the node's owner.
static OWNERS: [(&str, u32, Option<usize>); 9] = [
    ("master 1 0x1 0 0 0\nmaster 7 0x100 0 0 0\n", 2, Some(0)),
    ("master 1 0x1 0 0 0\nmaster 7 0x100 0 0 0\n", 5, Some(0)),
    ("master 1 0x1 0 0 0\nmaster 7 0x100 0 0 0\n", 7, Some(1)),
    ("master 7 0x100 0 0 0\nmaster 1 0x1 0 0 0\n", 5, Some(1)),
    ("master 6 0x100 0 0 0\n", 7, Some(0)),
    // a processor that no configured master has, also the second one in lock-step
    ("master 1 0x1 0 0 0\nmaster 7 0x100 0 0 0\n", 8, None),
    ("master 6 0x100 0 0 0\n", 8, None),
    // nodes that are no processors, though one has the number of a master
    ("master 1 0x1 0 0 0\n", 1, None),
    ("master 1 0x1 0 0 0\n", 33, None),
];

fn wrong_owner(alloc: Global, chip: &Topology) -> Result<Option<usize>, Fail> {
    for (place, (rest, proc, want)) in OWNERS.iter().enumerate() {
        let object = object_of(alloc, HEAD, rest)?;
        if owner_of(&object, chip, NodeId(*proc)) != *want {
            return Ok(Some(place));
        }
    }
    Ok(None)
}

#[test]
fn a_processor_belongs_to_the_first_master_that_has_it(rt: HostRuntime) -> Result<(), Fail> {
    let chip = chip(rt.alloc())?;
    all_right(&rt, wrong_owner(rt.alloc(), &chip)?);
    Ok(())
}
