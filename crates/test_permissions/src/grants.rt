//! Permissions, by the places of masters and units.

use crate::chip::chip;
use crate::permissions::{LISTS, Permission, Wish, object_of};
use crate::rows::{all_right, boxed};
use pm_base::{LineId, NodeId};
use pm_grants::Grants;
use pm_object::Object;
use pm_topology::{Kind, Topology};
use std::alloc::Global;
use std::test::Fail;

fn place_of(object: &Object, master: u32) -> Option<usize> {
    object
        .masters
        .as_slice()
        .iter()
        .position(|entry| entry.node == master)
}

fn slave_of(chip: &Topology, node: u32) -> Option<usize> {
    match chip.kind(NodeId(node)) {
        Kind::Slave(slave) => Some(slave),
        Kind::Proc(_) | Kind::Power(_) | Kind::Unknown => None,
    }
}

/// Permissions by places; nothing is permitted if a place isn't there.
fn looked_up(grants: &Grants, object: &Object, chip: &Topology, wish: Wish) -> Option<bool> {
    match wish {
        Wish::Use(m, slave) => {
            Some(grants.permits_use(place_of(object, m)?, slave_of(chip, slave)?))
        }
        Wish::Suspend(m, other) => {
            Some(grants.permits_suspend(place_of(object, m)?, place_of(object, other)?))
        }
        Wish::Wake(m, other) => {
            Some(grants.permits_wake(place_of(object, m)?, place_of(object, other)?))
        }
        Wish::Force(m, node) => {
            Some(grants.permits_force(place_of(object, m)?, chip.kind(NodeId(node))))
        }
        Wish::Reset(m, line) => {
            Some(grants.permits_reset(place_of(object, m)?, chip.line_place(LineId(line))?))
        }
        Wish::Shut(m, subtype) => Some(grants.permits_shut(place_of(object, m)?, subtype)),
        Wish::Configure(m) => Some(grants.permits_configure(place_of(object, m)?)),
    }
}

fn wrong_grant(
    alloc: Global,
    chip: &Topology,
    head: &str,
    rows: &[Permission],
) -> Result<Option<usize>, Fail> {
    for (place, (rest, wish, want)) in rows.iter().enumerate() {
        let object = object_of(alloc, head, rest)?;
        let grants = boxed(alloc, Grants::load(alloc, &object, chip)?)?;
        if looked_up(&grants, &object, chip, *wish).unwrap_or(false) != *want {
            return Ok(Some(place));
        }
    }
    Ok(None)
}

#[test]
fn each_permission_is_looked_up_by_places(rt: HostRuntime) -> Result<(), Fail> {
    let chip = chip(rt.alloc())?;
    for (head, rows) in LISTS.iter() {
        all_right(&rt, wrong_grant(rt.alloc(), &chip, head, rows)?);
    }
    Ok(())
}
