//! The permissions that an object gives to each master.

use crate::chip::chip;
use crate::permissions::{LISTS, Permission, Wish, object_of};
use crate::rows::all_right;
use pm_base::{LineId, NodeId};
use pm_object::Object;
use pm_perms::{may_configure, may_force, may_reset, may_shut, may_suspend, may_use, may_wake};
use pm_topology::Topology;
use std::alloc::Global;
use std::test::Fail;

fn is_permitted(object: &Object, chip: &Topology, wish: Wish) -> bool {
    match wish {
        Wish::Use(m, slave) => may_use(object, chip, NodeId(m), NodeId(slave)),
        Wish::Suspend(m, other) => may_suspend(object, chip, NodeId(m), NodeId(other)),
        Wish::Wake(m, other) => may_wake(object, chip, NodeId(m), NodeId(other)),
        Wish::Force(m, node) => may_force(object, chip, NodeId(m), NodeId(node)),
        Wish::Reset(m, line) => may_reset(object, chip, NodeId(m), LineId(line)),
        Wish::Shut(m, subtype) => may_shut(object, chip, NodeId(m), subtype),
        Wish::Configure(m) => may_configure(object, chip, NodeId(m)),
    }
}

fn wrong_permission(
    alloc: Global,
    chip: &Topology,
    head: &str,
    rows: &[Permission],
) -> Result<Option<usize>, Fail> {
    for (place, (rest, wish, want)) in rows.iter().enumerate() {
        let object = object_of(alloc, head, rest)?;
        if is_permitted(&object, chip, *wish) != *want {
            return Ok(Some(place));
        }
    }
    Ok(None)
}

#[test]
fn each_permission_is_given_by_its_own_bit(rt: HostRuntime) -> Result<(), Fail> {
    let chip = chip(rt.alloc())?;
    for (head, rows) in LISTS.iter() {
        all_right(&rt, wrong_permission(rt.alloc(), &chip, head, rows)?);
    }
    Ok(())
}
