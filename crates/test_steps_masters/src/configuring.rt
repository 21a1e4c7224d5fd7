//! A master puts an attached object in force.

use crate::rows::all_right;
use pm_base::Caps;
use pm_rows::Row;
use std::alloc::Global;
use std::test::Fail;
use test_books::{
    Case, Desk, Notice, RowCase, Trigger, UNUSED, Want, desk_attached, event_of, message,
    wrong_answer, wrong_notice, wrong_row, wrong_value,
};

/// Masters 1 and 7, which may use slaves 11 and 33. Only master 1 may set the configuration.
static LOADED: [u32; 26] = [
    2, 3, 1, 0x101, 2, 1, 0x1, 100, 0x100, 0x100, 7, 0x100, 40, 0x1, 0x1, 0x102, 2, 11, 1, 0x101,
    33, 1, 0x101, 0x107, 1, 0,
];

/// Masters 1 and 7, which may use slaves 19 and 33; slave 19 can't be shared. Both masters have both in use at load.
/// Nobody may set the configuration.
static OTHER: [u32; 35] = [
    2, 3, 1, 0x101, 2, 1, 0x1, 100, 0, 0, 7, 0x100, 100, 0, 0, 0x102, 2, 19, 0, 0x101, 33, 1,
    0x101, 0x103, 1, 0x101, 2, 19, 2, 1, 1, 33, 2, 1, 0,
];

/// An object with other masters.
static FOREIGN: [u32; 10] = [2, 1, 1, 0x101, 1, 1, 0x2, 100, 0, 0];

/// No reply words.
const NONE: [u32; 3] = [0; 3];

fn attached(alloc: Global) -> Result<Box<Desk>, Fail> {
    let mut desk = desk_attached(
        alloc,
        &LOADED,
        &[(4096, &OTHER), (8, &[1]), (12, &FOREIGN), (16, &LOADED)],
    )?;
    desk.take(&message(1, 21, [0; 4]));
    desk.take(&event_of(Trigger::Boot(7, 0)));
    Ok(desk)
}

/// SET_CONFIGURATION: the address.
static ADDRESSES: [Case; 10] = [
    // nothing is attached, no object, other masters; also without the permission
    (1, 2, [8192, 0, 0, 0], Want::Reply(15, NONE)),
    (1, 2, [8, 0, 0, 0], Want::Reply(15, [4, 0, 0])),
    (1, 2, [12, 0, 0, 0], Want::Reply(15, NONE)),
    (7, 2, [8, 0, 0, 0], Want::Reply(15, [4, 0, 0])),
    // the object in force gives the permission
    (7, 2, [4096, 0, 0, 0], Want::Reply(2002, NONE)),
    (1, 2, [16, 1, 2, 3], Want::Reply(0, NONE)),
    (1, 13, [11, 1, 0, 2], Want::Reply(0, NONE)),
    (1, 2, [4096, 0, 0, 0], Want::Reply(0, NONE)),
    (1, 13, [11, 1, 0, 2], Want::Reply(2002, NONE)),
    (1, 2, [16, 0, 0, 0], Want::Reply(2002, NONE)),
];

#[test]
fn an_object_is_put_in_force_by_its_address(rt: HostRuntime) -> Result<(), Fail> {
    let mut desk = attached(rt.alloc())?;
    all_right(&rt, wrong_answer(&mut desk, &ADDRESSES));
    Ok(())
}

/// A row in use by the new object, with its preset.
const fn used(preset: u32) -> Row {
    Row {
        used: true,
        now: Caps(1),
        next: Caps(1),
        preset: Caps(preset),
        ..UNUSED
    }
}

/// A row that isn't used, with its preset.
const fn unused(preset: u32) -> Row {
    Row {
        preset: Caps(preset),
        ..UNUSED
    }
}

#[test]
fn rows_are_made_anew_in_object_order(rt: HostRuntime) -> Result<(), Fail> {
    let mut desk = attached(rt.alloc())?;
    desk.take(&message(7, 13, [33, 2, 0, 2]));
    desk.take(&message(1, 2, [4096, 0, 0, 0]));
    let rows: [RowCase; 6] = [
        (1, 11, None),
        (1, 19, Some(used(1))),
        (7, 19, Some(unused(1))),
        (1, 33, Some(used(0))),
        (7, 33, Some(used(0))),
        (7, 11, None),
    ];
    all_right(&rt, wrong_row(&desk.book, &rows));
    all_right(&rt, wrong_value(&desk.book, &[(11, 0), (33, 1)]));
    Ok(())
}

#[test]
fn a_master_that_sleeps_uses_nothing_anew(rt: HostRuntime) -> Result<(), Fail> {
    let mut desk = attached(rt.alloc())?;
    desk.take(&message(7, 13, [33, 1, 0, 2]));
    desk.take(&message(7, 11, [7, 33, 1, 0]));
    desk.take(&message(7, 7, [7, 0, 0, 0]));
    desk.take(&event_of(Trigger::Wfi(7)));
    desk.take(&message(1, 2, [4096, 0, 0, 0]));
    let rows: [RowCase; 4] = [
        (1, 19, Some(used(1))),
        (7, 19, Some(unused(1))),
        (1, 33, Some(used(0))),
        (7, 33, Some(unused(0))),
    ];
    all_right(&rt, wrong_row(&desk.book, &rows));
    // the slave doesn't wake it any more
    desk.take(&event_of(Trigger::Irq(33)));
    all_right(&rt, wrong_row(&desk.book, &rows));
    Ok(())
}

/// A notifier is removed when another object is put in force, and nothing is told of that step.
static UNTOLD: [Notice; 5] = [
    (Trigger::Call(7, 5, [33, 1, 0, 1]), &[], &[]),
    (Trigger::Call(7, 5, [33, 2, 0, 1]), &[], &[]),
    (
        Trigger::Call(1, 13, [33, 1, 0, 2]),
        &[],
        &[(7, 32, [33, 1, 1, 0])],
    ),
    (Trigger::Call(1, 2, [4096, 0, 0, 0]), &[], &[]),
    (Trigger::Call(1, 14, [33, 0, 0, 0]), &[], &[]),
];

#[test]
fn no_notifier_is_left(rt: HostRuntime) -> Result<(), Fail> {
    let mut desk = attached(rt.alloc())?;
    all_right(&rt, wrong_notice(&mut desk, &UNTOLD));
    Ok(())
}

/// A restart of everything leads to the load with the object in force.
static RESTARTS: [Case; 4] = [
    (1, 2, [16, 0, 0, 0], Want::Reply(0, NONE)),
    (1, 2, [4096, 0, 0, 0], Want::Reply(0, NONE)),
    (1, 12, [1, 1, 0, 0], Want::Reply(2002, NONE)),
    (1, 12, [1, 0, 0, 0], Want::Reply(0, NONE)),
];

#[test]
fn the_object_in_force_stays_over_a_restart(rt: HostRuntime) -> Result<(), Fail> {
    let mut desk = attached(rt.alloc())?;
    all_right(&rt, wrong_answer(&mut desk, &RESTARTS));
    let rows: [RowCase; 3] = [
        (1, 11, None),
        (1, 19, Some(used(1))),
        (1, 33, Some(unused(0))),
    ];
    all_right(&rt, wrong_row(&desk.book, &rows));
    Ok(())
}
