//! Masters, or the whole system, are shut down and restarted.

use crate::forcing::FORCING;
use crate::rows::all_right;
use pm_rows::Row;
use std::test::Fail;
use test_books::{
    Case, Notice, RowCase, Trigger, Turn, UNUSED, Want, desk_of, event_of, settled,
    wrong_answer_over, wrong_notice, wrong_row, wrong_turn, wrong_turn_over,
};

/// No reply words.
const NONE: [u32; 3] = [0; 3];

/// SYSTEM_SHUTDOWN: the type and the subtype.
static SHUTDOWNS: [Case; 23] = [
    // the type and the subtype, even without the permission
    (1, 12, [3, 0, 0, 0], Want::Reply(15, NONE)),
    (1, 12, [u32::MAX, 1, 0, 0], Want::Reply(15, NONE)),
    (1, 12, [0, 3, 0, 0], Want::Reply(15, NONE)),
    (7, 12, [3, 1, 0, 0], Want::Reply(15, NONE)),
    (1, 12, [2, 3, 0, 0], Want::Reply(15, NONE)),
    // the permission for each subtype
    (7, 12, [0, 1, 0, 0], Want::Reply(2002, NONE)),
    (7, 12, [1, 1, 0, 0], Want::Reply(2002, NONE)),
    (1, 12, [0, 2, 0, 0], Want::Reply(2002, NONE)),
    (1, 12, [1, 2, 0, 0], Want::Reply(2002, NONE)),
    // a scope needs no permission, and has no effect
    (7, 12, [2, 0, 0, 0], Want::Reply(0, NONE)),
    (7, 12, [2, 1, 0, 0], Want::Reply(0, NONE)),
    (1, 12, [2, 2, 0, 0], Want::Reply(0, NONE)),
    (7, 3, [7, 0, 0, 0], Want::Reply(0, [1, 0, 0])),
    // the caller's own needs no permission: it restarts, and it goes off
    (7, 12, [1, 0, 0, 0], Want::Reply(0, NONE)),
    (7, 3, [7, 0, 0, 0], Want::Reply(0, [1, 0, 0])),
    (7, 12, [0, 0, 0, 0], Want::Reply(0, NONE)),
    (7, 3, [7, 0, 0, 0], Want::Drop),
    (1, 3, [7, 0, 0, 0], Want::Reply(0, [0, 0, 0])),
    // all restarts, and all is shut down
    (1, 12, [1, 1, 0, 0], Want::Reply(0, NONE)),
    (1, 3, [2, 0, 0, 0], Want::Reply(0, [1, 0, 0])),
    (1, 12, [0, 1, 0, 0], Want::Reply(0, NONE)),
    (1, 1, [0, 0, 0, 0], Want::Drop),
    (7, 12, [1, 2, 0, 0], Want::Drop),
];

#[test]
fn the_first_check_of_a_shutdown_decides(rt: HostRuntime) -> Result<(), Fail> {
    let wrong = wrong_answer_over(rt.alloc(), &FORCING, &SHUTDOWNS)?;
    all_right(&rt, wrong);
    Ok(())
}

/// A master shuts itself down, and one restarts: its start is told although its processor ran before.
static OWN: [Turn; 11] = [
    (Trigger::Boot(3, 0), &[(3, 0)], &[3]),
    (Trigger::Call(1, 12, [1, 0, 0, 0]), &[(2, 0)], &[3]),
    (Trigger::Call(1, 12, [1, 0, 0, 0]), &[(2, 0)], &[]),
    (Trigger::Call(1, 13, [19, 1, 0, 2]), &[], &[19]),
    (Trigger::Call(7, 13, [19, 1, 0, 2]), &[], &[]),
    (Trigger::Call(1, 13, [11, 1, 0, 2]), &[], &[11]),
    (Trigger::Call(1, 12, [1, 0, 0, 0]), &[(2, 0)], &[11]),
    (Trigger::Call(7, 12, [2, 2, 0, 0]), &[], &[]),
    (Trigger::Call(1, 12, [0, 0, 0, 0]), &[], &[1, 2]),
    (Trigger::Call(7, 12, [0, 0, 0, 0]), &[], &[6, 7, 10, 19]),
    (Trigger::Boot(2, 4096), &[(2, 4096)], &[1, 2, 10]),
];

#[test]
fn a_master_shuts_itself_down(rt: HostRuntime) -> Result<(), Fail> {
    let wrong = wrong_turn_over(rt.alloc(), &FORCING, &OWN)?;
    all_right(&rt, wrong);
    Ok(())
}

/// Everything is restarted by subtype 1, and by subtype 2.
static RESTARTS: [Turn; 8] = [
    (Trigger::Call(7, 11, [7, 46, 1, 0]), &[], &[]),
    (Trigger::Call(7, 13, [11, 2, 0, 2]), &[], &[11]),
    (
        Trigger::Call(1, 12, [1, 1, 0, 0]),
        &[(2, 0)],
        &[7, 11, 15, 19, 46],
    ),
    // again: only a start
    (Trigger::Call(1, 12, [1, 1, 0, 0]), &[(2, 0)], &[]),
    (Trigger::Irq(46), &[], &[]),
    (Trigger::Boot(7, 0), &[(7, 0)], &[7]),
    (Trigger::Boot(3, 0), &[(3, 0)], &[3]),
    (Trigger::Call(7, 12, [1, 2, 0, 0]), &[(2, 0)], &[3, 7]),
];

/// Rows after a restart of everything are those at load: those of the first master are held again.
static RELOADED: [RowCase; 4] = [
    (
        1,
        11,
        Some(Row {
            hold: true,
            ..UNUSED
        }),
    ),
    (
        1,
        46,
        Some(Row {
            hold: true,
            ..UNUSED
        }),
    ),
    (7, 46, Some(UNUSED)),
    (7, 11, Some(UNUSED)),
];

#[test]
fn all_restarts_as_at_load(rt: HostRuntime) -> Result<(), Fail> {
    let mut desk = settled(rt.alloc(), &FORCING)?;
    all_right(&rt, wrong_turn(&mut desk, &RESTARTS));
    all_right(&rt, wrong_row(&desk.book, &RELOADED));
    Ok(())
}

/// Everything is shut down, and nothing happens any more.
static HALTED: [Turn; 9] = [
    (Trigger::Call(7, 13, [11, 1, 0, 2]), &[], &[11]),
    (Trigger::Call(7, 11, [7, 46, 1, 0]), &[], &[]),
    (
        Trigger::Call(7, 12, [0, 2, 0, 0]),
        &[],
        &[1, 2, 6, 7, 10, 11],
    ),
    (Trigger::Boot(2, 0), &[], &[]),
    (Trigger::Gic(2), &[], &[]),
    (Trigger::Irq(46), &[], &[]),
    (Trigger::Wfi(7), &[], &[]),
    (Trigger::Tick(100), &[], &[]),
    (Trigger::Call(1, 12, [1, 1, 0, 0]), &[], &[]),
];

#[test]
fn nothing_happens_once_all_is_shut_down(rt: HostRuntime) -> Result<(), Fail> {
    let wrong = wrong_turn_over(rt.alloc(), &FORCING, &HALTED)?;
    all_right(&rt, wrong);
    Ok(())
}

/// A pending request ends when its target restarts, and when everything is restarted or shut down.
static PENDING: [Notice; 11] = [
    (
        Trigger::Call(1, 6, [7, 2, 50, 1]),
        &[],
        &[(7, 30, [201, 50, 1, 40])],
    ),
    (Trigger::Call(7, 12, [1, 0, 0, 0]), &[(1, 0)], &[]),
    (Trigger::Tick(100), &[], &[]),
    (
        Trigger::Call(7, 6, [1, 2, 0, 0]),
        &[],
        &[(1, 30, [201, 0, 0, 100])],
    ),
    (
        Trigger::Call(1, 6, [7, 3, 50, 1]),
        &[],
        &[(7, 30, [201, 50, 1, 40])],
    ),
    // late replies go to all, callbacks only to masters that run then
    (
        Trigger::Call(1, 12, [1, 1, 0, 0]),
        &[(7, 0)],
        &[(1, 31, [7, 0, 0, 0])],
    ),
    (Trigger::Tick(100), &[], &[]),
    (Trigger::Boot(7, 0), &[], &[]),
    (
        Trigger::Call(7, 6, [1, 2, 0, 0]),
        &[],
        &[(1, 30, [201, 0, 0, 100])],
    ),
    (Trigger::Call(1, 12, [0, 1, 0, 0]), &[(7, 0)], &[]),
    (Trigger::Tick(100), &[], &[]),
];

#[test]
fn what_is_pending_ends_with_a_shutdown(rt: HostRuntime) -> Result<(), Fail> {
    let mut desk = desk_of(rt.alloc(), &FORCING)?;
    desk.take(&event_of(Trigger::Boot(7, 0)));
    all_right(&rt, wrong_notice(&mut desk, &PENDING));
    Ok(())
}
