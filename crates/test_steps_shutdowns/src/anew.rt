//! Reset lines, notifiers and waiting notes after masters were forced down, restarted or shut down.

use crate::rows::all_right;
use pm_base::{LineId, Unit};
use std::test::Fail;
use test_books::{
    Case, Notice, Trigger, Want, event_of, settled, wrong_answer, wrong_notice, wrong_notice_over,
};

/// Masters 1 and 7, which may use slaves 11, 19 and 33. The first one gets slave 19 at load and at its start. It may
/// force processors 2 and 7, reset line 33, and shut down by subtype 1. Master 7 may shut down by subtype 2.
static ANEW: [u32; 50] = [
    2, 6, 1, 0x101, 2, 1, 0x1, 100, 0x100, 0x100, 7, 0x100, 40, 0x1, 0x1, 0x102, 3, 11, 1, 0x101,
    19, 1, 0x101, 33, 1, 0x101, 0x103, 1, 0x1, 1, 19, 2, 1, 1, 0x104, 2, 2, 0x1, 7, 0x1, 0x105, 1,
    33, 0x1, 0x106, 2, 1, 0x1, 2, 0x100,
];

/// No reply words.
const NONE: [u32; 3] = [0; 3];

/// A caller forces off its last active processor while another one sleeps: the acknowledgement waits, and is told
/// once when the master wakes. An acknowledgement by a reply doesn't wait.
static OWN_FORCE: [Notice; 14] = [
    (Trigger::Boot(3, 0), &[], &[]),
    (Trigger::Call(1, 7, [3, 0, 0, 0]), &[], &[]),
    (Trigger::Wfi(3), &[], &[]),
    (Trigger::Call(1, 8, [2, 3, 0, 0]), &[], &[]),
    (Trigger::Gic(3), &[], &[(1, 31, [2, 0, 0, 0])]),
    (Trigger::Call(1, 7, [3, 0, 0, 0]), &[], &[]),
    (Trigger::Wfi(3), &[], &[]),
    (Trigger::Gic(3), &[], &[]),
    (Trigger::Boot(2, 0), &[], &[]),
    (Trigger::Call(1, 7, [3, 0, 0, 0]), &[], &[]),
    (Trigger::Wfi(3), &[], &[]),
    (Trigger::Call(1, 8, [2, 2, 0, 0]), &[], &[]),
    (Trigger::Call(7, 13, [11, 1, 0, 2]), &[], &[]),
    (Trigger::Gic(3), &[], &[]),
];

#[test]
fn the_acknowledgement_of_a_force_waits_for_a_caller_that_sleeps(
    rt: HostRuntime,
) -> Result<(), Fail> {
    let wrong = wrong_notice_over(rt.alloc(), &ANEW, &OWN_FORCE)?;
    all_right(&rt, wrong);
    Ok(())
}

/// A master restarts: its notifiers are removed, so that the slave that it releases and takes again tells nothing;
/// that slave does tell something when its master shuts itself down.
static OWN_RESTART: [Notice; 8] = [
    (Trigger::Call(7, 5, [19, 1, 0, 1]), &[], &[]),
    (Trigger::Call(7, 5, [19, 2, 0, 1]), &[], &[]),
    (Trigger::Call(1, 5, [11, 1, 0, 1]), &[], &[]),
    (
        Trigger::Call(7, 13, [11, 1, 0, 2]),
        &[],
        &[(1, 32, [11, 1, 2, 0])],
    ),
    (Trigger::Call(1, 12, [1, 0, 0, 0]), &[], &[]),
    (Trigger::Call(7, 14, [11, 0, 0, 0]), &[], &[]),
    (
        Trigger::Call(1, 12, [0, 0, 0, 0]),
        &[],
        &[(7, 32, [19, 1, 0, 0]), (7, 32, [19, 2, 0, 0])],
    ),
    (Trigger::Tick(1), &[], &[]),
];

#[test]
fn a_master_that_restarts_forgets_what_it_asked_for(rt: HostRuntime) -> Result<(), Fail> {
    let wrong = wrong_notice_over(rt.alloc(), &ANEW, &OWN_RESTART)?;
    all_right(&rt, wrong);
    Ok(())
}

/// The notifiers of a master that is forced off are removed, and so are its waiting notes, whether it was awake or
/// asleep.
static FORCED: [Notice; 12] = [
    (Trigger::Call(7, 5, [11, 1, 0, 1]), &[], &[]),
    (Trigger::Call(1, 8, [7, 2, 0, 0]), &[], &[]),
    (Trigger::Boot(7, 0), &[], &[]),
    (Trigger::Call(1, 13, [11, 1, 0, 2]), &[], &[]),
    (Trigger::Call(7, 5, [11, 1, 0, 1]), &[], &[]),
    (Trigger::Call(7, 7, [7, 0, 0, 0]), &[], &[]),
    (Trigger::Wfi(7), &[], &[]),
    (Trigger::Call(1, 14, [11, 0, 0, 0]), &[], &[]),
    (Trigger::Call(1, 8, [7, 2, 0, 0]), &[], &[]),
    (Trigger::Boot(7, 0), &[], &[]),
    (Trigger::Call(1, 13, [11, 1, 0, 2]), &[], &[]),
    (Trigger::Gic(7), &[], &[]),
];

#[test]
fn a_master_that_is_forced_off_forgets_what_waited(rt: HostRuntime) -> Result<(), Fail> {
    let wrong = wrong_notice_over(rt.alloc(), &ANEW, &FORCED)?;
    all_right(&rt, wrong);
    Ok(())
}

/// Everything is restarted while master 1 is asleep and a note waits for it. The master is awake then, and isn't told
/// the note.
static RESTART: [Notice; 9] = [
    (Trigger::Call(1, 17, [33, 1, 0, 0]), &[], &[]),
    (Trigger::Call(1, 5, [11, 1, 0, 1]), &[], &[]),
    (Trigger::Call(1, 5, [11, 2, 0, 1]), &[], &[]),
    (Trigger::Call(7, 5, [11, 1, 0, 1]), &[], &[]),
    (Trigger::Call(1, 7, [2, 0, 0, 0]), &[], &[]),
    (Trigger::Wfi(2), &[], &[]),
    (
        Trigger::Call(7, 13, [11, 1, 0, 2]),
        &[],
        &[(7, 32, [11, 1, 2, 0])],
    ),
    (Trigger::Call(7, 12, [1, 2, 0, 0]), &[], &[]),
    // and its notifiers are removed too
    (Trigger::Call(1, 21, [0; 4]), &[], &[]),
];

/// The line is released, and slave 11 went down with the holds.
static RESTARTED: [Case; 3] = [
    (1, 18, [33, 0, 0, 0], Want::Reply(0, NONE)),
    (1, 3, [11, 0, 0, 0], Want::Reply(0, NONE)),
    (1, 3, [19, 0, 0, 0], Want::Reply(0, [2, 1, 1])),
];

#[test]
fn a_restart_of_all_releases_the_lines_and_drops_the_notes(rt: HostRuntime) -> Result<(), Fail> {
    let mut desk = settled(rt.alloc(), &ANEW)?;
    all_right(&rt, wrong_notice(&mut desk, &RESTART));
    all_right(&rt, wrong_answer(&mut desk, &RESTARTED));
    Ok(())
}

/// Everything is shut down. The slave that loses its last user tells nobody, since all masters are off; and nothing
/// is told from then on.
static HALT: [Notice; 8] = [
    (Trigger::Call(1, 17, [33, 1, 0, 0]), &[], &[]),
    (Trigger::Call(7, 5, [19, 2, 0, 1]), &[], &[]),
    (
        Trigger::Call(1, 6, [7, 2, 0, 0]),
        &[],
        &[(7, 30, [201, 0, 0, 40])],
    ),
    (Trigger::Call(1, 12, [0, 1, 0, 0]), &[(1, 0)], &[]),
    (Trigger::Tick(1000), &[], &[]),
    (Trigger::Boot(7, 0), &[], &[]),
    (Trigger::Gic(2), &[], &[]),
    (Trigger::Call(1, 17, [33, 0, 0, 0]), &[], &[]),
];

#[test]
fn a_halted_book_keeps_its_lines(rt: HostRuntime) -> Result<(), Fail> {
    let mut desk = settled(rt.alloc(), &ANEW)?;
    all_right(&rt, wrong_notice(&mut desk, &HALT));
    assert!(rt; desk.book.value(Unit::Line(LineId(33))) == 1);
    Ok(())
}

/// Nobody is told of a reset line, even if there is a notifier for the slave with its number.
static LINES: [Notice; 6] = [
    (Trigger::Call(7, 5, [33, 1, 0, 1]), &[], &[]),
    (Trigger::Call(7, 5, [33, 2, 0, 1]), &[], &[]),
    (Trigger::Call(1, 17, [33, 1, 0, 0]), &[], &[]),
    (Trigger::Call(1, 17, [33, 2, 0, 0]), &[], &[]),
    (Trigger::Call(1, 17, [33, 0, 0, 0]), &[], &[]),
    (
        Trigger::Call(1, 13, [33, 1, 0, 2]),
        &[],
        &[(7, 32, [33, 1, 1, 0])],
    ),
];

#[test]
fn nobody_is_told_of_a_reset_line(rt: HostRuntime) -> Result<(), Fail> {
    let mut desk = settled(rt.alloc(), &ANEW)?;
    all_right(&rt, wrong_notice(&mut desk, &LINES));
    let event = event_of(Trigger::Call(1, 14, [33, 0, 0, 0]));
    desk.take(&event);
    assert!(rt; desk.out.callbacks.as_slice().len() == 2);
    Ok(())
}
