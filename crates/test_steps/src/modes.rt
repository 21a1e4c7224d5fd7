//! Processors start, suspend and sleep.

use crate::calls::ONE_USER;
use crate::rows::all_right;
use std::test::Fail;
use test_books::{
    Case, Trigger, Turn, Want, desk_of, event_of, have_moved, have_started, settled, wrong_answer,
    wrong_turn,
};

static TRIGGERS: [Turn; 17] = [
    (Trigger::Boot(7, 4096), &[(7, 4096)], &[6, 7]),
    // active processors, those of nobody, and nodes that are no processors
    (Trigger::Boot(7, 1), &[], &[]),
    (Trigger::Boot(2, 1), &[], &[]),
    (Trigger::Boot(8, 1), &[], &[]),
    (Trigger::Boot(11, 1), &[], &[]),
    (Trigger::Boot(10, 1), &[], &[]),
    (Trigger::Boot(99, 1), &[], &[]),
    (Trigger::Wfi(7), &[], &[]),
    (Trigger::Wfi(3), &[], &[]),
    (Trigger::Wfi(11), &[], &[]),
    // a suspending processor needs its domain, and a sleeping one doesn't
    (Trigger::Call(7, 7, [7, 0, 0, 8192]), &[], &[]),
    (Trigger::Wfi(7), &[], &[6, 7]),
    // one that sleeps can't be booted
    (Trigger::Boot(7, 0), &[], &[]),
    (Trigger::Wfi(7), &[], &[]),
    // one that goes on after its suspend doesn't start
    (Trigger::Call(1, 7, [2, 0, 0, 16]), &[], &[]),
    (Trigger::Call(1, 9, [101, 2, 0, 0]), &[], &[]),
    (Trigger::Boot(3, u64::MAX), &[(3, u64::MAX)], &[3]),
];

#[test]
fn processors_start_and_sleep(rt: HostRuntime) -> Result<(), Fail> {
    let mut desk = desk_of(rt.alloc(), &ONE_USER)?;
    assert!(rt; have_started(&desk.out, &[(2, 0)]));
    assert!(rt; have_moved(&desk.out, &[1, 2, 10, 11, 12, 33, 62]));
    all_right(&rt, wrong_turn(&mut desk, &TRIGGERS));
    Ok(())
}

/// The requirements of master 7 on slave 11 while it is active, suspending, and for its sleep; and what it is told of
/// them.
static SCHEDULED: [Case; 5] = [
    (7, 13, [11, 1, 0, 2], Want::Reply(0, [0, 0, 0])),
    (7, 7, [7, 0, 0, 0], Want::Reply(0, [0, 0, 0])),
    (7, 15, [11, 2, 0, 2], Want::Reply(0, [0, 0, 0])),
    (7, 3, [11, 0, 0, 0], Want::Reply(0, [2, 1, 1])),
    (1, 3, [7, 0, 0, 0], Want::Reply(0, [3, 0, 0])),
];

/// Asleep, it isn't heard, and its requirement for its sleep is in force.
static ASLEEP: [Case; 5] = [
    (7, 3, [11, 0, 0, 0], Want::Drop),
    (7, 9, [100, 7, 0, 0], Want::Drop),
    (8, 3, [11, 0, 0, 0], Want::Drop),
    (1, 3, [11, 0, 0, 0], Want::Reply(0, [1, 0, 2])),
    (1, 3, [7, 0, 0, 0], Want::Reply(0, [2, 0, 0])),
];

#[test]
fn a_requirement_for_the_sleep_takes_force_with_it(rt: HostRuntime) -> Result<(), Fail> {
    let mut desk = settled(rt.alloc(), &ONE_USER)?;
    all_right(&rt, wrong_answer(&mut desk, &SCHEDULED));
    desk.take(&event_of(Trigger::Wfi(7)));
    all_right(&rt, wrong_answer(&mut desk, &ASLEEP));
    Ok(())
}
