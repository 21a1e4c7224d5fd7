//! Pending requests to suspend: the step in which each ends, and what is told then.

use crate::asking::ASKING;
use crate::rows::all_right;
use std::test::Fail;
use test_books::{Notice, Trigger, wrong_notice_over};

/// Time passes. Master 8 has a timeout of 0, master 7 one of 40, master 1 one of 100.
static TIMES: [Notice; 20] = [
    (Trigger::Tick(u32::MAX), &[], &[]),
    (Trigger::Boot(8, 0), &[], &[]),
    // a timeout of 0 is due in the next tick, even if no time passes, and only once
    (
        Trigger::Call(1, 6, [8, 2, 3, 4]),
        &[],
        &[(8, 30, [201, 3, 4, 0])],
    ),
    (Trigger::Boot(3, 0), &[], &[]),
    (Trigger::Tick(0), &[(1, 2006)], &[]),
    (Trigger::Tick(0), &[], &[]),
    // the ticks of a request add up, beginning after the request
    (
        Trigger::Call(1, 6, [7, 2, 50, 1]),
        &[],
        &[(7, 30, [201, 50, 1, 40])],
    ),
    (Trigger::Tick(39), &[], &[]),
    (Trigger::Tick(0), &[], &[]),
    // a later request has its own time; a refused or dropped one makes none
    (
        Trigger::Call(7, 6, [2, 3, 0, 0]),
        &[],
        &[(1, 30, [201, 0, 0, 100])],
    ),
    (Trigger::Call(1, 6, [7, 2, 0, 0]), &[], &[]),
    (Trigger::Call(6, 6, [7, 2, 0, 0]), &[], &[]),
    (Trigger::Tick(1), &[(1, 2006)], &[]),
    (Trigger::Tick(98), &[], &[]),
    // a new request to a target that was asked before has its whole timeout
    (
        Trigger::Call(1, 6, [7, 2, 0, 0]),
        &[],
        &[(7, 30, [201, 0, 0, 40])],
    ),
    (Trigger::Tick(1), &[], &[(7, 31, [2, 2006, 1, 0])]),
    (Trigger::Tick(38), &[], &[]),
    // a tick longer than the rest
    (Trigger::Tick(u32::MAX), &[(1, 2006)], &[]),
    (
        Trigger::Call(1, 6, [7, 1, 0, 0]),
        &[],
        &[(7, 30, [201, 0, 0, 40])],
    ),
    (Trigger::Tick(40), &[], &[]),
];

#[test]
fn a_request_times_out_with_the_tick_that_reaches_its_timeout(rt: HostRuntime) -> Result<(), Fail> {
    let wrong = wrong_notice_over(rt.alloc(), &ASKING, &TIMES)?;
    all_right(&rt, wrong);
    Ok(())
}

/// Masters 1 and 7, which may suspend each other. The timeout of master 7 is never due; that of master 1 is less by
/// 1.
static NEVER: [u32; 15] = [
    2,
    1,
    1,
    0x101,
    2,
    1,
    0x1,
    0xFFFF_FFFE,
    0x100,
    0,
    7,
    0x100,
    0xFFFF_FFFF,
    0x1,
    0,
];

static LONG: [Notice; 9] = [
    (
        Trigger::Call(1, 6, [7, 2, 0, 0]),
        &[],
        &[(7, 30, [201, 0, 0, u32::MAX])],
    ),
    (
        Trigger::Call(7, 6, [1, 2, 0, 0]),
        &[],
        &[(1, 30, [201, 0, 0, 0xFFFF_FFFE])],
    ),
    (Trigger::Tick(0xFFFF_FFFD), &[], &[]),
    (Trigger::Tick(1), &[(7, 2006)], &[]),
    (Trigger::Tick(u32::MAX), &[], &[]),
    (Trigger::Tick(u32::MAX), &[], &[]),
    (Trigger::Call(7, 7, [7, 0, 0, 0]), &[], &[]),
    (Trigger::Wfi(7), &[(1, 0)], &[]),
    (Trigger::Tick(u32::MAX), &[], &[]),
];

#[test]
fn the_greatest_timeout_is_never_due(rt: HostRuntime) -> Result<(), Fail> {
    let wrong = wrong_notice_over(rt.alloc(), &NEVER, &LONG)?;
    all_right(&rt, wrong);
    Ok(())
}

/// Requests that end in one step, by the order of the masters in the object: 1, 8, 7.
static TOGETHER: [Notice; 14] = [
    (Trigger::Boot(8, 0), &[], &[]),
    // late replies come in the order of their targets, and not of the masters that asked
    (
        Trigger::Call(7, 6, [1, 2, 0, 0]),
        &[],
        &[(1, 30, [201, 0, 0, 100])],
    ),
    (
        Trigger::Call(8, 6, [7, 2, 0, 0]),
        &[],
        &[(7, 30, [201, 0, 0, 40])],
    ),
    (
        Trigger::Call(1, 6, [8, 2, 0, 0]),
        &[],
        &[(8, 30, [201, 0, 0, 0])],
    ),
    (Trigger::Tick(100), &[(7, 2006), (1, 2006), (8, 2006)], &[]),
    // callbacks come in the order of the masters that asked, and for one master in that of the targets
    (
        Trigger::Call(1, 6, [7, 3, 0, 0]),
        &[],
        &[(7, 30, [201, 0, 0, 40])],
    ),
    (
        Trigger::Call(1, 6, [8, 3, 0, 0]),
        &[],
        &[(8, 30, [201, 0, 0, 0])],
    ),
    (
        Trigger::Call(7, 6, [4, 3, 0, 0]),
        &[],
        &[(1, 30, [201, 0, 0, 100])],
    ),
    (
        Trigger::Tick(100),
        &[],
        &[
            (1, 31, [8, 2006, 1, 0]),
            (1, 31, [7, 2006, 1, 0]),
            (7, 31, [4, 2006, 0, 0]),
        ],
    ),
    // a master asks itself, and then another one
    (
        Trigger::Call(1, 6, [1, 3, 7, 8]),
        &[],
        &[(1, 30, [201, 7, 8, 100])],
    ),
    (
        Trigger::Call(1, 6, [8, 2, 0, 0]),
        &[],
        &[(8, 30, [201, 0, 0, 0])],
    ),
    (
        Trigger::Tick(100),
        &[(1, 2006)],
        &[(1, 31, [1, 2006, 1, 0])],
    ),
    (
        Trigger::Call(1, 6, [5, 2, 0, 0]),
        &[],
        &[(1, 30, [201, 0, 0, 100])],
    ),
    (Trigger::Call(1, 9, [102, 2, 0, 0]), &[(1, 2005)], &[]),
];

#[test]
fn requests_that_end_together_stand_in_object_order(rt: HostRuntime) -> Result<(), Fail> {
    let wrong = wrong_notice_over(rt.alloc(), &ASKING, &TOGETHER)?;
    all_right(&rt, wrong);
    Ok(())
}

/// A request ends by the mode of its target, which follows from all of the target's processors.
static MODES: [Notice; 24] = [
    // another processor goes on: the master doesn't sleep
    (Trigger::Boot(3, 0), &[], &[]),
    (
        Trigger::Call(7, 6, [1, 3, 0, 0]),
        &[],
        &[(1, 30, [201, 0, 0, 100])],
    ),
    (Trigger::Call(1, 7, [2, 0, 0, 0]), &[], &[]),
    (Trigger::Wfi(2), &[], &[]),
    // the master suspends with its last processor, and sleeps; node 1, a power node, goes down
    (Trigger::Call(1, 7, [3, 0, 0, 0]), &[], &[]),
    (Trigger::Wfi(3), &[], &[(7, 31, [1, 0, 0, 0])]),
    (Trigger::Gic(2), &[], &[]),
    // the master goes on since another of its processors is booted
    (
        Trigger::Call(7, 6, [2, 3, 0, 0]),
        &[],
        &[(1, 30, [201, 0, 0, 100])],
    ),
    (Trigger::Call(1, 7, [2, 0, 0, 0]), &[], &[]),
    (Trigger::Boot(4, 0), &[], &[(7, 31, [2, 2005, 3, 0])]),
    // one of its processors aborts while the master is active
    (
        Trigger::Call(7, 6, [1, 2, 0, 0]),
        &[],
        &[(1, 30, [201, 0, 0, 100])],
    ),
    (Trigger::Call(1, 9, [100, 2, 0, 0]), &[(7, 2005)], &[]),
    // the master that asked wakes the target before it sleeps, and gets a late reply beside the answer
    (
        Trigger::Call(1, 6, [7, 2, 0, 0]),
        &[],
        &[(7, 30, [201, 0, 0, 40])],
    ),
    (Trigger::Call(7, 7, [7, 0, 0, 0]), &[], &[]),
    (Trigger::Call(1, 10, [7, 0, 0, 2]), &[(1, 2005)], &[]),
    // a target that goes on without having been suspending ends no request
    (
        Trigger::Call(1, 6, [7, 2, 0, 0]),
        &[],
        &[(7, 30, [201, 0, 0, 40])],
    ),
    (Trigger::Gic(7), &[], &[]),
    (Trigger::Wfi(7), &[], &[]),
    (Trigger::Boot(7, 0), &[], &[]),
    // nor does a master that isn't the target
    (Trigger::Call(1, 7, [2, 0, 0, 0]), &[], &[]),
    (Trigger::Wfi(2), &[], &[]),
    (Trigger::Call(1, 7, [4, 0, 0, 0]), &[], &[]),
    (Trigger::Wfi(4), &[], &[]),
    (Trigger::Tick(40), &[(1, 2006)], &[]),
];

#[test]
fn a_request_ends_with_the_mode_of_its_target(rt: HostRuntime) -> Result<(), Fail> {
    let wrong = wrong_notice_over(rt.alloc(), &ASKING, &MODES)?;
    all_right(&rt, wrong);
    Ok(())
}
