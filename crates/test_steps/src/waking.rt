//! Processors and masters are woken: by a call, by the interrupt of an armed slave, and by an interrupt of a
//! processor.

use crate::rows::all_right;
use pm_base::NodeId;
use pm_core::Book;
use std::test::Fail;
use test_books::{
    Case, Trigger, Turn, Want, settled, wrong_answer, wrong_answer_over, wrong_turn,
    wrong_turn_over,
};

/// Masters 1 and 7. The first may wake 7, and its wake word also has the bit of a master that isn't configured; 7 may
/// wake nobody. Both may use slave 11, which has no WAKEUP, and slave 46, which has it. Only the first one may use
/// slave 33.
static WAKING: [u32; 26] = [
    2, 2, 1, 0x101, 2, 1, 0x1, 100, 0, 0x300, 7, 0x100, 100, 0x1, 0, 0x102, 3, 11, 1, 0x101, 33, 0,
    0x1, 46, 1, 0x101,
];

/// No reply words.
const NONE: [u32; 3] = [0; 3];

/// REQUEST_WAKEUP: the processor, the low and the high word of the address, the acknowledge kind.
static WAKEUPS: [Case; 26] = [
    // the acknowledge kind, alone and with a node that is no processor
    (1, 10, [3, 0, 0, 0], Want::Reply(15, NONE)),
    (1, 10, [3, 0, 0, 4], Want::Reply(15, NONE)),
    (1, 10, [11, 0, 0, 4], Want::Reply(15, NONE)),
    // the node: a slave, a power node with a master's number, and no node; for a caller that may wake others, and
    // for one that may not
    (1, 10, [11, 0, 0, 2], Want::Reply(2003, NONE)),
    (1, 10, [1, 0, 0, 2], Want::Reply(2003, NONE)),
    (1, 10, [99, 0, 0, 2], Want::Reply(2003, NONE)),
    (7, 10, [11, 0, 0, 2], Want::Reply(2003, NONE)),
    // the permission: alone, and with an active processor; and a processor that nobody has
    (7, 10, [3, 0, 0, 2], Want::Reply(2002, NONE)),
    (7, 10, [2, 0, 0, 2], Want::Reply(2002, NONE)),
    (1, 10, [8, 1, 0, 2], Want::Reply(2002, NONE)),
    // the processor is active: the caller's own, and that of a master which it may wake
    (1, 10, [2, 0, 0, 2], Want::Reply(1, NONE)),
    (7, 10, [7, 0, 0, 2], Want::Reply(1, NONE)),
    (1, 10, [7, 0, 0, 2], Want::Reply(1, NONE)),
    // it is off; under each acknowledge kind, with the operating point after the step
    (1, 10, [3, 0, 0, 2], Want::Reply(0, NONE)),
    (1, 3, [3, 0, 0, 0], Want::Reply(0, [1, 0, 0])),
    (1, 10, [3, 0, 0, 3], Want::Ack(3, 1, 1)),
    (1, 10, [4, 0, 0, 3], Want::Ack(4, 0, 1)),
    (7, 10, [5, 0, 0, 3], Want::Ack(5, 2002, 0)),
    (1, 10, [62, 0, 0, 3], Want::Ack(62, 2003, 1)),
    (1, 10, [5, 0, 0, 1], Want::Silent),
    (1, 3, [5, 0, 0, 0], Want::Reply(0, [1, 0, 0])),
    (1, 10, [5, 0, 0, 1], Want::Silent),
    // it is suspending: it goes on, and so does its master
    (7, 7, [7, 0, 0, 0], Want::Reply(0, NONE)),
    (7, 3, [7, 0, 0, 0], Want::Reply(0, [3, 0, 0])),
    (1, 10, [7, 1, 0, 3], Want::Ack(7, 0, 1)),
    (7, 3, [7, 0, 0, 0], Want::Reply(0, [1, 0, 0])),
];

#[test]
fn the_first_check_of_a_wake_up_decides(rt: HostRuntime) -> Result<(), Fail> {
    let wrong = wrong_answer_over(rt.alloc(), &WAKING, &WAKEUPS)?;
    all_right(&rt, wrong);
    Ok(())
}

/// SET_WAKEUP_SOURCE: the target, the source, and 1 to arm or 0 to disarm.
static ARMINGS: [Case; 25] = [
    // the target is no processor, alone and with a switch that is none
    (1, 11, [11, 46, 1, 0], Want::Reply(2003, NONE)),
    (1, 11, [1, 46, 1, 0], Want::Reply(2003, NONE)),
    (1, 11, [99, 46, 2, 0], Want::Reply(2003, NONE)),
    // the source is no slave, alone and with a switch that is none
    (1, 11, [2, 3, 1, 0], Want::Reply(2003, NONE)),
    (1, 11, [2, 10, 0, 0], Want::Reply(2003, NONE)),
    (1, 11, [2, 99, 2, 0], Want::Reply(2003, NONE)),
    // the switch, alone, with another's processor, and with a slave that the caller may not use
    (1, 11, [2, 46, 2, 0], Want::Reply(15, NONE)),
    (1, 11, [7, 46, 2, 0], Want::Reply(15, NONE)),
    (7, 11, [7, 33, u32::MAX, 0], Want::Reply(15, NONE)),
    // another's processor, also one that the caller may wake, and nobody's
    (1, 11, [7, 46, 1, 0], Want::Reply(2002, NONE)),
    (7, 11, [2, 46, 0, 0], Want::Reply(2002, NONE)),
    (1, 11, [8, 46, 1, 0], Want::Reply(2002, NONE)),
    // a slave that the caller may not use: one of another master, and one without a record
    (7, 11, [7, 33, 1, 0], Want::Reply(2002, NONE)),
    (1, 11, [2, 45, 1, 0], Want::Reply(2002, NONE)),
    // the permission, with a slave that has no WAKEUP
    (1, 11, [7, 11, 1, 0], Want::Reply(2002, NONE)),
    (1, 11, [2, 12, 1, 0], Want::Reply(2002, NONE)),
    // a slave without WAKEUP, even if it is used
    (1, 11, [2, 11, 1, 0], Want::Reply(19, NONE)),
    (1, 11, [2, 11, 0, 0], Want::Reply(19, NONE)),
    (1, 13, [11, 1, 0, 2], Want::Reply(0, NONE)),
    (1, 11, [2, 11, 1, 0], Want::Reply(19, NONE)),
    // only the permission is needed: nobody uses the slave, and it keeps its state; a processor that is off
    (1, 11, [3, 46, 1, 0], Want::Reply(0, NONE)),
    (1, 3, [46, 0, 0, 0], Want::Reply(0, NONE)),
    // it is armed again; a row that isn't armed is disarmed; another master arms it; further words aren't judged
    (1, 11, [3, 46, 1, 4], Want::Reply(0, NONE)),
    (1, 11, [2, 33, 0, 1], Want::Reply(0, NONE)),
    (7, 11, [7, 46, 1, 3], Want::Reply(0, NONE)),
];

/// A master, a slave, and the processor with which its row is armed.
type Arming = (u32, u32, Option<NodeId>);

fn armed_with(book: &Book, master: u32, slave: u32) -> Option<NodeId> {
    match book.row(NodeId(master), NodeId(slave)) {
        Some(row) => row.armed,
        None => None,
    }
}

fn wrong_arming(book: &Book, armings: &[Arming]) -> Option<usize> {
    for (place, (master, slave, proc)) in armings.iter().enumerate() {
        if armed_with(book, *master, *slave) != *proc {
            return Some(place);
        }
    }
    None
}

/// The arming after these calls: neither a refused slave nor one that was only disarmed is armed.
static ARMED: [Arming; 4] = [
    (1, 46, Some(NodeId(3))),
    (7, 46, Some(NodeId(7))),
    (1, 11, None),
    (1, 33, None),
];

#[test]
fn the_first_check_of_an_arming_decides(rt: HostRuntime) -> Result<(), Fail> {
    let mut desk = settled(rt.alloc(), &WAKING)?;
    all_right(&rt, wrong_answer(&mut desk, &ARMINGS));
    all_right(&rt, wrong_arming(&desk.book, &ARMED));
    Ok(())
}

/// Two masters arm one slave, master 1 with its second processor. The slave is in a state with WAKEUP exactly while
/// one of them is asleep.
static SHARED: [Turn; 27] = [
    (Trigger::Call(1, 11, [3, 46, 1, 0]), &[], &[]),
    (Trigger::Call(7, 11, [7, 46, 1, 0]), &[], &[]),
    // an interrupt doesn't wake a processor that is off or active
    (Trigger::Irq(46), &[], &[]),
    (Trigger::Gic(3), &[], &[]),
    (Trigger::Gic(7), &[], &[]),
    (
        Trigger::Call(1, 10, [3, 0x2001, 0, 2]),
        &[(3, 0x2000)],
        &[3],
    ),
    (Trigger::Call(1, 7, [2, 0, 0, 16]), &[], &[]),
    (Trigger::Call(1, 7, [3, 0, 0, 32]), &[], &[]),
    // the slave follows the sleep of the master, and not that of one of its processors
    (Trigger::Wfi(2), &[], &[2]),
    (Trigger::Wfi(3), &[], &[1, 3, 10, 46]),
    (Trigger::Call(7, 7, [7, 0, 0, 64]), &[], &[]),
    (Trigger::Wfi(7), &[], &[6, 7]),
    // the interrupt of another slave, and numbers that no slave has
    (Trigger::Irq(33), &[], &[]),
    (Trigger::Irq(7), &[], &[]),
    (Trigger::Irq(99), &[], &[]),
    (Trigger::Gic(46), &[], &[]),
    (Trigger::Gic(8), &[], &[]),
    // each wakes its own processor, in one step
    (Trigger::Irq(46), &[(3, 32), (7, 64)], &[1, 3, 6, 7, 10, 46]),
    (Trigger::Irq(46), &[], &[]),
    // one disarms, and the other's arming stays
    (Trigger::Call(7, 11, [7, 46, 0, 0]), &[], &[]),
    (Trigger::Call(1, 7, [3, 0, 0, 48]), &[], &[]),
    (Trigger::Wfi(3), &[], &[1, 3, 10, 46]),
    (Trigger::Call(7, 7, [7, 0, 0, 80]), &[], &[]),
    (Trigger::Wfi(7), &[], &[6, 7]),
    (Trigger::Irq(46), &[(3, 48)], &[1, 3, 10, 46]),
    // an interrupt of a processor itself wakes it, even if no row is armed with it
    (Trigger::Gic(7), &[(7, 80)], &[6, 7]),
    (Trigger::Gic(2), &[(2, 16)], &[2]),
];

static ARMED_BY_ONE: [Arming; 2] = [(1, 46, Some(NodeId(3))), (7, 46, None)];

#[test]
fn a_slave_wakes_a_processor_of_each_master_that_armed_it(rt: HostRuntime) -> Result<(), Fail> {
    let mut desk = settled(rt.alloc(), &WAKING)?;
    all_right(&rt, wrong_turn(&mut desk, &SHARED));
    all_right(&rt, wrong_arming(&desk.book, &ARMED_BY_ONE));
    Ok(())
}

/// Arming doesn't need use of the slave, stays after a release, and is replaced or ended by the same call.
static KEPT: [Turn; 20] = [
    (Trigger::Call(1, 13, [46, 4, 0, 2]), &[], &[46]),
    (Trigger::Call(1, 11, [2, 46, 1, 0]), &[], &[]),
    (Trigger::Call(1, 14, [46, 0, 0, 0]), &[], &[46]),
    (Trigger::Call(1, 7, [2, 0, 0, 16]), &[], &[]),
    (Trigger::Wfi(2), &[], &[1, 2, 10, 46]),
    (Trigger::Irq(46), &[(2, 16)], &[1, 2, 10, 46]),
    // the row is armed with another processor, which is off: the interrupt wakes nobody
    (Trigger::Call(1, 11, [3, 46, 1, 0]), &[], &[]),
    (Trigger::Call(1, 7, [2, 0, 0, 32]), &[], &[]),
    (Trigger::Wfi(2), &[], &[1, 2, 10, 46]),
    (Trigger::Irq(46), &[], &[]),
    (Trigger::Gic(2), &[(2, 32)], &[1, 2, 10, 46]),
    // it is disarmed: the slave doesn't follow the sleep either
    (Trigger::Call(1, 11, [3, 46, 0, 0]), &[], &[]),
    (Trigger::Call(1, 7, [2, 0, 0, 48]), &[], &[]),
    (Trigger::Wfi(2), &[], &[1, 2, 10]),
    (Trigger::Irq(46), &[], &[]),
    (Trigger::Gic(2), &[(2, 48)], &[1, 2, 10]),
    // a second sleeping master, which isn't armed, needs no WAKEUP
    (Trigger::Call(1, 11, [2, 46, 1, 0]), &[], &[]),
    (Trigger::Call(7, 7, [7, 0, 0, 0]), &[], &[]),
    (Trigger::Wfi(7), &[], &[6, 7]),
    (Trigger::Irq(46), &[], &[]),
];

#[test]
fn arming_stays_until_it_is_ended(rt: HostRuntime) -> Result<(), Fail> {
    let mut desk = settled(rt.alloc(), &WAKING)?;
    all_right(&rt, wrong_turn(&mut desk, &KEPT));
    assert!(rt; armed_with(&desk.book, 1, 46) == Some(NodeId(2)));
    Ok(())
}

/// An interrupt or a wake-up ends a suspend before the sleep: nothing starts, a wait does nothing, and the
/// requirement that was scheduled for slave 33 is dropped, so that the slave stays on in the next sleep.
static CANCELLED: [Turn; 27] = [
    (Trigger::Call(1, 13, [33, 1, 0, 2]), &[], &[33]),
    (Trigger::Call(1, 11, [2, 46, 1, 0]), &[], &[]),
    // by the interrupt of an armed slave
    (Trigger::Call(1, 7, [2, 0, 0, 16]), &[], &[]),
    (Trigger::Call(1, 15, [33, 0, 0, 2]), &[], &[]),
    (Trigger::Irq(46), &[], &[]),
    (Trigger::Wfi(2), &[], &[]),
    (Trigger::Call(1, 7, [2, 0, 0, 32]), &[], &[]),
    (Trigger::Wfi(2), &[], &[1, 2, 10, 46]),
    (Trigger::Gic(2), &[(2, 32)], &[1, 2, 10, 46]),
    // by an interrupt of the processor
    (Trigger::Call(1, 7, [2, 0, 0, 48]), &[], &[]),
    (Trigger::Call(1, 15, [33, 0, 0, 2]), &[], &[]),
    (Trigger::Gic(2), &[], &[]),
    (Trigger::Wfi(2), &[], &[]),
    (Trigger::Call(1, 7, [2, 0, 0, 64]), &[], &[]),
    (Trigger::Wfi(2), &[], &[1, 2, 10, 46]),
    (Trigger::Irq(46), &[(2, 64)], &[1, 2, 10, 46]),
    // by a call
    (Trigger::Call(1, 7, [2, 0, 0, 80]), &[], &[]),
    (Trigger::Call(1, 15, [33, 0, 0, 2]), &[], &[]),
    (Trigger::Call(1, 10, [2, 0x1001, 0, 2]), &[], &[]),
    (Trigger::Wfi(2), &[], &[]),
    (Trigger::Call(1, 7, [2, 0, 0, 96]), &[], &[]),
    (Trigger::Wfi(2), &[], &[1, 2, 10, 46]),
    (Trigger::Irq(46), &[(2, 96)], &[1, 2, 10, 46]),
    // and a suspend that isn't ended: the scheduled requirement comes into force, and waking undoes it
    (Trigger::Call(1, 7, [2, 0, 0, 112]), &[], &[]),
    (Trigger::Call(1, 15, [33, 0, 0, 2]), &[], &[]),
    (Trigger::Wfi(2), &[], &[1, 2, 10, 33, 46]),
    (Trigger::Irq(46), &[(2, 112)], &[1, 2, 10, 33, 46]),
];

#[test]
fn a_waking_before_the_sleep_cancels_the_schedule(rt: HostRuntime) -> Result<(), Fail> {
    let wrong = wrong_turn_over(rt.alloc(), &WAKING, &CANCELLED)?;
    all_right(&rt, wrong);
    Ok(())
}

/// The addresses at which processors start that a call wakes.
static ADDRESSES: [Turn; 20] = [
    // one that was off: at 0 without bit 0, else at the address, less that bit
    (Trigger::Call(1, 10, [3, 0x3000, 5, 2]), &[(3, 0)], &[3]),
    (Trigger::Call(1, 10, [4, 1, 0, 2]), &[(4, 0)], &[4]),
    (
        Trigger::Call(1, 10, [5, u32::MAX, u32::MAX, 2]),
        &[(5, 0xFFFF_FFFF_FFFF_FFFE)],
        &[5],
    ),
    // one that is asleep: at its resume address without bit 0, else at the address
    (Trigger::Call(7, 7, [7, 0, 0, 0x2000]), &[], &[]),
    (Trigger::Wfi(7), &[], &[6, 7]),
    (
        Trigger::Call(1, 10, [7, 0x3000, 5, 2]),
        &[(7, 0x2000)],
        &[6, 7],
    ),
    (Trigger::Call(7, 7, [7, 0, 0, 0x2000]), &[], &[]),
    (Trigger::Wfi(7), &[], &[6, 7]),
    (
        Trigger::Call(1, 10, [7, 0x3001, 5, 1]),
        &[(7, 0x5_0000_3000)],
        &[6, 7],
    ),
    (Trigger::Call(7, 7, [7, 0, 0, 0x2000]), &[], &[]),
    (Trigger::Wfi(7), &[], &[6, 7]),
    (Trigger::Call(1, 10, [7, 1, 0, 3]), &[(7, 0)], &[6, 7]),
    // one that is suspending or active doesn't start
    (Trigger::Call(7, 7, [7, 0, 0, 0x2000]), &[], &[]),
    (Trigger::Call(1, 10, [7, 0x3001, 0, 2]), &[], &[]),
    (Trigger::Wfi(7), &[], &[]),
    (Trigger::Call(1, 10, [7, 0x3001, 0, 2]), &[], &[]),
    // a caller that may not wake a sleeping processor starts nothing; its own master may
    (Trigger::Call(1, 7, [2, 0, 0, 16]), &[], &[]),
    (Trigger::Wfi(2), &[], &[2]),
    (Trigger::Call(7, 10, [2, 1, 0, 2]), &[], &[]),
    (Trigger::Call(1, 10, [2, 0x21, 0, 2]), &[(2, 0x20)], &[2]),
];

#[test]
fn a_processor_that_is_woken_starts_at_its_address(rt: HostRuntime) -> Result<(), Fail> {
    let wrong = wrong_turn_over(rt.alloc(), &WAKING, &ADDRESSES)?;
    all_right(&rt, wrong);
    Ok(())
}
