//! Processors and power nodes are forced down, whoever uses them.

use crate::rows::all_right;
use pm_base::NodeId;
use pm_core::Answer;
use std::test::Fail;
use test_books::{
    Case, Notice, Trigger, Turn, Want, event_of, settled, wrong_answer_over, wrong_notice_over,
    wrong_turn, wrong_turn_over,
};

/// Masters 1, 7 and 8, which may use slaves 11, 15, 19 and 46. The first may suspend and wake the others. Power nodes
/// 10 (by 1 and 7), 1 and 62 (by 7), 6 and 9 (by 1), and processors 2 (by 1 and 7), 3 and 7 (by 1) may be forced. The
/// first may shut down by subtype 1, and 7 by subtype 2.
pub(crate) static FORCING: [u32; 58] = [
    2, 4, 1, 0x101, 3, 1, 0x1, 100, 0x300, 0x300, 7, 0x100, 40, 0x1, 0, 8, 0x200, 0, 0, 0, 0x102,
    4, 11, 1, 0x301, 15, 1, 0x301, 19, 1, 0x301, 46, 1, 0x301, 0x104, 8, 10, 0x101, 1, 0x100, 6,
    0x1, 62, 0x100, 9, 0x1, 2, 0x101, 7, 0x1, 3, 0x1, 0x106, 2, 1, 0x1, 2, 0x100,
];

/// No reply words.
const NONE: [u32; 3] = [0; 3];

/// FORCE_POWERDOWN: the node and the acknowledge kind.
static FORCES: [Case; 20] = [
    // the acknowledge kind: alone, with a slave, and without the permission
    (1, 8, [10, 0, 0, 0], Want::Reply(15, NONE)),
    (1, 8, [11, 4, 0, 0], Want::Reply(15, NONE)),
    (7, 8, [9, 4, 0, 0], Want::Reply(15, NONE)),
    // the node: a slave, and none
    (1, 8, [11, 2, 0, 0], Want::Reply(2003, NONE)),
    (1, 8, [99, 2, 0, 0], Want::Reply(2003, NONE)),
    (7, 8, [0, 2, 0, 0], Want::Reply(2003, NONE)),
    // the permission: that of another master, even for a processor of one's own and for its node; and that of
    // nobody
    (1, 8, [1, 2, 0, 0], Want::Reply(2002, NONE)),
    (1, 8, [62, 2, 0, 0], Want::Reply(2002, NONE)),
    (1, 8, [4, 2, 0, 0], Want::Reply(2002, NONE)),
    (7, 8, [6, 2, 0, 0], Want::Reply(2002, NONE)),
    (7, 8, [7, 2, 0, 0], Want::Reply(2002, NONE)),
    (1, 8, [8, 2, 0, 0], Want::Reply(2002, NONE)),
    // refusals under the other acknowledge kinds
    (1, 8, [62, 3, 0, 0], Want::Ack(62, 2002, 1)),
    (1, 8, [11, 3, 0, 0], Want::Ack(11, 2003, 0)),
    (1, 8, [62, 1, 0, 0], Want::Silent),
    // a power node below which nothing runs, and a processor that is off
    (1, 8, [9, 2, 0, 0], Want::Reply(0, NONE)),
    (1, 8, [3, 3, 0, 0], Want::Ack(3, 0, 0)),
    (1, 8, [3, 1, 0, 0], Want::Silent),
    // the operating point after the step; a master whose processors went off isn't heard any more
    (1, 8, [6, 3, 0, 0], Want::Ack(6, 0, 0)),
    (7, 8, [1, 2, 0, 0], Want::Drop),
];

#[test]
fn the_first_check_of_a_force_decides(rt: HostRuntime) -> Result<(), Fail> {
    let wrong = wrong_answer_over(rt.alloc(), &FORCING, &FORCES)?;
    all_right(&rt, wrong);
    Ok(())
}

/// Each power node is forced while several masters run and use slaves below it.
static POWERS: [Turn; 20] = [
    (Trigger::Boot(8, 0), &[(8, 0)], &[8]),
    (Trigger::Call(1, 13, [11, 1, 0, 2]), &[], &[11]),
    (Trigger::Call(1, 13, [15, 1, 0, 2]), &[], &[15]),
    (Trigger::Call(7, 13, [19, 1, 0, 2]), &[], &[19]),
    (Trigger::Call(8, 13, [19, 1, 0, 2]), &[], &[]),
    // the processors of master 1 go off with their domain, and its rows are cleared; so are the rows of others
    // below the domain
    (
        Trigger::Call(7, 8, [10, 2, 0, 0]),
        &[],
        &[1, 2, 10, 11, 15, 19],
    ),
    (Trigger::Boot(2, 64), &[(2, 64)], &[1, 2, 10]),
    // slaves in use elsewhere keep the domain above up
    (Trigger::Call(7, 13, [19, 1, 0, 2]), &[], &[19]),
    (Trigger::Call(7, 8, [1, 2, 0, 0]), &[], &[1, 2]),
    (Trigger::Boot(2, 0), &[(2, 0)], &[1, 2]),
    // both masters below it go off, and slaves that only they used go down
    (Trigger::Call(1, 13, [11, 1, 0, 2]), &[], &[11]),
    (Trigger::Call(8, 13, [15, 1, 0, 2]), &[], &[15]),
    (Trigger::Call(1, 8, [6, 2, 0, 0]), &[], &[6, 7, 8, 15, 19]),
    (Trigger::Boot(7, 0), &[(7, 0)], &[6, 7]),
    // a held node stays up, but its own caller goes off
    (Trigger::Call(7, 13, [46, 1, 0, 2]), &[], &[46]),
    (Trigger::Call(7, 8, [62, 2, 0, 0]), &[], &[6, 7, 11, 46]),
    (Trigger::Call(7, 8, [62, 2, 0, 0]), &[], &[]),
    (Trigger::Call(1, 13, [11, 1, 0, 2]), &[], &[11]),
    (Trigger::Call(1, 8, [9, 2, 0, 0]), &[], &[]),
    (Trigger::Call(1, 8, [10, 2, 0, 0]), &[], &[1, 2, 10, 11]),
];

#[test]
fn a_power_node_falls_with_all_below_it(rt: HostRuntime) -> Result<(), Fail> {
    let wrong = wrong_turn_over(rt.alloc(), &FORCING, &POWERS)?;
    all_right(&rt, wrong);
    Ok(())
}

/// A processor is forced: its master goes off with it, and loses its arming and its resume address.
static PROCESSORS: [Turn; 16] = [
    (Trigger::Call(7, 11, [7, 46, 1, 0]), &[], &[]),
    (Trigger::Call(1, 13, [15, 1, 0, 2]), &[], &[15]),
    (Trigger::Call(1, 8, [7, 1, 0, 0]), &[], &[7]),
    (Trigger::Boot(7, 256), &[(7, 256)], &[7]),
    (Trigger::Call(7, 7, [7, 0, 0, 512]), &[], &[]),
    (Trigger::Wfi(7), &[], &[7]),
    // the slave that was armed doesn't wake it any more, but an interrupt of its own does
    (Trigger::Irq(46), &[], &[]),
    (Trigger::Gic(7), &[(7, 512)], &[7]),
    // one that sleeps is off
    (Trigger::Call(7, 7, [7, 0, 0, 1024]), &[], &[]),
    (Trigger::Wfi(7), &[], &[7]),
    (Trigger::Call(1, 8, [7, 2, 0, 0]), &[], &[]),
    (Trigger::Gic(7), &[], &[]),
    (Trigger::Call(1, 10, [7, 0, 0, 2]), &[(7, 0)], &[7]),
    // rows on slaves below other nodes stay, and so do those of other masters
    (Trigger::Call(7, 13, [15, 1, 0, 2]), &[], &[]),
    (Trigger::Call(1, 8, [7, 2, 0, 0]), &[], &[7]),
    (Trigger::Call(1, 14, [15, 0, 0, 0]), &[], &[6, 15]),
];

#[test]
fn a_processor_falls_alone(rt: HostRuntime) -> Result<(), Fail> {
    let wrong = wrong_turn_over(rt.alloc(), &FORCING, &PROCESSORS)?;
    all_right(&rt, wrong);
    Ok(())
}

/// A request that is pending on a master ends with success when the master is forced off.
static REQUESTS: [Notice; 6] = [
    (
        Trigger::Call(1, 6, [7, 2, 50, 1]),
        &[],
        &[(7, 30, [201, 50, 1, 40])],
    ),
    (Trigger::Call(1, 8, [7, 2, 0, 0]), &[(1, 0)], &[]),
    (Trigger::Boot(7, 0), &[], &[]),
    (
        Trigger::Call(1, 6, [7, 3, 50, 1]),
        &[],
        &[(7, 30, [201, 50, 1, 40])],
    ),
    (
        Trigger::Call(1, 8, [6, 2, 0, 0]),
        &[],
        &[(1, 31, [7, 0, 0, 0])],
    ),
    (Trigger::Tick(100), &[], &[]),
];

#[test]
fn a_force_ends_what_is_pending(rt: HostRuntime) -> Result<(), Fail> {
    let wrong = wrong_notice_over(rt.alloc(), &FORCING, &REQUESTS)?;
    all_right(&rt, wrong);
    Ok(())
}

/// Master 1 with its second processor asleep.
static SECOND_SLEEPS: [Turn; 3] = [
    (Trigger::Boot(3, 0), &[(3, 0)], &[3]),
    (Trigger::Call(1, 7, [3, 0, 0, 0]), &[], &[]),
    (Trigger::Wfi(3), &[], &[3]),
];

#[test]
fn the_acknowledgement_of_a_caller_that_sleeps_then_is_not_shown(
    rt: HostRuntime,
) -> Result<(), Fail> {
    let mut desk = settled(rt.alloc(), &FORCING)?;
    all_right(&rt, wrong_turn(&mut desk, &SECOND_SLEEPS));
    let answer = desk.take(&event_of(Trigger::Call(1, 8, [2, 3, 0, 0])));
    let unseen = Answer::Ack {
        master: NodeId(1),
        node: NodeId(2),
        status: 0,
        point: 0,
        shown: false,
    };
    assert!(rt; answer == unseen);
    Ok(())
}
