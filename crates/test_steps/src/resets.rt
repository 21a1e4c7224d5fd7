//! Reset lines are asserted, released and pulsed; nodes tell their power figures and latencies.

use crate::rows::all_right;
use pm_base::NodeId;
use pm_core::Outbox;
use std::test::Fail;
use test_books::{
    Case, Desk, Trigger, Turn, Want, event_of, settled, wrong_answer, wrong_answer_over, wrong_turn,
};

/// Masters 1 and 7, both of which may use slaves 11, 33 and 46. The first may wake 7, and reset the lines of slave
/// 33, of processor 7 and of processor 8, which nobody has. Master 7 may reset the line of processor 2.
static RESETS: [u32; 36] = [
    2, 3, 1, 0x101, 2, 1, 0x1, 100, 0, 0x100, 7, 0x100, 100, 0, 0, 0x102, 3, 11, 1, 0x101, 33, 1,
    0x101, 46, 1, 0x101, 0x105, 4, 33, 0x1, 7, 0x1, 8, 0x1, 2, 0x100,
];

/// No reply words.
const NONE: [u32; 3] = [0; 3];

/// RESET_ASSERT and RESET_GET_STATUS: the line and the action.
static CHECKS: [Case; 32] = [
    // the line: no node, and a power node, alone and with a bad action
    (1, 17, [99, 0, 0, 0], Want::Reply(2003, NONE)),
    (1, 17, [62, 1, 0, 0], Want::Reply(2003, NONE)),
    (1, 17, [1000, 3, 0, 0], Want::Reply(2003, NONE)),
    (1, 18, [99, 0, 0, 0], Want::Reply(2003, NONE)),
    (7, 18, [62, 0, 0, 0], Want::Reply(2003, NONE)),
    // the action, alone and with a line that the caller may not reset
    (1, 17, [33, 3, 0, 0], Want::Reply(15, NONE)),
    (1, 17, [33, u32::MAX, 0, 0], Want::Reply(15, NONE)),
    (7, 17, [33, 3, 0, 0], Want::Reply(15, NONE)),
    // the permission, of each action; and a line without a record
    (7, 17, [33, 0, 0, 0], Want::Reply(2002, NONE)),
    (7, 17, [33, 1, 0, 0], Want::Reply(2002, NONE)),
    (1, 17, [2, 2, 0, 0], Want::Reply(2002, NONE)),
    (1, 17, [34, 1, 0, 0], Want::Reply(2002, NONE)),
    // nothing has changed so far; the status needs no permission
    (1, 18, [33, 0, 0, 0], Want::Reply(0, NONE)),
    (1, 18, [34, 0, 0, 0], Want::Reply(0, NONE)),
    (7, 18, [2, 0, 0, 0], Want::Reply(0, NONE)),
    // each action, from 0 and from 1
    (1, 17, [33, 0, 0, 0], Want::Reply(0, NONE)),
    (7, 18, [33, 0, 0, 0], Want::Reply(0, NONE)),
    (1, 17, [33, 1, 0, 0], Want::Reply(0, NONE)),
    (7, 18, [33, 0, 0, 0], Want::Reply(0, [1, 0, 0])),
    (1, 17, [33, 1, 0, 0], Want::Reply(0, NONE)),
    (1, 18, [33, 0, 0, 0], Want::Reply(0, [1, 0, 0])),
    (1, 17, [33, 2, 0, 0], Want::Reply(0, NONE)),
    (1, 18, [33, 0, 0, 0], Want::Reply(0, NONE)),
    (1, 17, [33, 2, 0, 0], Want::Reply(0, NONE)),
    (1, 18, [33, 0, 0, 0], Want::Reply(0, NONE)),
    (1, 17, [33, 1, 0, 0], Want::Reply(0, NONE)),
    (1, 17, [33, 0, 0, 0], Want::Reply(0, NONE)),
    (1, 18, [33, 0, 0, 0], Want::Reply(0, NONE)),
    // the line of a processor that nobody has; no other line changes
    (1, 17, [8, 1, 0, 0], Want::Reply(0, NONE)),
    (1, 18, [8, 0, 0, 0], Want::Reply(0, [1, 0, 0])),
    (1, 18, [7, 0, 0, 0], Want::Reply(0, NONE)),
    (1, 3, [8, 0, 0, 0], Want::Reply(0, NONE)),
];

#[test]
fn the_first_check_of_a_reset_decides(rt: HostRuntime) -> Result<(), Fail> {
    let wrong = wrong_answer_over(rt.alloc(), &RESETS, &CHECKS)?;
    all_right(&rt, wrong);
    Ok(())
}

/// A slave under reset keeps its state, and can be requested. A processor whose line is released stays active. If its
/// line is asserted or pulsed it goes off, and so does its master, with its rows and their arming.
static STOPS: [Case; 20] = [
    (7, 13, [33, 2, 0, 2], Want::Reply(0, NONE)),
    (1, 17, [33, 1, 0, 0], Want::Reply(0, NONE)),
    (7, 3, [33, 0, 0, 0], Want::Reply(0, [1, 2, 1])),
    (7, 14, [33, 0, 0, 0], Want::Reply(0, NONE)),
    (7, 13, [33, 2, 0, 2], Want::Reply(0, NONE)),
    (7, 3, [33, 0, 0, 0], Want::Reply(0, [1, 2, 1])),
    (7, 11, [7, 46, 1, 0], Want::Reply(0, NONE)),
    (1, 17, [7, 0, 0, 0], Want::Reply(0, NONE)),
    (1, 3, [7, 0, 0, 0], Want::Reply(0, [1, 0, 0])),
    (7, 3, [7, 0, 0, 0], Want::Reply(0, [1, 0, 0])),
    (1, 17, [7, 1, 0, 0], Want::Reply(0, NONE)),
    (7, 3, [7, 0, 0, 0], Want::Drop),
    (1, 3, [7, 0, 0, 0], Want::Reply(0, NONE)),
    (1, 3, [33, 0, 0, 0], Want::Reply(0, NONE)),
    (1, 18, [7, 0, 0, 0], Want::Reply(0, [1, 0, 0])),
    // an asserted line doesn't prevent a start
    (1, 10, [7, 0, 0, 2], Want::Reply(0, NONE)),
    (7, 3, [7, 0, 0, 0], Want::Reply(0, [1, 0, 0])),
    (7, 3, [33, 0, 0, 0], Want::Reply(0, NONE)),
    (1, 18, [7, 0, 0, 0], Want::Reply(0, [1, 0, 0])),
    (1, 17, [7, 0, 0, 0], Want::Reply(0, NONE)),
];

/// A processor is reset while it is active and while it sleeps. The slave that its master armed doesn't wake it any
/// more. It starts at 0, whatever its resume address was.
static RESUMED: [Turn; 11] = [
    (Trigger::Call(7, 11, [7, 46, 1, 0]), &[], &[]),
    (Trigger::Call(7, 7, [7, 0, 0, 0x2000]), &[], &[]),
    (Trigger::Call(1, 17, [7, 0, 0, 0]), &[], &[]),
    (Trigger::Call(1, 17, [7, 2, 0, 0]), &[], &[6, 7]),
    (Trigger::Irq(46), &[], &[]),
    (Trigger::Gic(7), &[], &[]),
    (Trigger::Call(1, 10, [7, 0, 0, 2]), &[(7, 0)], &[6, 7]),
    (Trigger::Call(7, 7, [7, 0, 0, 0x3000]), &[], &[]),
    (Trigger::Wfi(7), &[], &[6, 7]),
    (Trigger::Call(1, 17, [7, 2, 0, 0]), &[], &[]),
    (Trigger::Call(1, 10, [7, 0, 0, 2]), &[(7, 0)], &[6, 7]),
];

#[test]
fn a_reset_stops_a_processor_and_no_slave(rt: HostRuntime) -> Result<(), Fail> {
    let mut desk = settled(rt.alloc(), &RESETS)?;
    all_right(&rt, wrong_answer(&mut desk, &STOPS));
    all_right(&rt, wrong_turn(&mut desk, &RESUMED));
    assert!(rt;
        desk.book
            .row(NodeId(7), NodeId(46))
            .map_or(true, |row| row.armed.is_none())
    );
    Ok(())
}

/// A row: an event, and the line that its step pulses.
type Pulse = (Trigger, Option<u32>);

fn pulse_in(out: &Outbox) -> Option<u32> {
    out.pulse.map(|line| line.0)
}

/// Only an accepted pulse counts, and only in its own step.
static PULSES: [Pulse; 7] = [
    (Trigger::Call(1, 17, [33, 1, 0, 0]), None),
    (Trigger::Call(1, 17, [33, 2, 0, 0]), Some(33)),
    (Trigger::Call(1, 17, [33, 0, 0, 0]), None),
    (Trigger::Call(7, 17, [2, 2, 0, 0]), Some(2)),
    (Trigger::Call(1, 17, [7, 2, 0, 0]), None),
    (Trigger::Boot(2, 0), None),
    (Trigger::Call(1, 17, [34, 2, 0, 0]), None),
];

fn wrong_pulse(desk: &mut Desk, pulses: &[Pulse]) -> Option<usize> {
    for (place, (trigger, pulse)) in pulses.iter().enumerate() {
        desk.take(&event_of(*trigger));
        if pulse_in(&desk.out) != *pulse {
            return Some(place);
        }
    }
    None
}

#[test]
fn a_pulse_is_put_out_once(rt: HostRuntime) -> Result<(), Fail> {
    let mut desk = settled(rt.alloc(), &RESETS)?;
    all_right(&rt, wrong_pulse(&mut desk, &PULSES));
    Ok(())
}

/// GET_OP_CHARACTERISTIC: the node, and 1 for the power figure or 3 for the latency.
static CHARACTERISTICS: [Case; 29] = [
    // the node, alone and with a bad characteristic
    (1, 4, [99, 1, 0, 0], Want::Reply(2003, NONE)),
    (1, 4, [99, 9, 0, 0], Want::Reply(2003, NONE)),
    (7, 4, [0, 2, 0, 0], Want::Reply(2003, NONE)),
    // the characteristic
    (1, 4, [11, 0, 0, 0], Want::Reply(15, NONE)),
    (1, 4, [11, 4, 0, 0], Want::Reply(15, NONE)),
    (1, 4, [11, 2, 0, 0], Want::Reply(19, NONE)),
    // a memory in each state, even for a master that may not use it
    (1, 4, [11, 1, 0, 0], Want::Reply(0, NONE)),
    (1, 4, [11, 3, 0, 0], Want::Reply(0, [1000, 0, 0])),
    (1, 4, [12, 3, 0, 0], Want::Reply(0, [1000, 0, 0])),
    (1, 13, [11, 2, 0, 2], Want::Reply(0, NONE)),
    (1, 4, [11, 1, 0, 0], Want::Reply(0, [5, 0, 0])),
    (1, 4, [11, 3, 0, 0], Want::Reply(0, [300, 0, 0])),
    (1, 15, [11, 1, 0, 2], Want::Reply(0, NONE)),
    (7, 4, [11, 1, 0, 0], Want::Reply(0, [15, 0, 0])),
    (7, 4, [11, 3, 0, 0], Want::Reply(0, NONE)),
    // processors that are active, suspending and off
    (1, 4, [2, 1, 0, 0], Want::Reply(0, [300, 0, 0])),
    (1, 4, [2, 3, 0, 0], Want::Reply(0, NONE)),
    (1, 4, [3, 1, 0, 0], Want::Reply(0, NONE)),
    (1, 4, [3, 3, 0, 0], Want::Reply(0, [400, 0, 0])),
    (1, 4, [8, 3, 0, 0], Want::Reply(0, [200, 0, 0])),
    (7, 7, [7, 0, 0, 0], Want::Reply(0, NONE)),
    (7, 4, [7, 1, 0, 0], Want::Reply(0, [100, 0, 0])),
    (7, 4, [7, 3, 0, 0], Want::Reply(0, NONE)),
    (7, 4, [7, 2, 0, 0], Want::Reply(19, NONE)),
    // power nodes that are up and down
    (1, 4, [62, 1, 0, 0], Want::Reply(0, [20, 0, 0])),
    (1, 4, [62, 3, 0, 0], Want::Reply(0, NONE)),
    (1, 4, [9, 1, 0, 0], Want::Reply(0, NONE)),
    (1, 4, [9, 3, 0, 0], Want::Reply(0, [1000, 0, 0])),
    (1, 4, [10, 1, 0, 0], Want::Reply(0, [80, 0, 0])),
];

#[test]
fn a_node_has_a_figure_and_a_latency(rt: HostRuntime) -> Result<(), Fail> {
    let wrong = wrong_answer_over(rt.alloc(), &RESETS, &CHARACTERISTICS)?;
    all_right(&rt, wrong);
    Ok(())
}
