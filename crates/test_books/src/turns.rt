//! The starts and the moves of a step.

use crate::desk::{Desk, settled};
use crate::events::{Trigger, event_of};
use pm_base::{NodeId, Unit};
use pm_core::Outbox;
use std::alloc::Global;
use std::test::Fail;

/// Whether exactly these nodes moved, in order.
pub fn have_moved(out: &Outbox, nodes: &[u32]) -> bool {
    let moved = out.moved.as_slice();
    for (place, node) in nodes.iter().enumerate() {
        if moved.get(place).copied() != Some(Unit::Node(NodeId(*node))) {
            return false;
        }
    }
    moved.len() == nodes.len()
}

/// Whether exactly these processors started, each at its address.
pub fn have_started(out: &Outbox, procs: &[(u32, u64)]) -> bool {
    let starts = out.starts.as_slice();
    for (place, wanted) in procs.iter().enumerate() {
        let found = match starts.get(place) {
            Some(start) => (start.proc.0, start.address),
            None => return false,
        };
        if found != *wanted {
            return false;
        }
    }
    starts.len() == procs.len()
}

/// A row: an event, the processors that start with their addresses, and the nodes that move, each in order.
pub type Turn = (Trigger, &'static [(u32, u64)], &'static [u32]);

/// The index of the first row with other starts or moves.
pub fn wrong_turn(desk: &mut Desk, turns: &[Turn]) -> Option<usize> {
    for (place, (trigger, starts, moved)) in turns.iter().enumerate() {
        desk.take(&event_of(*trigger));
        if !have_started(&desk.out, starts) || !have_moved(&desk.out, moved) {
            return Some(place);
        }
    }
    None
}

/// The index of the first row with other starts or moves, over a settled book of an object of these words.
pub fn wrong_turn_over(
    alloc: Global,
    words: &[u32],
    turns: &[Turn],
) -> Result<Option<usize>, Fail> {
    let mut desk = settled(alloc, words)?;
    Ok(wrong_turn(&mut desk, turns))
}
