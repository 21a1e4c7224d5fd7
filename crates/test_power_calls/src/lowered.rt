//! The events that power calls become.

use crate::tables::{Words, all_right, smc_of};
use pm_base::{Event, Message, NodeId};
use pm_chip::zynqmp;
use pm_psci::lower;
use pm_topology::Topology;
use std::test::Fail;

/// The expected events of a call.
enum Lowered {
    /// One message of master 1.
    Message(u32, [u32; 5]),
    /// The message by which a processor suspends itself, and then its wait for an interrupt.
    Off(u32),
    /// No event.
    Pass,
}

/// A row: a call, and its events.
static CALLS: [(Words, Lowered); 36] = [
    // CPU_ON in both forms, each target, and the first number past them
    (
        (2, 0xC400_0003, [1, 4096, 0]),
        Lowered::Message(10, [3, 4097, 0, 2, 0]),
    ),
    (
        (2, 0x8400_0003, [1, 4096, 0]),
        Lowered::Message(10, [3, 4097, 0, 2, 0]),
    ),
    (
        (5, 0xC400_0003, [0, 0, 0]),
        Lowered::Message(10, [2, 1, 0, 2, 0]),
    ),
    (
        (3, 0x8400_0003, [3, 2, 77]),
        Lowered::Message(10, [5, 3, 0, 2, 0]),
    ),
    ((2, 0xC400_0003, [4, 0, 0]), Lowered::Pass),
    ((2, 0x8400_0003, [4, 0, 0]), Lowered::Pass),
    // entries above 32 bits, and at the edge of a word
    (
        (2, 0xC400_0003, [2, 0x7_FFFF_FFFE, 0]),
        Lowered::Message(10, [4, 0xFFFF_FFFF, 7, 2, 0]),
    ),
    (
        (2, 0x8400_0003, [2, 0x7_FFFF_FFFE, 0]),
        Lowered::Message(10, [4, 0xFFFF_FFFF, 0, 2, 0]),
    ),
    (
        (2, 0xC400_0003, [2, 0xFFFF_FFFF_0000_0000, 0]),
        Lowered::Message(10, [4, 1, 0xFFFF_FFFF, 2, 0]),
    ),
    // odd entries
    ((2, 0xC400_0003, [1, 4097, 0]), Lowered::Pass),
    ((2, 0x8400_0003, [1, 1, 0]), Lowered::Pass),
    ((2, 0xC400_0003, [1, u64::MAX, 0]), Lowered::Pass),
    // targets above 32 bits: the form of 32 bits doesn't see it
    ((2, 0xC400_0003, [0x1_0000_0001, 0, 0]), Lowered::Pass),
    (
        (2, 0x8400_0003, [0x1_0000_0001, 0, 0]),
        Lowered::Message(10, [3, 1, 0, 2, 0]),
    ),
    ((2, 0xC400_0003, [u64::MAX, 0, 0]), Lowered::Pass),
    // CPU_OFF, which has no form of 64 bits
    ((2, 0x8400_0002, [0, 0, 0]), Lowered::Off(2)),
    ((5, 0x8400_0002, [9, 9, 9]), Lowered::Off(5)),
    ((2, 0xC400_0002, [0, 0, 0]), Lowered::Pass),
    // AFFINITY_INFO in both forms
    (
        (2, 0xC400_0004, [1, 0, 0]),
        Lowered::Message(3, [3, 0, 0, 0, 0]),
    ),
    (
        (4, 0x8400_0004, [3, 0, 5]),
        Lowered::Message(3, [5, 0, 0, 0, 0]),
    ),
    ((2, 0xC400_0004, [4, 0, 0]), Lowered::Pass),
    ((2, 0xC400_0004, [1, 1, 0]), Lowered::Pass),
    ((2, 0x8400_0004, [1, 0xFFFF_FFFF, 0]), Lowered::Pass),
    // a level is taken as 32 bits in either form
    (
        (2, 0xC400_0004, [1, 0x1_0000_0000, 0]),
        Lowered::Message(3, [3, 0, 0, 0, 0]),
    ),
    (
        (2, 0x8400_0004, [0x5_0000_0000, 0x1_0000_0000, 0]),
        Lowered::Message(3, [2, 0, 0, 0, 0]),
    ),
    ((2, 0xC400_0004, [0x5_0000_0000, 0, 0]), Lowered::Pass),
    // shutdown and restart, which have no form of 64 bits
    (
        (2, 0x8400_0008, [0, 0, 0]),
        Lowered::Message(12, [0, 2, 0, 0, 0]),
    ),
    (
        (3, 0x8400_0009, [1, 2, 3]),
        Lowered::Message(12, [1, 2, 0, 0, 0]),
    ),
    ((2, 0xC400_0008, [0, 0, 0]), Lowered::Pass),
    ((2, 0xC400_0009, [0, 0, 0]), Lowered::Pass),
    // other numbers: CPU_SUSPEND among them
    ((2, 0x8400_0001, [0, 0, 0]), Lowered::Pass),
    ((2, 0xC400_0001, [0, 0, 0]), Lowered::Pass),
    ((2, 1, [0, 0, 0]), Lowered::Pass),
    // callers that are no processors of master 1
    ((7, 0x8400_0002, [0, 0, 0]), Lowered::Pass),
    ((1, 0x8400_0008, [0, 0, 0]), Lowered::Pass),
    ((0, 0xC400_0003, [1, 0, 0]), Lowered::Pass),
];

/// The event at a place among the expected ones.
fn expected(lowered: &Lowered, k: usize) -> Option<Event> {
    match (lowered, k) {
        (Lowered::Message(api, args), 0) => Some(sent(*api, *args)),
        (Lowered::Off(proc), 0) => Some(sent(7, [*proc, 0, 0, 0, 0])),
        (Lowered::Off(proc), 1) => Some(Event::Wfi {
            proc: NodeId(*proc),
        }),
        (Lowered::Pass, 0) => Some(Event::Pass),
        _ => None,
    }
}

fn sent(api: u32, args: [u32; 5]) -> Event {
    Event::Ipi {
        master: NodeId(1),
        message: Message { api, args },
    }
}

/// Whether a call becomes exactly these events.
fn is_lowered(t: &Topology, words: &Words, lowered: &Lowered) -> bool {
    let smc = smc_of(words);
    lower(t, &smc, 0) == expected(lowered, 0)
        && lower(t, &smc, 1) == expected(lowered, 1)
        && lower(t, &smc, 2).is_none()
        && lower(t, &smc, usize::MAX).is_none()
}

/// The index of the first row with other events.
fn wrong_call(t: &Topology) -> Option<usize> {
    for (place, (words, lowered)) in CALLS.iter().enumerate() {
        if !is_lowered(t, words, lowered) {
            return Some(place);
        }
    }
    None
}

#[test]
fn each_call_comes_to_its_messages(rt: HostRuntime) -> Result<(), Fail> {
    all_right(&rt, wrong_call(&zynqmp(rt.alloc())?));
    Ok(())
}
