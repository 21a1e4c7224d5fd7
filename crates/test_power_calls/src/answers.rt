//! The answers to power calls.

use crate::tables::{Words, all_right, smc_of};
use pm_chip::zynqmp;
use pm_ipi::Response;
use pm_psci::answer;
use pm_topology::Topology;
use std::test::Fail;

const ON: Words = (2, 0xC400_0003, [1, 4096, 0]);

const ON_32: Words = (2, 0x8400_0003, [1, 4096, 0]);

const OFF: Words = (3, 0x8400_0002, [0, 0, 0]);

const INFO: Words = (2, 0xC400_0004, [1, 0, 0]);

const INFO_32: Words = (2, 0x8400_0004, [1, 0, 0]);

const SHUTDOWN: Words = (2, 0x8400_0008, [0, 0, 0]);

const RESTART: Words = (2, 0x8400_0009, [0, 0, 0]);

/// A row: a call, the status and the first word of the reply to its message, and the answer to the call.
static ANSWERS: [(Words, Option<(u32, u32)>, Option<i32>); 48] = [
    // CPU_ON: started; on already; refused for another reason, or a command failed
    (ON, Some((0, 0)), Some(0)),
    (ON_32, Some((0, 0)), Some(0)),
    (ON, Some((1, 0)), Some(-4)),
    (ON_32, Some((1, 0)), Some(-4)),
    (ON, Some((2002, 0)), Some(-6)),
    (ON, Some((2000, 0)), Some(-6)),
    (ON_32, Some((15, 0)), Some(-6)),
    (ON, Some((2, 0)), Some(-6)),
    (ON, None, None),
    (ON_32, None, None),
    // CPU_OFF: no answer if it is done
    (OFF, Some((0, 0)), None),
    (OFF, Some((1, 0)), Some(-3)),
    (OFF, Some((2004, 0)), Some(-3)),
    (OFF, Some((2000, 0)), Some(-3)),
    (OFF, None, None),
    // AFFINITY_INFO by the mode of the target
    (INFO, Some((0, 0)), Some(1)),
    (INFO, Some((0, 1)), Some(0)),
    (INFO, Some((0, 2)), Some(1)),
    (INFO, Some((0, 3)), Some(0)),
    (INFO, Some((0, 4)), Some(1)),
    (INFO_32, Some((0, 1)), Some(0)),
    (INFO_32, Some((0, 2)), Some(1)),
    (INFO, Some((2003, 0)), Some(1)),
    (INFO, None, None),
    // a shutdown and a restart have no answer, refused or not
    (SHUTDOWN, Some((0, 0)), None),
    (SHUTDOWN, Some((2002, 0)), None),
    (SHUTDOWN, None, None),
    (RESTART, Some((0, 0)), None),
    (RESTART, Some((2002, 0)), None),
    (RESTART, None, None),
    // refusals, with and without a reply
    ((7, 0x8400_0002, [0, 0, 0]), None, Some(-3)),
    ((7, 1, [0, 0, 0]), None, Some(-3)),
    ((7, 0xC400_0003, [4, 1, 0]), None, Some(-3)),
    ((1, 0xC400_0003, [1, 0, 0]), Some((0, 0)), Some(-3)),
    ((2, 1, [0, 0, 0]), None, Some(-1)),
    ((2, 0x8400_0001, [0, 0, 0]), None, Some(-1)),
    ((2, 0xC400_0001, [9, 1, 1]), None, Some(-1)),
    ((2, 0xC400_0002, [0, 0, 0]), None, Some(-1)),
    ((2, 0xC400_0008, [0, 0, 0]), None, Some(-1)),
    ((2, 0xC400_0009, [0, 0, 0]), Some((0, 0)), Some(-1)),
    ((2, 0xC400_0003, [4, 0, 0]), None, Some(-2)),
    ((2, 0xC400_0003, [1, 4097, 0]), None, Some(-2)),
    ((2, 0x8400_0003, [1, 1, 0]), Some((0, 0)), Some(-2)),
    ((2, 0xC400_0003, [0x1_0000_0001, 0, 0]), None, Some(-2)),
    ((2, 0xC400_0004, [1, 1, 0]), None, Some(-2)),
    ((2, 0x8400_0004, [4, 0, 0]), None, Some(-2)),
    ((2, 0xC400_0004, [1, 0x1_0000_0001, 0]), None, Some(-2)),
    (
        (2, 0xC400_0004, [1, 0x1_0000_0000, 0]),
        Some((0, 1)),
        Some(0),
    ),
];

/// The answer to a call, by the status and the first word of a reply.
fn answer_from(t: &Topology, words: &Words, reply: Option<(u32, u32)>) -> Option<i32> {
    let smc = smc_of(words);
    match reply {
        Some((status, first)) => {
            let response = Response {
                status,
                words: [first, 3, 3],
            };
            answer(t, &smc, Some(&response))
        }
        None => answer(t, &smc, None),
    }
}

/// The index of the first row with another answer.
fn wrong_answer(t: &Topology) -> Option<usize> {
    for (place, (words, reply, expected)) in ANSWERS.iter().enumerate() {
        if answer_from(t, words, *reply) != *expected {
            return Some(place);
        }
    }
    None
}

#[test]
fn each_call_is_answered_by_the_table(rt: HostRuntime) -> Result<(), Fail> {
    all_right(&rt, wrong_answer(&zynqmp(rt.alloc())?));
    Ok(())
}
