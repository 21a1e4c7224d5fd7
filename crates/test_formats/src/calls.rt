//! The calls that messages make.

use crate::rows::all_right;
use pm_base::{Caps, LineId, Message, NodeId};
use pm_ipi::callbacks::INIT_SUSPEND;
use pm_ipi::{AckKind, Call, Response, callback_words, decode_call, respond};

const NODE: NodeId = NodeId(22);

const ACK: u32 = 3;

/// A row: the number of a call, the call that it makes with the arguments 22, 7, 5, 3 and 2, its acknowledge kind,
/// and the node of its acknowledgement.
static CALLS: [(u32, Call, AckKind, NodeId); 22] = [
    (0, Call::Unknown, AckKind::Blocking, NodeId(0)),
    (1, Call::GetApiVersion, AckKind::Blocking, NodeId(0)),
    (2, Call::SetConfiguration(22), AckKind::Blocking, NodeId(0)),
    (
        3,
        Call::GetNodeStatus { node: NODE },
        AckKind::Blocking,
        NodeId(0),
    ),
    (
        4,
        Call::GetOpCharacteristic {
            node: NODE,
            characteristic: 7,
        },
        AckKind::Blocking,
        NodeId(0),
    ),
    (
        5,
        Call::RegisterNotifier {
            node: NODE,
            event: 7,
            wake: 5,
            enable: ACK,
        },
        AckKind::Blocking,
        NodeId(0),
    ),
    (
        6,
        Call::RequestSuspend {
            node: NODE,
            ack: 7,
            latency: 5,
            state: ACK,
        },
        AckKind::Blocking,
        NODE,
    ),
    (
        7,
        Call::SelfSuspend {
            node: NODE,
            address: 0x2_0000_0003,
        },
        AckKind::Blocking,
        NodeId(0),
    ),
    (
        8,
        Call::ForcePowerdown { node: NODE, ack: 7 },
        AckKind::Blocking,
        NODE,
    ),
    (
        9,
        Call::AbortSuspend {
            node: NodeId(7),
            reason: 22,
        },
        AckKind::Blocking,
        NodeId(0),
    ),
    (
        10,
        Call::RequestWakeup {
            node: NODE,
            address: Some(0x5_0000_0006),
            ack: ACK,
        },
        AckKind::NonBlocking,
        NODE,
    ),
    (
        11,
        Call::SetWakeupSource {
            target: NODE,
            source: NodeId(7),
            enable: 5,
        },
        AckKind::Blocking,
        NodeId(0),
    ),
    (
        12,
        Call::SystemShutdown {
            shutdown_type: 22,
            subtype: 7,
        },
        AckKind::Blocking,
        NodeId(0),
    ),
    (
        13,
        Call::RequestNode {
            node: NODE,
            caps: Caps(7),
            ack: ACK,
        },
        AckKind::NonBlocking,
        NODE,
    ),
    (
        14,
        Call::ReleaseNode { node: NODE },
        AckKind::Blocking,
        NodeId(0),
    ),
    (
        15,
        Call::SetRequirement {
            node: NODE,
            caps: Caps(7),
            ack: ACK,
        },
        AckKind::NonBlocking,
        NODE,
    ),
    (
        16,
        Call::SetMaxLatency {
            node: NODE,
            latency: 7,
        },
        AckKind::Blocking,
        NodeId(0),
    ),
    (
        17,
        Call::ResetAssert {
            line: LineId(22),
            action: 7,
        },
        AckKind::Blocking,
        NodeId(0),
    ),
    (
        18,
        Call::ResetGetStatus { line: LineId(22) },
        AckKind::Blocking,
        NodeId(0),
    ),
    (21, Call::InitFinalize, AckKind::Blocking, NodeId(0)),
    (22, Call::Unknown, AckKind::Blocking, NodeId(0)),
    (u32::MAX, Call::Unknown, AckKind::Blocking, NodeId(0)),
];

fn wrong_call() -> Option<usize> {
    for (place, (api, call, kind, node)) in CALLS.iter().enumerate() {
        let message = Message {
            api: *api,
            args: [22, 7, 5, ACK, 2],
        };
        let found = decode_call(&message);
        if found != *call || found.ack() != *kind || found.node() != *node {
            return Some(place);
        }
    }
    None
}

#[test]
fn a_message_makes_a_call(rt: HostRuntime) {
    all_right(&rt, wrong_call());
}

/// A row: the acknowledge argument of a request to suspend, and the acknowledge kind.
static KINDS: [(u32, AckKind); 5] = [
    (0, AckKind::Blocking),
    (1, AckKind::No),
    (2, AckKind::Blocking),
    (3, AckKind::NonBlocking),
    (4, AckKind::Blocking),
];

fn wrong_kind() -> Option<usize> {
    for (place, (ack, kind)) in KINDS.iter().enumerate() {
        let message = Message {
            api: 6,
            args: [22, *ack, 3, 1, 2],
        };
        if decode_call(&message).ack() != *kind {
            return Some(place);
        }
    }
    None
}

/// A row: the low and the high word of a wake-up, and its address. Bit 0 tells whether there is an address, and is no
/// part of it.
static ADDRESSES: [(u32, u32, Option<u64>); 8] = [
    (0, 0, None),
    (1, 0, Some(0)),
    (4096, 7, None),
    (4097, 0, Some(4096)),
    (4099, 7, Some(0x7_0000_1002)),
    (u32::MAX - 1, u32::MAX, None),
    (u32::MAX, 0, Some(0xFFFF_FFFE)),
    (u32::MAX, u32::MAX, Some(0xFFFF_FFFF_FFFF_FFFE)),
];

fn wrong_address() -> Option<usize> {
    for (place, (low, high, address)) in ADDRESSES.iter().enumerate() {
        let message = Message {
            api: 10,
            args: [22, *low, *high, ACK, 2],
        };
        let call = Call::RequestWakeup {
            node: NODE,
            address: *address,
            ack: ACK,
        };
        if decode_call(&message) != call {
            return Some(place);
        }
    }
    None
}

#[test]
fn a_request_to_suspend_has_an_acknowledge_kind(rt: HostRuntime) {
    all_right(&rt, wrong_kind());
}

#[test]
fn words_of_a_reply_and_of_a_callback(rt: HostRuntime) {
    let response = Response {
        status: 2007,
        words: [7, 5, 3],
    };
    assert_eq!(rt; respond(&response), [2007, 7, 5, 3]);
    assert_eq!(rt;
        callback_words(INIT_SUSPEND, [201, 50, 0, 100]),
        [30, 201, 50, 0, 100]
    );
}

#[test]
fn bit_0_of_the_low_word_says_that_a_wake_up_has_an_address(rt: HostRuntime) {
    all_right(&rt, wrong_address());
}
