//! The calls by their words (UG1200, API calls).

ghost use Rattle.std.specs.Prelude.{◌≡◌, ◌≤◌, option_map};
ghost use Rattle.pm_ipi.specs.Calls.{acknowledge_of, call_of, address_of, wake_address, ack_kind, ack_of, listed, node_of, row_of};

use pm_base::{Caps, LineId, Message, NodeId, Unit};

/// How the caller wants a call to be acknowledged (UG1200, acknowledge kinds): not at all, by a
/// reply, or by the acknowledge callback.
#[derive(Clone, Copy, Debug, PartialEq, Eq)]
pub enum AckKind {
    No,
    Blocking,
    NonBlocking,
}

/// A call (UG1200, API calls). Arguments that nothing depends on are left out.
#[derive(Clone, Copy, Debug, PartialEq, Eq)]
pub enum Call {
    GetApiVersion,
    /// The configuration object that is attached at the address is in force from now on.
    SetConfiguration(u32),
    GetNodeStatus {
        node: NodeId,
    },
    /// The power figure (1) or the latency (3) of a node as it stands; of a temperature (2) nothing is known.
    GetOpCharacteristic {
        node: NodeId,
        characteristic: u32,
    },
    /// The caller is told of the event of the node from now on, or not any more. Nothing depends on whether
    /// the event is to wake it.
    RegisterNotifier {
        node: NodeId,
        event: u32,
        wake: u32,
        enable: u32,
    },
    /// The master that the node names is asked to suspend. The latency and the state are passed on to it.
    RequestSuspend {
        node: NodeId,
        ack: u32,
        latency: u32,
        state: u32,
    },
    /// The processor suspends, and resumes at the address.
    SelfSuspend {
        node: NodeId,
        address: u64,
    },
    /// The processor, or all that is below the power node, goes off.
    ForcePowerdown {
        node: NodeId,
        ack: u32,
    },
    /// The processor goes on in place of suspending.
    AbortSuspend {
        node: NodeId,
        reason: u32,
    },
    /// The processor wakes, at the address if there is one, and else where it is to resume.
    RequestWakeup {
        node: NodeId,
        address: Option<u64>,
        ack: u32,
    },
    /// From now on the interrupt of the source wakes the target, or not any more.
    SetWakeupSource {
        target: NodeId,
        source: NodeId,
        enable: u32,
    },
    /// The caller (subtype 0) or the whole system (subtypes 1 and 2) is shut down (type 0) or restarted
    /// (type 1). Type 2 only says what a later shutdown is to mean.
    SystemShutdown {
        shutdown_type: u32,
        subtype: u32,
    },
    RequestNode {
        node: NodeId,
        caps: Caps,
        ack: u32,
    },
    ReleaseNode {
        node: NodeId,
    },
    SetRequirement {
        node: NodeId,
        caps: Caps,
        ack: u32,
    },
    /// The slave may take this long at most until it is in use again.
    SetMaxLatency {
        node: NodeId,
        latency: u32,
    },
    /// The reset line is released (0), asserted (1), or asserted for a moment (2).
    ResetAssert {
        line: LineId,
        action: u32,
    },
    ResetGetStatus {
        line: LineId,
    },
    /// The master has requested all that it needs.
    InitFinalize,
    /// Any other number of a call.
    Unknown,
}

/// What a call names: at most two units.
#[derive(Clone, Copy, Debug, PartialEq, Eq)]
pub enum Named {
    Nothing,
    One(Unit),
    Two(Unit, Unit),
}

/// The call that a message makes.
pub fn decode_call(message: &Message) -> Call
    ensures { result ≡ call_of message.now }
{
    let args = message.args;
    let node = NodeId(args[0]);
    match message.api {
        1 => Call::GetApiVersion,
        2 => Call::SetConfiguration(args[0]),
        3 => Call::GetNodeStatus { node },
        4 => Call::GetOpCharacteristic {
            node,
            characteristic: args[1],
        },
        5 => Call::RegisterNotifier {
            node,
            event: args[1],
            wake: args[2],
            enable: args[3],
        },
        6..=12 => decode_suspend_call(message),
        13..=18 => decode_slave_call(message),
        21 => Call::InitFinalize,
        _ => Call::Unknown,
    }
}

/// A call by which masters and processors suspend, wake and go off.
fn decode_suspend_call(message: &Message) -> Call
    requires least { 6 ≤ message.now.api }
    requires most { message.now.api ≤ 12 }
    ensures { result ≡ call_of message.now }
{
    let args = message.args;
    let node = NodeId(args[0]);
    match message.api {
        6 => Call::RequestSuspend {
            node,
            ack: args[1],
            latency: args[2],
            state: args[3],
        },
        7 => Call::SelfSuspend {
            node,
            address: address(args[3], args[4]),
        },
        8 => Call::ForcePowerdown { node, ack: args[1] },
        9 => Call::AbortSuspend {
            node: NodeId(args[1]),
            reason: args[0],
        },
        10 => Call::RequestWakeup {
            node,
            address: wake_address(args[1], args[2]),
            ack: args[3],
        },
        11 => Call::SetWakeupSource {
            target: node,
            source: NodeId(args[1]),
            enable: args[2],
        },
        _ => Call::SystemShutdown {
            shutdown_type: args[0],
            subtype: args[1],
        },
    }
}

/// A call on a slave or a reset line.
fn decode_slave_call(message: &Message) -> Call
    requires least { 13 ≤ message.now.api }
    requires most { message.now.api ≤ 18 }
    ensures { result ≡ call_of message.now }
{
    let args = message.args;
    let node = NodeId(args[0]);
    let line = LineId(args[0]);
    let caps = Caps(args[1]);
    let ack = args[3];
    match message.api {
        13 => Call::RequestNode { node, caps, ack },
        14 => Call::ReleaseNode { node },
        15 => Call::SetRequirement { node, caps, ack },
        16 => Call::SetMaxLatency {
            node,
            latency: args[1],
        },
        17 => Call::ResetAssert {
            line,
            action: args[1],
        },
        _ => Call::ResetGetStatus { line },
    }
}

/// The address of which these are the low and the high word.
fn address(low: u32, high: u32) -> u64
    ensures { result ≡ address_of low high }
{
    u64::from(high) * 0x1_0000_0000 + u64::from(low)
}

/// The address at which a processor wakes, where bit 0 of the low word says that there is one. That bit is no part of it.
fn wake_address(low: u32, high: u32) -> Option<u64>
    ensures { result ≡ wake_address low high }
{
    if low % 2 == 1 {
        Some(address(low - 1, high))
    } else {
        None
    }
}

/// The acknowledge kind of an argument, if it is one.
pub fn ack_kind(word: u32) -> Option<AckKind>
    ensures { result ≡ ack_kind word }
{
    match word {
        1 => Some(AckKind::No),
        2 => Some(AckKind::Blocking),
        3 => Some(AckKind::NonBlocking),
        _ => None,
    }
}

impl Call {
    /// The node that an acknowledgement of the call names, and its acknowledge kind, if it has one.
    fn acknowledge(&self) -> Option<(NodeId, u32)>
        ensures { result ≡ option_map (λ word. (node_of self.now, word)) (acknowledge_of self.now) }
    {
        match self {
            Call::RequestSuspend { node, ack, .. }
            | Call::ForcePowerdown { node, ack }
            | Call::RequestWakeup { node, ack, .. }
            | Call::RequestNode { node, ack, .. }
            | Call::SetRequirement { node, ack, .. } => Some((*node, *ack)),
            _ => None,
        }
    }

    /// The nodes that the call names and the reset line whose value it asks for, that of its acknowledgement first.
    pub fn names(&self) -> Named
        ensures { listed result ≡ (row_of self.now).names }
    {
        match self {
            Call::GetNodeStatus { node }
            | Call::GetOpCharacteristic { node, .. }
            | Call::RegisterNotifier { node, .. }
            | Call::RequestSuspend { node, .. }
            | Call::SelfSuspend { node, .. }
            | Call::ForcePowerdown { node, .. }
            | Call::AbortSuspend { node, .. }
            | Call::RequestWakeup { node, .. }
            | Call::RequestNode { node, .. }
            | Call::ReleaseNode { node }
            | Call::SetRequirement { node, .. }
            | Call::SetMaxLatency { node, .. } => Named::One(Unit::Node(*node)),
            Call::SetWakeupSource { target, source, .. } => {
                Named::Two(Unit::Node(*target), Unit::Node(*source))
            }
            Call::ResetGetStatus { line } => Named::One(Unit::Line(*line)),
            Call::GetApiVersion
            | Call::SetConfiguration(_)
            | Call::SystemShutdown { .. }
            | Call::ResetAssert { .. }
            | Call::InitFinalize
            | Call::Unknown => Named::Nothing,
        }
    }

    /// How the call is acknowledged: by a reply, unless its argument says otherwise.
    pub fn ack(&self) -> AckKind
        ensures { result ≡ ack_of self.now }
    {
        match self.acknowledge() {
            Some((_, word)) => ack_kind(word).unwrap_or(AckKind::Blocking),
            None => AckKind::Blocking,
        }
    }

    /// The node that the acknowledgement of a call names: that of the call, and 0 if the call has no
    /// acknowledge kind.
    pub fn node(&self) -> NodeId
        ensures { result ≡ node_of self.now }
    {
        match self.acknowledge() {
            Some((node, _)) => node,
            None => NodeId(0),
        }
    }
}
