//! What reaches the power management core from the outside, one event at a time.

use crate::names::NodeId;
use crate::object_words::Words;

/// The words of a message of a master (UG1200, API calls): the number of the call, then its
/// arguments. Missing arguments are 0.
#[derive(Clone, Copy, Debug, PartialEq, Eq)]
pub struct Message {
    pub api: u32,
    pub args: [u32; 5],
}

/// One event. `Pass` is the event of an empty script line, and does nothing.
#[derive(Debug, PartialEq, Eq, Drop)]
pub enum Event {
    /// A master sends a message.
    Ipi {
        master: NodeId,
        message: Message,
    },
    /// A boot loader starts a processor at an address.
    Boot {
        proc: NodeId,
        address: u64,
    },
    /// A processor waits for an interrupt.
    Wfi {
        proc: NodeId,
    },
    /// A slave raises its interrupt.
    Irq {
        slave: NodeId,
    },
    /// An interrupt at a processor itself.
    Gic {
        proc: NodeId,
    },
    /// Units of time pass.
    Tick {
        count: u32,
    },
    /// A master puts a message into its box, from which it is served later.
    Post {
        master: NodeId,
        message: Message,
    },
    /// The messages in all boxes are served.
    Serve,
    /// A processor calls the secure monitor (DEN0022): the number of the function, and its arguments. Missing arguments
    /// are 0.
    Smc {
        proc: NodeId,
        function: u32,
        args: [u64; 3],
    },
    /// The timed task under a key is started at an interval, or started again.
    Task {
        key: u32,
        interval: u32,
    },
    /// The timed task under a key is taken out.
    Cancel {
        key: u32,
    },
    /// These words are attached at an address, behind those that were attached there before.
    Attach {
        address: u32,
        words: Words,
    },
    /// A node of the device fails from now on.
    Break {
        node: NodeId,
    },
    /// A node of the device works again.
    Mend {
        node: NodeId,
    },
    Pass,
}
