//! Short forms of the events of a book.

use pm_base::{Event, Message, NodeId};

/// A message of a master, with a fifth argument of 0.
pub fn message(master: u32, api: u32, args: [u32; 4]) -> Event {
    let [a, b, c, d] = args;
    let message = Message {
        api,
        args: [a, b, c, d, 0],
    };
    Event::Ipi {
        master: NodeId(master),
        message,
    }
}

/// An event in short: a call with its first arguments, a boot at an address, a wait of a processor, the interrupt of
/// a slave or of a processor itself, or passing time.
#[derive(Clone, Copy)]
pub enum Trigger {
    Call(u32, u32, [u32; 4]),
    Boot(u32, u64),
    Wfi(u32),
    Irq(u32),
    Gic(u32),
    Tick(u32),
}

/// The event of a short form.
pub fn event_of(trigger: Trigger) -> Event {
    match trigger {
        Trigger::Call(master, api, args) => message(master, api, args),
        Trigger::Boot(proc, address) => Event::Boot {
            proc: NodeId(proc),
            address,
        },
        Trigger::Wfi(proc) => Event::Wfi { proc: NodeId(proc) },
        Trigger::Irq(slave) => Event::Irq {
            slave: NodeId(slave),
        },
        Trigger::Gic(proc) => Event::Gic { proc: NodeId(proc) },
        Trigger::Tick(count) => Event::Tick { count },
    }
}
