//! The events of script lines.

use crate::rows::all_right;
use pm_base::{Event, Message, NodeId};
use pm_script::parse_line;

/// A line, and the sender, the call and the arguments of its message.
static MESSAGES: [(&[u8], u32, u32, [u32; 5]); 5] = [
    (b"ipi 1 3", 1, 3, [0, 0, 0, 0, 0]),
    (b"\tipi  7\t13 11 2 0 2 \r", 7, 13, [11, 2, 0, 2, 0]),
    (b"ipi 1 3 11 # 12", 1, 3, [11, 0, 0, 0, 0]),
    (b"ipi 0x7 0x0D 0xfF 007", 7, 13, [255, 7, 0, 0, 0]),
    (
        b"ipi 1 2 3 4 5 6 0xFFFFFFFF",
        1,
        2,
        [3, 4, 5, 6, 4_294_967_295],
    ),
];

fn wrong_message() -> Option<usize> {
    for (place, (line, master, api, args)) in MESSAGES.iter().enumerate() {
        let message = Message {
            api: *api,
            args: *args,
        };
        let master = NodeId(*master);
        if parse_line(line) != Ok(Event::Ipi { master, message }) {
            return Some(place);
        }
    }
    None
}

#[test]
fn a_line_is_a_message(rt: HostRuntime) {
    all_right(&rt, wrong_message());
}

/// A line, and the processor and the address that it boots.
static BOOTS: [(&[u8], u32, u64); 5] = [
    (b"boot 7 0", 7, 0),
    (b"boot 0xFFFFFFFF 4294967296", u32::MAX, 4_294_967_296),
    (b" boot\t007 0xFFFFFFFFFFFFFFFF # c", 7, u64::MAX),
    (b"boot 7 18446744073709551615\r", 7, u64::MAX),
    (b"boot 0 0x100000004", 0, 0x1_0000_0004),
];

fn wrong_boot() -> Option<usize> {
    for (place, (line, proc, address)) in BOOTS.iter().enumerate() {
        let boot = Event::Boot {
            proc: NodeId(*proc),
            address: *address,
        };
        if parse_line(line) != Ok(boot) {
            return Some(place);
        }
    }
    None
}

#[test]
fn a_line_boots_a_processor(rt: HostRuntime) {
    all_right(&rt, wrong_boot());
}

/// A line, and its event: the wait of a processor, the interrupt of a slave, or that of a processor itself.
fn waits_and_interrupts() -> [(&'static [u8], Event); 9] {
    [
        (b"wfi 7", Event::Wfi { proc: NodeId(7) }),
        (
            b"wfi 0xffffffff",
            Event::Wfi {
                proc: NodeId(u32::MAX),
            },
        ),
        (b"\twfi 07\r", Event::Wfi { proc: NodeId(7) }),
        (b"irq 46", Event::Irq { slave: NodeId(46) }),
        (
            b"irq 0xffffffff # a",
            Event::Irq {
                slave: NodeId(u32::MAX),
            },
        ),
        (b" irq\t0x2E\r", Event::Irq { slave: NodeId(46) }),
        (b"gic 7", Event::Gic { proc: NodeId(7) }),
        (
            b"gic 4294967295",
            Event::Gic {
                proc: NodeId(u32::MAX),
            },
        ),
        (b"\tgic 07 \r", Event::Gic { proc: NodeId(7) }),
    ]
}

/// A line, and its event: a message for a box, or the service of the boxes.
fn posts() -> [(&'static [u8], Event); 5] {
    [
        (
            b"post 7 13 39 1 0 2",
            Event::Post {
                master: NodeId(7),
                message: Message {
                    api: 13,
                    args: [39, 1, 0, 2, 0],
                },
            },
        ),
        (
            b"post 0xFFFFFFFF 2 3 4 5 6 4294967295",
            Event::Post {
                master: NodeId(u32::MAX),
                message: Message {
                    api: 2,
                    args: [3, 4, 5, 6, u32::MAX],
                },
            },
        ),
        (
            b"\tpost 01 1 # 3\r",
            Event::Post {
                master: NodeId(1),
                message: Message {
                    api: 1,
                    args: [0; 5],
                },
            },
        ),
        (b"serve", Event::Serve),
        (b" serve\t# 1\r", Event::Serve),
    ]
}

/// A line, and its event: the power call of a processor.
fn power_calls() -> [(&'static [u8], Event); 3] {
    [
        (
            b"smc 2 0x84000002",
            Event::Smc {
                proc: NodeId(2),
                function: 0x8400_0002,
                args: [0, 0, 0],
            },
        ),
        (
            b"smc 0xFFFFFFFF 4294967295 18446744073709551615 0x100000000 3",
            Event::Smc {
                proc: NodeId(u32::MAX),
                function: u32::MAX,
                args: [u64::MAX, 0x1_0000_0000, 3],
            },
        ),
        (
            b"\tsmc 03 1 4096 # 7\r",
            Event::Smc {
                proc: NodeId(3),
                function: 1,
                args: [4096, 0, 0],
            },
        ),
    ]
}

/// A line, and its event: the start or end of a timed task, or a node that breaks or is mended.
fn tasks_and_breaks() -> [(&'static [u8], Event); 7] {
    [
        (
            b"task 0 100",
            Event::Task {
                key: 0,
                interval: 100,
            },
        ),
        (
            b" task\t0xFFFFFFFF 4294967295 # 1\r",
            Event::Task {
                key: u32::MAX,
                interval: u32::MAX,
            },
        ),
        (
            b"task 01 0",
            Event::Task {
                key: 1,
                interval: 0,
            },
        ),
        (b"cancel 1", Event::Cancel { key: 1 }),
        (b"\tcancel 4294967295 \r", Event::Cancel { key: u32::MAX }),
        (b"break 46", Event::Break { node: NodeId(46) }),
        (b"\tmend 0x2E\r", Event::Mend { node: NodeId(46) }),
    ]
}

fn wrong_event(events: &[(&[u8], Event)]) -> Option<usize> {
    for (place, (line, event)) in events.iter().enumerate() {
        match parse_line(line) {
            Ok(parsed) if parsed == *event => {}
            _ => return Some(place),
        }
    }
    None
}

#[test]
fn a_line_is_an_event(rt: HostRuntime) {
    all_right(&rt, wrong_event(&waits_and_interrupts()));
    all_right(&rt, wrong_event(&posts()));
    all_right(&rt, wrong_event(&power_calls()));
    all_right(&rt, wrong_event(&tasks_and_breaks()));
}

/// A line that attaches words, its address, and the words.
static ATTACHED: [(&[u8], u32, &[u32]); 5] = [
    (b"object 8", 8, &[]),
    (b"object 8 1", 8, &[1]),
    (
        b"object 0xFFFFFFFF 0 4294967295 007 # 3",
        u32::MAX,
        &[0, u32::MAX, 7],
    ),
    (
        b"\tobject 1 1 2 3 4 5 6 7 8 9 10 11 12 13 14 15 16 17 18 19 20 21 22 23 24 25 26\r",
        1,
        &[
            1, 2, 3, 4, 5, 6, 7, 8, 9, 10, 11, 12, 13, 14, 15, 16, 17, 18, 19, 20, 21, 22, 23, 24,
            25, 26,
        ],
    ),
    (
        b"object 0 0 0 0 0 0 0 0 0 0 0 0 0 0 0 0 0 0 0 0 0 0 0 0 0 0 0 0 0 0 0 0 0 0 0 0 0 0 0 0 0 0 0 0 0 0 0 0 0 0 0 0 0 0 0 0 0 0 0 0 0 0 0 0 0 0 0 0 0 0 0 0 0 0 0 0 0 0 0 0 0 0 0 0 0 0 0 0 0 0 0 0 0 0 0 0 0 0 0 0 0 0 0 0 0 0 0 0 0 0 0 0 0 0 0 0 0 0 0 0 0 0 0 0",
        0,
        &[0; 123],
    ),
];

/// Whether a line attaches these words at this address.
fn attaches(line: &[u8], address: u32, words: &[u32]) -> bool {
    match parse_line(line) {
        Ok(
            Event::Attach {
                address: at,
                words: held,
            },
        ) => {
            at == address
                && held.len() == words.len()
                && words
                    .iter()
                    .enumerate()
                    .all(|(k, word)| k < held.len() && *held.get(k) == *word)
        }
        _ => false,
    }
}

fn wrong_attached() -> Option<usize> {
    for (place, (line, address, words)) in ATTACHED.iter().enumerate() {
        if !attaches(line, *address, words) {
            return Some(place);
        }
    }
    None
}

#[test]
fn a_line_attaches_words(rt: HostRuntime) {
    all_right(&rt, wrong_attached());
}

/// Lines without an event.
static EMPTY: [&[u8]; 4] = [b"", b" \t # \t ipi 1", b"\r", &[b' '; 255]];

fn wrong_empty() -> Option<usize> {
    for (place, line) in EMPTY.iter().enumerate() {
        if parse_line(line) != Ok(Event::Pass) {
            return Some(place);
        }
    }
    None
}

#[test]
fn a_line_may_be_empty(rt: HostRuntime) {
    all_right(&rt, wrong_empty());
}
