//! The script lines by which time passes.

use crate::rows::all_right;
use pm_base::Event;
use pm_script::{LineFault, parse_line};

const COUNT: Result<u32, LineFault> = Err(LineFault::Count);

const NUMBER: Result<u32, LineFault> = Err(LineFault::Number);

/// A line, and the time that passes in it.
static TICKS: [(&[u8], Result<u32, LineFault>); 15] = [
    (b"tick 99", Ok(99)),
    (b"tick 0", Ok(0)),
    (b"\ttick  007 # a pause\r", Ok(7)),
    (b"tick 0xFFFFFFFF", Ok(u32::MAX)),
    (b"tick 4294967295", Ok(u32::MAX)),
    (b"tick 4294967296", NUMBER),
    (b"tick 0x100000000", NUMBER),
    (b"tick -1", NUMBER),
    (b"tick 1.5", NUMBER),
    (b"tick", COUNT),
    (b"tick # 5", COUNT),
    (b"tick 1 2", COUNT),
    (b"tick 1 x", COUNT),
    (b"Tick 1", Err(LineFault::Unknown)),
    (b"ticks 1", Err(LineFault::Unknown)),
];

fn wrong_tick() -> Option<usize> {
    for (place, (line, meaning)) in TICKS.iter().enumerate() {
        if !means(parse_line(line), *meaning) {
            return Some(place);
        }
    }
    None
}

/// Whether a line lets so much time pass, or has this fault.
fn means(parsed: Result<Event, LineFault>, meaning: Result<u32, LineFault>) -> bool {
    match (parsed, meaning) {
        (Ok(Event::Tick { count }), Ok(expected)) => count == expected,
        (Err(fault), Err(expected)) => fault == expected,
        _ => false,
    }
}

#[test]
fn a_line_lets_time_pass(rt: HostRuntime) {
    all_right(&rt, wrong_tick());
}
