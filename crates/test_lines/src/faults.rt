//! The first fault of a script line.

use crate::rows::all_right;
use pm_script::{LineFault, parse_line};
use std::alloc::Global;
use std::test::Fail;

const SPACES: &[u8] = &[b' '; 256];

const ZEROS: &[u8] = &[0; 256];

/// A line, and its first fault.
static FAULTS: [(&[u8], LineFault); 97] = [
    (b"object", LineFault::Count),
    (b"object x", LineFault::Number),
    (b"object 4294967296", LineFault::Number),
    (b"object 8 1 1x", LineFault::Number),
    (b"ipi 1 3 11#", LineFault::Number),
    (b"ipi 1 2 3 4 5 6 4294967296", LineFault::Number),
    (b"ipi -1 3", LineFault::Number),
    (b"ipi 1 0x", LineFault::Number),
    (b"ipi", LineFault::Count),
    (b"ipi 1", LineFault::Count),
    (b"ipi 1 2 3 4 5 6 7 8", LineFault::Count),
    (b"IPI 1 3", LineFault::Unknown),
    (b"ip", LineFault::Unknown),
    (b"boot", LineFault::Count),
    (b"boot 7", LineFault::Count),
    (b"boot 7 0 0", LineFault::Count),
    (b"boot 4294967296 0", LineFault::Number),
    (b"boot 7 18446744073709551616", LineFault::Number),
    (b"boot 7 0x10000000000000000", LineFault::Number),
    (b"boot 7 a", LineFault::Number),
    (b"wfi", LineFault::Count),
    (b"wfi 7 7", LineFault::Count),
    (b"wfi 4294967296", LineFault::Number),
    (b"wfi x", LineFault::Number),
    (b"Boot 7 0", LineFault::Unknown),
    (b"irq", LineFault::Count),
    (b"irq 46 46", LineFault::Count),
    (b"irq 4294967296", LineFault::Number),
    (b"irq x", LineFault::Number),
    (b"irqs 46", LineFault::Unknown),
    (b"gic", LineFault::Count),
    (b"gic 7 7", LineFault::Count),
    (b"gic 0x100000000", LineFault::Number),
    (b"gic -7", LineFault::Number),
    (b"GIC 7", LineFault::Unknown),
    (b"post", LineFault::Count),
    (b"post 1", LineFault::Count),
    (b"post 1 2 3 4 5 6 7 8", LineFault::Count),
    (b"post x 1", LineFault::Number),
    (b"post 1 2 3 4 5 6 4294967296", LineFault::Number),
    (b"posts 1 1", LineFault::Unknown),
    (b"serve 1", LineFault::Count),
    (b"serves", LineFault::Unknown),
    (b"smc", LineFault::Count),
    (b"smc 2", LineFault::Count),
    (b"smc 2 1 0 0 0 0", LineFault::Count),
    (b"smc 4294967296 1", LineFault::Number),
    (b"smc 2 4294967296", LineFault::Number),
    (b"smc 2 1 18446744073709551616", LineFault::Number),
    (b"smc 2 1 0 0 -1", LineFault::Number),
    (b"SMC 2 1", LineFault::Unknown),
    (b"Serve", LineFault::Unknown),
    (b"task", LineFault::Count),
    (b"task 0", LineFault::Count),
    (b"task 0 100 1", LineFault::Count),
    (b"task 4294967296 100", LineFault::Number),
    (b"task 0 0x100000000", LineFault::Number),
    (b"task 0 -1", LineFault::Number),
    (b"tasks 0 100", LineFault::Unknown),
    (b"cancel", LineFault::Count),
    (b"cancel 0 100", LineFault::Count),
    (b"cancel 4294967296", LineFault::Number),
    (b"cancel x", LineFault::Number),
    (b"Cancel 0", LineFault::Unknown),
    (b"breaks 1", LineFault::Unknown),
    (b"break", LineFault::Count),
    (b"break 1 2", LineFault::Count),
    (b"break 4294967296", LineFault::Number),
    (b"Mend 1", LineFault::Unknown),
    (b"mend", LineFault::Count),
    (b"mend 1 2", LineFault::Count),
    (b"mend x", LineFault::Number),
    (b"# \x7F", LineFault::NotAscii),
    (b"ipi 1 3\r\r", LineFault::NotAscii),
    (SPACES, LineFault::Long),
    // two faults in one line
    (b"ipi x", LineFault::Count),
    (b"boot x", LineFault::Count),
    (b"wfi 7 x", LineFault::Count),
    (b"irq x 46", LineFault::Count),
    (b"gic x 7", LineFault::Count),
    (b"post x", LineFault::Count),
    (b"serve x", LineFault::Count),
    (b"smc x", LineFault::Count),
    (b"task x", LineFault::Count),
    (b"task 0 x 1", LineFault::Count),
    (b"cancel x 0", LineFault::Count),
    (b"irq \x80", LineFault::NotAscii),
    (b"gic 7\r\r", LineFault::NotAscii),
    (b"boot x y z", LineFault::Count),
    (b"boots x 0", LineFault::Unknown),
    (b"boot x 0\x80", LineFault::NotAscii),
    (b"boot \x80", LineFault::NotAscii),
    (b"wait x y", LineFault::Unknown),
    (b"wait\x80", LineFault::NotAscii),
    (b"ipi \n 3", LineFault::NotAscii),
    (ZEROS, LineFault::Long),
    (&[0; 255], LineFault::NotAscii),
];

fn wrong_fault() -> Option<usize> {
    for (place, (line, fault)) in FAULTS.iter().enumerate() {
        if parse_line(line) != Err(*fault) {
            return Some(place);
        }
    }
    None
}

#[test]
fn a_line_has_its_first_fault(rt: HostRuntime) {
    all_right(&rt, wrong_fault());
}

/// The beginning of a line, and its fault if spaces fill it up to the greatest length.
static STARTS: [(&[u8], LineFault); 6] = [
    (b"wfi \x80", LineFault::NotAscii),
    (b"wait", LineFault::Unknown),
    (b"wfi", LineFault::Count),
    (b"wfi x", LineFault::Number),
    (b"irq", LineFault::Count),
    (b"gic x", LineFault::Number),
];

/// Whether the line has its fault up to the greatest length, and is too long with one byte more.
fn is_too_long(alloc: Global, start: &[u8], fault: LineFault) -> Result<bool, Fail> {
    let mut line = Vec::new(alloc);
    line.extend_from_slice(start)?;
    line.resize(255, b' ')?;
    let before = parse_line(&line);
    line.push(b' ')?;
    Ok(before == Err(fault) && parse_line(&line) == Err(LineFault::Long))
}

fn wrong_start(alloc: Global) -> Result<Option<usize>, Fail> {
    for (place, (start, fault)) in STARTS.iter().enumerate() {
        if !is_too_long(alloc, start, *fault)? {
            return Ok(Some(place));
        }
    }
    Ok(None)
}

#[test]
fn a_long_line_has_no_other_fault(rt: HostRuntime) -> Result<(), Fail> {
    all_right(&rt, wrong_start(rt.alloc())?);
    Ok(())
}
