//! The one input in memory.

use pm_io::{Inputs, OneInput};
use std::test::Fail;

/// A row: the number of an input, and what a read into four bytes returns and leaves there, before any name was
/// opened.
static BEFORE: [(u32, &str); 2] = [(0, ""), (1, "")];

/// Such rows after a name was opened: the input holds `abcdef`.
static AFTER: [(u32, &str); 5] = [(0, "abcd"), (1, ""), (0, "ef"), (0, ""), (16, "")];

/// Such rows after another name was opened.
static AGAIN: [(u32, &str); 2] = [(0, "abcd"), (0, "ef")];

fn wrong_read(input: &mut OneInput, reads: &[(u32, &str)]) -> Option<usize> {
    for (place, (id, want)) in reads.iter().enumerate() {
        let mut buf = [0; 4];
        match input.read(*id, &mut buf) {
            Ok(count) => {
                if &buf[..count] != want.as_bytes() {
                    return Some(place);
                }
            }
            Err(_) => return Some(place),
        }
    }
    None
}

#[test]
fn every_name_begins_the_one_input(rt: HostRuntime) -> Result<(), Fail> {
    let mut input = OneInput::new(rt.alloc(), b"abcdef")?;
    assert_eq!(rt; wrong_read(&mut input, &BEFORE), None);
    assert_eq!(rt; input.begin("a"), Ok(0));
    assert_eq!(rt; wrong_read(&mut input, &AFTER), None);
    assert_eq!(rt; input.begin("another"), Ok(0));
    assert_eq!(rt; wrong_read(&mut input, &AGAIN), None);
    Ok(())
}
