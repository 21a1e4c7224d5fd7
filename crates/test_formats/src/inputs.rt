//! Inputs and sinks in memory.

use crate::rows::all_right;
use pm_base::List;
use pm_io::{Inputs, MemInputs, MemSink, Prefix, Sink, StopReason, gather, write_all};
use std::alloc::Global;
use std::test::Fail;

/// The bytes that are read under a name, two at a time, and whether a read failed.
fn read_all(alloc: Global, inputs: &mut MemInputs, name: &str) -> Result<(List<u8>, bool), Fail> {
    let mut got = List::new(alloc);
    let id = inputs.begin(name)?;
    let mut buf = [0; 2];
    for _ in 0..8 {
        match inputs.read(id, &mut buf) {
            Ok(0) => break,
            Ok(count) => {
                for byte in &buf[..count] {
                    got.push(*byte)?;
                }
            }
            Err(_) => return Ok((got, true)),
        }
    }
    Ok((got, false))
}

/// A row: the name of an input that holds four bytes, the bytes that are read of it, and whether a read fails.
static READINGS: [(&str, &str, bool); 5] = [
    ("middle", "abc", true),
    ("end", "abcd", true),
    ("past", "abcd", false),
    ("none", "abcd", false),
    ("front", "", true),
];

/// The inputs of `READINGS`, of which some fail at a byte. No name may be there before it is added.
fn failing_inputs(alloc: Global) -> Result<MemInputs, Fail> {
    let mut inputs = MemInputs::new(alloc, &[(0, 7), (0, 3), (1, 4), (2, 5), (4, 0)])?;
    for (name, _, _) in &READINGS {
        if inputs.has(name) {
            return Err("a name that isn't there yet".into());
        }
        inputs.add(name, b"abcd")?;
    }
    Ok(inputs)
}

fn wrong_reading(alloc: Global, inputs: &mut MemInputs) -> Result<Option<usize>, Fail> {
    for (place, (name, want, failed)) in READINGS.iter().enumerate() {
        let (got, stopped) = read_all(alloc, inputs, name)?;
        if got.as_slice() != want.as_bytes() || stopped != *failed {
            return Ok(Some(place));
        }
    }
    Ok(None)
}

#[test]
fn reads_stop_at_the_failing_byte(rt: HostRuntime) -> Result<(), Fail> {
    let mut inputs = failing_inputs(rt.alloc())?;
    all_right(&rt, wrong_reading(rt.alloc(), &mut inputs)?);
    Ok(())
}

/// A row for `abcd`: a name, a limit, the bytes that are read, those of them that belong to lines of a text, and why
/// no more are read. Reads fail at the first byte of `front`, and at the end of `end`.
static PREFIXES: [(&str, u32, &str, &str, StopReason); 8] = [
    ("none", 5, "abcd", "abcd", StopReason::End),
    ("none", 4, "abcd", "abcd", StopReason::End),
    ("none", 3, "abcd", "abc", StopReason::Limit),
    ("none", 0, "a", "", StopReason::Limit),
    ("end", 4, "abcd", "abcd", StopReason::Failure),
    ("end", 3, "abcd", "abc", StopReason::Limit),
    ("front", 4, "", "", StopReason::Failure),
    ("missing", 4, "", "", StopReason::Unbegun),
];

/// The bytes that are read of a name up to a limit, and why no more are; without a contract.
fn prefix_of(
    alloc: Global,
    inputs: &mut MemInputs,
    name: &str,
    limit: u32,
) -> Result<Prefix, Fail> {
    Ok(gather(alloc, inputs, name, limit)?)
}

fn wrong_prefix(alloc: Global, inputs: &mut MemInputs) -> Result<Option<usize>, Fail> {
    for (place, (name, limit, bytes, text, stop)) in PREFIXES.iter().enumerate() {
        let prefix = prefix_of(alloc, inputs, name, *limit)?;
        if prefix.bytes() != bytes.as_bytes()
            || prefix.text() != text.as_bytes()
            || prefix.stop() != *stop
        {
            return Ok(Some(place));
        }
    }
    Ok(None)
}

/// Three names that hold four equal bytes.
fn three_inputs(alloc: Global) -> Result<MemInputs, Fail> {
    let mut inputs = MemInputs::new(alloc, &[(0, 0), (1, 4)])?;
    for name in ["front", "end", "none"] {
        if !inputs.has(name) {
            inputs.add(name, b"abcd")?;
        }
    }
    Ok(inputs)
}

#[test]
fn a_prefix_ends_at_the_limit_or_at_the_failing_byte(rt: HostRuntime) -> Result<(), Fail> {
    let mut inputs = three_inputs(rt.alloc())?;
    all_right(&rt, wrong_prefix(rt.alloc(), &mut inputs)?);
    Ok(())
}

/// A row: a name that is opened in turn, and the number of the input, if it can be opened.
static BEGUN: [(&str, Option<u32>); 18] = [
    ("b", None),
    ("a", Some(0)),
    ("a", Some(1)),
    ("a", Some(2)),
    ("a", Some(3)),
    ("a", Some(4)),
    ("a", Some(5)),
    ("a", Some(6)),
    ("a", Some(7)),
    ("a", Some(8)),
    ("a", Some(9)),
    ("a", Some(10)),
    ("a", Some(11)),
    ("a", Some(12)),
    ("a", Some(13)),
    ("a", Some(14)),
    ("a", Some(15)),
    ("a", None),
];

fn wrong_begin(inputs: &mut MemInputs) -> Option<usize> {
    for (place, (name, id)) in BEGUN.iter().enumerate() {
        if inputs.begin(name).ok() != *id {
            return Some(place);
        }
    }
    None
}

/// A row: the number of an input that holds three bytes, and what a read into four bytes returns and leaves there, in
/// turn.
static READS: [(u32, Option<usize>, [u8; 4]); 3] = [
    (16, Some(0), [0, 0, 0, 0]),
    (15, Some(3), [b'x', b'y', b'z', 0]),
    (15, Some(0), [b'x', b'y', b'z', 0]),
];

fn wrong_read(inputs: &mut MemInputs) -> Option<usize> {
    let mut buf = [0; 4];
    for (place, (id, count, wanted)) in READS.iter().enumerate() {
        if inputs.read(*id, &mut buf).ok() != *count || buf != *wanted {
            return Some(place);
        }
    }
    None
}

#[test]
fn sixteen_inputs_can_be_begun(rt: HostRuntime) -> Result<(), Fail> {
    let mut inputs = MemInputs::new(rt.alloc(), &[])?;
    inputs.add("a", b"xyz")?;
    all_right(&rt, wrong_begin(&mut inputs));
    all_right(&rt, wrong_read(&mut inputs));
    assert_eq!(rt; inputs.read(14, &mut []), Ok(0));
    Ok(())
}

/// A row: the room of a sink, whether each of two pieces is taken whole, and the bytes that were taken.
static ROOMS: [(Option<u32>, bool, bool, &str); 6] = [
    (Some(0), false, false, ""),
    (Some(2), false, false, "ab"),
    (Some(3), true, false, "abc"),
    (Some(4), true, false, "abcd"),
    (Some(5), true, true, "abcde"),
    (None, true, true, "abcde"),
];

fn wrong_room(alloc: Global) -> Result<Option<usize>, Fail> {
    for (place, (room, first, second, want)) in ROOMS.iter().enumerate() {
        let mut sink = MemSink::new(alloc, *room)?;
        let taken = write_all(&mut sink, b"abc").is_ok();
        let more = write_all(&mut sink, b"de").is_ok();
        let nothing = sink.write(b"").ok();
        if taken != *first
            || more != *second
            || nothing != Some(0)
            || sink.bytes() != want.as_bytes()
        {
            return Ok(Some(place));
        }
    }
    Ok(None)
}

#[test]
fn sinks_take_what_they_have_room_for(rt: HostRuntime) -> Result<(), Fail> {
    all_right(&rt, wrong_room(rt.alloc())?);
    Ok(())
}
