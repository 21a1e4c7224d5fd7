//! Objects are read, copied and written.

ghost use Rattle.std.specs.Prelude.{IfOk};
ghost use Rattle.pm_object.specs.Grammar.{IsObject};

use crate::rows::all_right;
use pm_object::{DecodeError, MasterRec, Object, Section, SlaveRec, decode, encode};
use std::alloc::Global;
use std::test::Fail;

/// Two masters and two slaves.
const SMALL: &[u32] = &[
    2, 2, 1, 0x101, 2, 1, 0x1, 100, 0, 0, 7, 0x100, 100, 0, 0, 0x102, 2, 11, 1, 0x101, 33, 0, 0x1,
];

/// All sections, with a slave in two groups of preallocations.
const WHOLE: &[u32] = &[
    2, 8, 1, 0x101, 1, 1, 0x1, 100, 0, 0, 0x102, 1, 11, 1, 0x1, 0x103, 2, 1, 2, 11, 2, 1, 1, 12, 0,
    0, 1, 1, 1, 11, 2, 1, 1, 0x104, 2, 10, 1, 9, 1, 0x105, 1, 33, 1, 0x106, 0, 0x107, 1, 1, 0x108,
    7,
];

/// Four sections in rising order.
const LONGER: &[u32] = &[
    2, 4, 1, 0x101, 2, 1, 0x1, 100, 0x100, 0x100, 7, 0x100, 100, 0, 0, 0x102, 5, 11, 1, 0x101, 28,
    0, 0x101, 33, 0, 0x1, 39, 0, 0x101, 46, 1, 0x101, 0x104, 1, 10, 0x100, 0x105, 1, 33, 0x1,
];

/// One header word more than needed.
const EXTRA: &[u32] = &[3, 1, 1, 7, 0x101, 1, 1, 1, 100, 0, 0];

/// Sections in another order.
const MIXED: &[u32] = &[
    2, 4, 1, 0x101, 1, 8, 4, 0, 0, 0, 0x108, 5, 0x107, 1, 2, 0x102, 0,
];

/// The bytes of these words, in little-endian order.
fn bytes_of(alloc: Global, words: &[u32]) -> Result<Vec<u8>, Fail> {
    let mut bytes = Vec::new(alloc);
    for word in words {
        bytes.extend_from_slice(&word.to_le_bytes())?;
    }
    Ok(bytes)
}

/// The object that these words are, in a box, so that its holder is small.
fn object_of(alloc: Global, words: &[u32]) -> Result<Box<Object>, Fail>
    ensures { IfOk result (λ object. IsObject object.value) }
{
    let bytes = bytes_of(alloc, words)?;
    Ok(Box::new(alloc, decode(alloc, &bytes)?)?)
}

fn is_small(object: &Object) -> bool {
    let master = MasterRec {
        node: 7,
        mask: 0x100,
        timeout: 100,
        suspend: 0,
        wake: 0,
    };
    let slave = SlaveRec {
        node: 33,
        flags: 0,
        mask: 0x1,
    };
    object.extra.is_empty()
        && object.power.is_empty()
        && object.order.as_slice() == [Section::Masters, Section::Slaves].as_slice()
        && object.masters.len() == 2
        && object.masters.as_slice().last().copied() == Some(master)
        && object.slaves.len() == 2
        && object.slaves.as_slice().last().copied() == Some(slave)
}

#[test]
fn reads_masters_and_slaves(rt: HostRuntime) -> Result<(), Fail> {
    let object = object_of(rt.alloc(), SMALL)?;
    assert!(rt; is_small(&object));
    Ok(())
}

/// Reads the words, copies the object, and writes the copy.
fn written_again(alloc: Global, words: &[u32]) -> Result<Vec<u8>, Fail> {
    let object = object_of(alloc, words)?;
    let copy = Box::new(alloc, object.copy(alloc)?)?;
    Ok(encode(alloc, &copy)?)
}

static OBJECTS: [&[u32]; 5] = [SMALL, LONGER, WHOLE, EXTRA, MIXED];

fn wrong_object(alloc: Global) -> Result<Option<usize>, Fail> {
    for (place, words) in OBJECTS.iter().enumerate() {
        if written_again(alloc, words)?.as_slice() != bytes_of(alloc, words)?.as_slice() {
            return Ok(Some(place));
        }
    }
    Ok(None)
}

#[test]
fn what_is_read_is_written_and_copied(rt: HostRuntime) -> Result<(), Fail> {
    all_right(&rt, wrong_object(rt.alloc())?);
    Ok(())
}

/// The fault in the bytes, as the numbers that the program prints.
fn fault_of(alloc: Global, bytes: &[u8]) -> Option<(u32, u32)> {
    match decode(alloc, bytes).err() {
        Some(DecodeError::Bad(fault)) => Some((fault.cause as u32, fault.offset)),
        _ => None,
    }
}

/// The bytes of words, some of which are replaced.
fn changed(alloc: Global, words: &[u32], changes: &[(usize, u32)]) -> Result<Vec<u8>, Fail> {
    let mut words = Vec::from_slice(alloc, words)?;
    for (place, word) in changes {
        if *place < words.len() {
            words[*place] = *word;
        }
    }
    bytes_of(alloc, &words)
}

/// A case: the replaced words with their places, the fault, and its place.
type Case = (&'static [(usize, u32)], u32, u32);

/// Changes of the small object.
static IN_SMALL: [Case; 33] = [
    (&[(0, 0)], 4, 0),
    (&[(0, 1)], 4, 0),
    (&[(2, 0)], 5, 2),
    (&[(2, 2), (1, 0)], 5, 2),
    (&[(0, 22), (2, 2)], 5, 2),
    (&[(0, 23), (2, 2)], 3, 23),
    (&[(0, 0xFFFF_FFFF)], 3, 23),
    (&[(1, 0)], 8, 3),
    (&[(3, 0x100)], 6, 3),
    (&[(3, 0x102)], 8, 3),
    (&[(3, 0x103)], 8, 3),
    (&[(4, 0)], 8, 4),
    (&[(15, 0x109)], 6, 15),
    (&[(15, 0x101)], 7, 15),
    (&[(5, 2)], 9, 5),
    (&[(10, 33)], 9, 10),
    (&[(5, 6)], 9, 10),
    (&[(5, 6), (10, 8)], 9, 10),
    (&[(5, 7), (10, 6)], 9, 10),
    (&[(5, 8), (10, 6)], 9, 10),
    (&[(10, 1)], 11, 10),
    (&[(5, 6), (10, 6)], 11, 10),
    (&[(6, 0)], 10, 6),
    (&[(6, 3)], 10, 6),
    (&[(11, 0x101)], 10, 11),
    (&[(11, 0x1)], 10, 11),
    (&[(10, 2), (11, 0x1)], 9, 10),
    (&[(20, 11)], 11, 20),
    (&[(20, 11), (21, 7)], 11, 20),
    (&[(16, 1)], 12, 20),
    (&[(1, 1)], 12, 15),
    (&[(1, 3)], 3, 23),
    (&[(16, 0xFFFF_FFFF)], 3, 23),
];

/// Changes of the object with all sections.
static IN_WHOLE: [Case; 11] = [
    (&[(23, 11)], 11, 23),
    (&[(37, 10)], 11, 37),
    (&[(40, 2), (43, 33)], 11, 43),
    (&[(44, 2), (45, 3), (47, 3)], 11, 47),
    (&[(33, 0x102)], 7, 33),
    (&[(48, 0x107)], 7, 48),
    (&[(48, 0x109)], 6, 48),
    (&[(1, 7)], 12, 48),
    (&[(1, 9)], 3, 50),
    (&[(16, 0xFFFF_FFFF)], 3, 50),
    (&[(28, 0xFFFF_FFFF), (33, 10)], 3, 50),
];

fn wrong_fault(alloc: Global, words: &[u32], cases: &[Case]) -> Result<Option<usize>, Fail> {
    for (place, (changes, cause, offset)) in cases.iter().enumerate() {
        let bytes = changed(alloc, words, changes)?;
        if fault_of(alloc, &bytes) != Some((*cause, *offset)) {
            return Ok(Some(place));
        }
    }
    Ok(None)
}

#[test]
fn the_first_fault_and_its_place(rt: HostRuntime) -> Result<(), Fail> {
    all_right(&rt, wrong_fault(rt.alloc(), SMALL, &IN_SMALL)?);
    all_right(&rt, wrong_fault(rt.alloc(), WHOLE, &IN_WHOLE)?);
    Ok(())
}

/// The first length at which the cut bytes of an object of 23 words have another fault than a missing word.
fn wrong_length(alloc: Global, bytes: &[u8]) -> Option<usize> {
    for count in 0..92_u32 {
        let cause = if count % 4 == 0 { 3 } else { 1 };
        let front = bytes.get(..count as usize)?;
        if fault_of(alloc, front) != Some((cause, count / 4)) {
            return Some(count as usize);
        }
    }
    None
}

#[test]
fn each_length_up_to_the_whole(rt: HostRuntime) -> Result<(), Fail> {
    let bytes = bytes_of(rt.alloc(), SMALL)?;
    assert_eq!(rt; bytes.len(), 92);
    all_right(&rt, wrong_length(rt.alloc(), &bytes));
    Ok(())
}

/// A row: a number of zero bytes, and their fault.
static ZEROS: [(usize, u32, u32); 3] = [(16_385, 2, 4096), (16_384, 4, 0), (16_383, 1, 4095)];

fn wrong_zeros(alloc: Global) -> Result<Option<usize>, Fail> {
    for (place, (count, cause, offset)) in ZEROS.iter().enumerate() {
        let zeros: Vec<u8> = vec![in alloc; 0; *count]?;
        if fault_of(alloc, &zeros) != Some((*cause, *offset)) {
            return Ok(Some(place));
        }
    }
    Ok(None)
}

#[test]
fn lengths_about_the_longest(rt: HostRuntime) -> Result<(), Fail> {
    all_right(&rt, wrong_zeros(rt.alloc())?);
    Ok(())
}
