//! Texts of objects are built and printed.

use crate::rows::all_right;
use pm_objtext::{BuildError, TextCause, TextFault, build, print};
use std::alloc::{AllocError, Global};
use std::test::Fail;

const TWO_MASTERS: &str =
    "header\nsection masters\nmaster 1 1 100 0 0\nmaster 7 256 100 0 0\nsection slaves\nslave 11 1 257\nslave 33 0 1\n";

const ALL_SECTIONS: &str =
    "header\nsection masters\nmaster 8 2 4294967295 2 2\nsection gpo\ngpo 5\nsection prealloc\ngroup 2\nprefer 11 2 1 1\nprefer 12 0 0 4\ngroup 3\nprefer 11 0 0 0\nsection config\nconfig 2 0\nsection shutdown\nshutdown 0 2\nsection reset\nreset 33 2\nsection power\npower 10 2\nsection slaves\n";

/// A row: a text, and the printed text of its object.
static GOOD: [(&str, &str); 6] = [
    (TWO_MASTERS, TWO_MASTERS),
    (ALL_SECTIONS, ALL_SECTIONS),
    (
        "header 7\nsection masters\nmaster 1 1 100 0 0\n",
        "header 7\nsection masters\nmaster 1 1 100 0 0\n",
    ),
    // blanks, comments, empty lines, carriage returns, both bases, no last line feed
    (
        "# an object\n\nheader\r\n section\tmasters #\nmaster 0x1 001 0x64 0 0",
        "header\nsection masters\nmaster 1 1 100 0 0\n",
    ),
    // a further header line after a full one
    (
        "header 1 2 3 4 5 6 7 8 9 10 11 12 13 14 15 16\n\nheader\nsection masters\nmaster 6 4 0 0 0\n",
        "header 1 2 3 4 5 6 7 8 9 10 11 12 13 14 15 16\nsection masters\nmaster 6 4 0 0 0\n",
    ),
    (
        "header 1 2 3 4 5 6 7 8 9 10 11 12 13 14 15 16\nheader 17\nsection masters\nmaster 6 4 0 0 0\n",
        "header 1 2 3 4 5 6 7 8 9 10 11 12 13 14 15 16\nheader 17\nsection masters\nmaster 6 4 0 0 0\n",
    ),
];

/// Builds the object of a text and prints it.
fn printed(alloc: Global, text: &str) -> Result<Vec<u8>, Fail> {
    let object = Box::new(alloc, build(alloc, text.as_bytes())?)?;
    Ok(print(alloc, &object)?)
}

fn wrong_print(alloc: Global) -> Result<Option<usize>, Fail> {
    for (place, (text, want)) in GOOD.iter().enumerate() {
        if printed(alloc, text)?.as_slice() != want.as_bytes() {
            return Ok(Some(place));
        }
    }
    Ok(None)
}

#[test]
fn texts_are_built_and_printed(rt: HostRuntime) -> Result<(), Fail> {
    all_right(&rt, wrong_print(rt.alloc())?);
    Ok(())
}

/// A row: a text, its first bad line, and the first cause there.
static BAD: [(&str, u32, TextCause); 25] = [
    ("section masters\n", 1, TextCause::Place),
    ("", 1, TextCause::Place),
    ("header\n", 2, TextCause::Master),
    ("header\nheader\n", 2, TextCause::Place),
    ("header\n\nsection slaves\n", 3, TextCause::Master),
    ("header\nsection masters", 3, TextCause::Master),
    (
        "header\nsection masters\nsection power\n",
        3,
        TextCause::Master,
    ),
    (
        "header\nsection masters\nmaster 1 1 1 1\n",
        3,
        TextCause::Form,
    ),
    (
        "header\nsection masters\nmaster 1 1 1 1 +1\n",
        3,
        TextCause::Form,
    ),
    (
        "header\nsection masters\nmaster 1 1 1 1 4294967296\n",
        3,
        TextCause::Form,
    ),
    (
        "header\nsection masters\nmaster 2 1 1 1 1\n",
        3,
        TextCause::Master,
    ),
    (
        "header\nsection masters\nmaster 1 3 1 1 1\n",
        3,
        TextCause::Master,
    ),
    (
        "header\nsection masters\nmaster 6 1 1 1 1\nmaster 8 2 1 1 1\n",
        4,
        TextCause::Master,
    ),
    (
        "header\nsection masters\nmaster 1 1 1 1 1\nmaster 7 1 1 1 1\n",
        4,
        TextCause::Master,
    ),
    // two causes on one line: the first counts
    ("master one\n", 1, TextCause::Form),
    (
        "header 1 2 3 4 5 6 7 8 9 10 11 12 13 14 15 16 17\n",
        1,
        TextCause::Form,
    ),
    (
        "header\nsection masters\nsection masters\n",
        3,
        TextCause::Repeated,
    ),
    (
        "header\nsection masters\nmaster 1 1 1 1 1\nmaster 1 1 1 1 1\n",
        4,
        TextCause::Repeated,
    ),
    (
        "header\nsection masters\nmaster 1 1 1 1 1\nsection config\nsection config\n",
        5,
        TextCause::Place,
    ),
    (
        "header\nsection masters\nmaster 1 1 1 1 1\nsection config\n",
        5,
        TextCause::Place,
    ),
    (
        "header\nsection masters\nmaster 1 1 1 1 1\nsection gpo\ngpo 1\ngpo 1\n",
        6,
        TextCause::Place,
    ),
    (
        "header\nsection masters\nmaster 1 1 1 1 1\nsection prealloc\nprefer 1 1 1 1\n",
        5,
        TextCause::Place,
    ),
    (
        "header\nsection masters\nmaster 1 1 1 1 1\nsection power\nreset 1 1\n",
        5,
        TextCause::Place,
    ),
    (
        "header\nsection masters\nmaster 1 1 1 1 1\nsection power\npower 9 1\npower 9 2\n",
        6,
        TextCause::Repeated,
    ),
    (
        "header\nsection masters\nmaster 1 1 1 1 1\nsection extra\n",
        4,
        TextCause::Form,
    ),
];

/// The first bad line and the cause.
fn fault_of(alloc: Global, text: &[u8]) -> Option<(u32, TextCause)> {
    match build(alloc, text).err() {
        Some(BuildError::Bad(TextFault { line, cause })) => Some((line, cause)),
        _ => None,
    }
}

fn wrong_fault(alloc: Global) -> Option<usize> {
    for (place, (text, line, cause)) in BAD.iter().enumerate() {
        if fault_of(alloc, text.as_bytes()) != Some((*line, *cause)) {
            return Some(place);
        }
    }
    None
}

#[test]
fn the_first_bad_line_is_answered(rt: HostRuntime) {
    all_right(&rt, wrong_fault(rt.alloc()));
}

/// A row: a number of spaces, and their fault.
static SPACES: [(usize, u32, TextCause); 3] = [
    (255, 2, TextCause::Place),
    (256, 1, TextCause::Form),
    (1_048_577, 0, TextCause::Size),
];

fn wrong_spaces(alloc: Global) -> Result<Option<usize>, Fail> {
    for (place, (count, line, cause)) in SPACES.iter().enumerate() {
        let text = vec![in alloc; b' '; *count]?;
        if fault_of(alloc, text.as_slice()) != Some((*line, *cause)) {
            return Ok(Some(place));
        }
    }
    Ok(None)
}

#[test]
fn long_lines_and_long_texts_are_refused(rt: HostRuntime) -> Result<(), Fail> {
    all_right(&rt, wrong_spaces(rt.alloc())?);
    Ok(())
}

/// A text with so many slaves.
fn text_of_slaves(alloc: Global, count: u32) -> Result<String, AllocError> {
    let mut text = String::from_str(
        alloc,
        "header\nsection masters\nmaster 1 1 1 1 1\nsection slaves\n",
    )?;
    for node in 0..count {
        text.push_str(format!(in alloc; "slave {node} 0 0\n")?.as_str())?;
    }
    Ok(text)
}

/// Whether the text of the longest object is printed as it was.
fn is_printed(alloc: Global) -> Result<bool, Fail> {
    let whole = text_of_slaves(alloc, 1361)?;
    Ok(printed(alloc, whole.as_str())?.as_slice() == whole.as_bytes())
}

#[test]
fn an_object_has_at_most_4096_words(rt: HostRuntime) -> Result<(), Fail> {
    assert!(rt; is_printed(rt.alloc())?);
    let longer = text_of_slaves(rt.alloc(), 1362)?;
    let answer = fault_of(rt.alloc(), longer.as_bytes());
    assert_eq!(rt; answer, Some((1366, TextCause::Size)));
    Ok(())
}
