//! The lines, words and numbers of a text.

use crate::rows::all_right;
use pm_io::{Ending, number, split_line, word};

/// A line, the place of a word, and the places at which the word begins and ends.
static WORDS: [(&str, usize, Option<(usize, usize)>); 16] = [
    ("ipi 1 2", 0, Some((0, 3))),
    ("ipi 1 2", 1, Some((4, 5))),
    ("ipi 1 2", 2, Some((6, 7))),
    ("ipi 1 2", 3, None),
    ("\t a \t\tb \t", 0, Some((2, 3))),
    ("\t a \t\tb \t", 1, Some((6, 7))),
    ("\t a \t\tb \t", 2, None),
    ("a#b #c d", 0, Some((0, 3))),
    ("a#b #c d", 1, None),
    (" # a", 0, None),
    ("ab\r", 0, Some((0, 2))),
    ("a \r", 1, None),
    ("a\rb", 0, Some((0, 3))),
    ("a\r\r", 0, Some((0, 2))),
    ("\r", 0, None),
    ("", 0, None),
];

/// The index of the first wrong row.
fn wrong_word() -> Option<usize> {
    for (place, (line, k, want)) in WORDS.iter().enumerate() {
        if word(line.as_bytes(), *k) != *want {
            return Some(place);
        }
    }
    None
}

#[test]
fn words_of_a_line(rt: HostRuntime) {
    all_right(&rt, wrong_word());
}

/// A word, the greatest number that is accepted, and its number.
static NUMBERS: [(&str, u64, Option<u64>); 24] = [
    ("0", 0, Some(0)),
    ("007", 7, Some(7)),
    ("010", 10, Some(10)),
    ("0x0F", 15, Some(15)),
    ("0xfF", 255, Some(255)),
    ("4294967295", 4_294_967_295, Some(4_294_967_295)),
    ("4294967296", 4_294_967_295, None),
    ("0xffffffff", 4_294_967_295, Some(4_294_967_295)),
    ("0x100000000", 4_294_967_295, None),
    ("18446744073709551615", u64::MAX, Some(u64::MAX)),
    ("18446744073709551616", u64::MAX, None),
    ("0xffffffffffffffff", u64::MAX, Some(u64::MAX)),
    ("0x10000000000000000", u64::MAX, None),
    ("0000000000000000000000000000001", 1, Some(1)),
    ("", u64::MAX, None),
    ("0x", u64::MAX, None),
    ("0X1", u64::MAX, None),
    ("00x1", u64::MAX, None),
    ("0x0x1", u64::MAX, None),
    ("+1", u64::MAX, None),
    ("-1", u64::MAX, None),
    ("1a", u64::MAX, None),
    ("0x1g", u64::MAX, None),
    ("1 ", u64::MAX, None),
];

fn wrong_number() -> Option<usize> {
    for (place, (text, greatest, want)) in NUMBERS.iter().enumerate() {
        if number(text.as_bytes(), *greatest) != *want {
            return Some(place);
        }
    }
    None
}

#[test]
fn numbers_of_words(rt: HostRuntime) {
    all_right(&rt, wrong_number());
}

const LONG: &[u8] = &[b'#'; 256];

const SHORTER: &[u8] = &[b'#'; 255];

/// A text, whether its first line is whole, and that line with all that follows.
static SPLITS: [(&[u8], Ending, Option<(&[u8], &[u8])>); 9] = [
    (b"", Ending::Whole, None),
    (b"\n", Ending::Whole, Some((b"", b""))),
    (b"a\r\nb", Ending::Whole, Some((b"a\r", b"b"))),
    (b"\nb", Ending::Cut, Some((b"", b"b"))),
    (b"b", Ending::Whole, Some((b"b", b""))),
    (b"\r", Ending::Whole, Some((b"\r", b""))),
    (b"b", Ending::Cut, None),
    (SHORTER, Ending::Cut, None),
    (LONG, Ending::Cut, Some((LONG, b""))),
];

fn wrong_split() -> Option<usize> {
    for (place, (text, ending, split)) in SPLITS.iter().enumerate() {
        if split_line(text, *ending) != *split {
            return Some(place);
        }
    }
    None
}

#[test]
fn a_text_is_its_lines(rt: HostRuntime) {
    all_right(&rt, wrong_split());
}
