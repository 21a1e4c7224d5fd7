//! The results of a reader, call by call.

use pm_io::{Inputs, MemInputs};
use pm_reader::{LineBuf, LineReader, Taken};
use std::alloc::Global;
use std::test::Fail;

/// A text, repeated so often.
type Piece = (u32, &'static str);

/// A result of a reader that comes so often, and its line: a text repeated so often.
type Answers = (u32, Taken, Piece);

/// A case: the content of an input, the limit, the byte at which its reads fail (none if it is past the end), and all
/// results up to the one that ends it.
type Case = (&'static [Piece], u32, u32, &'static [Answers]);

const NEVER: u32 = 1_000_000;

const NOTHING: Piece = (0, "");

/// Lines, and the ends of lines.
static LINES: [Case; 8] = [
    (&[], 100, NEVER, &[(1, Taken::End, NOTHING)]),
    (
        &[(1, "\n")],
        100,
        NEVER,
        &[(1, Taken::Line, NOTHING), (1, Taken::End, NOTHING)],
    ),
    (
        &[(1, "ab\n")],
        100,
        NEVER,
        &[(1, Taken::Line, (1, "ab")), (1, Taken::End, NOTHING)],
    ),
    (
        &[(1, "ab\ncd")],
        100,
        NEVER,
        &[
            (1, Taken::Line, (1, "ab")),
            (1, Taken::Line, (1, "cd")),
            (1, Taken::End, NOTHING),
        ],
    ),
    (
        &[(1, "ab\n\n\ncd\n")],
        100,
        NEVER,
        &[
            (1, Taken::Line, (1, "ab")),
            (2, Taken::Line, NOTHING),
            (1, Taken::Line, (1, "cd")),
            (1, Taken::End, NOTHING),
        ],
    ),
    (
        &[(1, "\r")],
        100,
        NEVER,
        &[(1, Taken::Line, (1, "\r")), (1, Taken::End, NOTHING)],
    ),
    (
        &[(1, "a\r\n")],
        100,
        NEVER,
        &[(1, Taken::Line, (1, "a\r")), (1, Taken::End, NOTHING)],
    ),
    (
        &[(1, "b")],
        100,
        NEVER,
        &[(1, Taken::Line, (1, "b")), (1, Taken::End, NOTHING)],
    ),
];

/// Lines of 255 bytes, and longer ones.
static LONG: [Case; 5] = [
    (
        &[(255, "x"), (1, "\n")],
        1000,
        NEVER,
        &[(1, Taken::Line, (255, "x")), (1, Taken::End, NOTHING)],
    ),
    (
        &[(255, "x")],
        1000,
        NEVER,
        &[(1, Taken::Line, (255, "x")), (1, Taken::End, NOTHING)],
    ),
    (
        &[(256, "x"), (1, "\n")],
        1000,
        NEVER,
        &[(1, Taken::Long, NOTHING)],
    ),
    (&[(256, "x")], 1000, NEVER, &[(1, Taken::Long, NOTHING)]),
    (
        &[(1, "ab\n"), (5000, "x")],
        9000,
        NEVER,
        &[(1, Taken::Line, (1, "ab")), (1, Taken::Long, NOTHING)],
    ),
];

/// Lines that end before, at and after the end of a window of 4,096 bytes.
static WINDOWS: [Case; 5] = [
    (
        &[(1000, "0123456789\n"), (1, "end")],
        100_000,
        NEVER,
        &[
            (1000, Taken::Line, (1, "0123456789")),
            (1, Taken::Line, (1, "end")),
            (1, Taken::End, NOTHING),
        ],
    ),
    (
        &[(512, "0123456\n"), (1, "y")],
        100_000,
        NEVER,
        &[
            (512, Taken::Line, (1, "0123456")),
            (1, Taken::Line, (1, "y")),
            (1, Taken::End, NOTHING),
        ],
    ),
    (
        &[(4095, "\n"), (1, "ab\n"), (1, "cd")],
        100_000,
        NEVER,
        &[
            (4095, Taken::Line, NOTHING),
            (1, Taken::Line, (1, "ab")),
            (1, Taken::Line, (1, "cd")),
            (1, Taken::End, NOTHING),
        ],
    ),
    (
        &[(4096, "\n"), (1, "ab")],
        100_000,
        NEVER,
        &[
            (4096, Taken::Line, NOTHING),
            (1, Taken::Line, (1, "ab")),
            (1, Taken::End, NOTHING),
        ],
    ),
    (
        &[(4000, "\n"), (255, "x"), (1, "\n"), (255, "z"), (1, "\n")],
        100_000,
        NEVER,
        &[
            (4000, Taken::Line, NOTHING),
            (1, Taken::Line, (255, "x")),
            (1, Taken::Line, (255, "z")),
            (1, Taken::End, NOTHING),
        ],
    ),
];

/// A byte past the limit belongs to no line, and the lines before it come first.
static LIMITS: [Case; 7] = [
    (
        &[(1, "ab\ncd")],
        5,
        NEVER,
        &[
            (1, Taken::Line, (1, "ab")),
            (1, Taken::Line, (1, "cd")),
            (1, Taken::End, NOTHING),
        ],
    ),
    (
        &[(1, "ab\ncd")],
        4,
        NEVER,
        &[(1, Taken::Line, (1, "ab")), (1, Taken::Over, NOTHING)],
    ),
    (
        &[(1, "ab\ncd")],
        3,
        NEVER,
        &[(1, Taken::Line, (1, "ab")), (1, Taken::Over, NOTHING)],
    ),
    (&[(1, "ab\n")], 2, NEVER, &[(1, Taken::Over, NOTHING)]),
    (&[(1, "a")], 0, NEVER, &[(1, Taken::Over, NOTHING)]),
    (&[(257, "x")], 256, NEVER, &[(1, Taken::Long, NOTHING)]),
    (&[(256, "x")], 255, NEVER, &[(1, Taken::Over, NOTHING)]),
];

/// A read fails. The whole lines before it come first; a line that isn't whole is none.
static FAULTS: [Case; 7] = [
    (&[(1, "ab\ncd\n")], 100, 0, &[(1, Taken::Fault, NOTHING)]),
    (&[(1, "ab\ncd\n")], 100, 2, &[(1, Taken::Fault, NOTHING)]),
    (
        &[(1, "ab\ncd\n")],
        100,
        3,
        &[(1, Taken::Line, (1, "ab")), (1, Taken::Fault, NOTHING)],
    ),
    (
        &[(1, "ab\ncd\n")],
        100,
        5,
        &[(1, Taken::Line, (1, "ab")), (1, Taken::Fault, NOTHING)],
    ),
    (
        &[(1, "ab\ncd\n")],
        100,
        6,
        &[
            (1, Taken::Line, (1, "ab")),
            (1, Taken::Line, (1, "cd")),
            (1, Taken::Fault, NOTHING),
        ],
    ),
    (&[(300, "x")], 1000, 255, &[(1, Taken::Fault, NOTHING)]),
    (&[(300, "x")], 1000, 256, &[(1, Taken::Long, NOTHING)]),
];

fn text_of(alloc: Global, pieces: &[Piece]) -> Result<Vec<u8>, Fail> {
    let mut text = Vec::new(alloc);
    for (count, piece) in pieces {
        for _ in 0..*count {
            text.extend_from_slice(piece.as_bytes())?;
        }
    }
    Ok(text)
}

/// Whether a reader gives another result or another line than expected.
fn is_wrong(
    reader: &mut LineReader,
    inputs: &mut MemInputs,
    id: u32,
    want: Taken,
    text: &[u8],
) -> bool {
    let mut line = LineBuf::new();
    reader.next(inputs, id, &mut line) != want || line.as_slice() != text
}

/// The row of results of which one isn't as expected.
fn wrong_answer(alloc: Global, case: &Case) -> Result<Option<usize>, Fail> {
    let (pieces, limit, fails_at, answers) = case;
    let mut inputs = MemInputs::new(alloc, &[(0, *fails_at)])?;
    inputs.add("script", text_of(alloc, pieces)?.as_slice())?;
    let id = inputs.begin("script")?;
    let mut reader = LineReader::new(*limit);
    for (place, (count, want, line)) in answers.iter().enumerate() {
        let text = text_of(alloc, &[*line])?;
        for _ in 0..*count {
            if is_wrong(&mut reader, &mut inputs, id, *want, text.as_slice()) {
                return Ok(Some(place));
            }
        }
    }
    Ok(None)
}

/// The case with an unexpected result, and that result.
fn wrong_case(alloc: Global, cases: &[Case]) -> Result<Option<(usize, usize)>, Fail> {
    for (place, case) in cases.iter().enumerate() {
        if let Some(answer) = wrong_answer(alloc, case)? {
            return Ok(Some((place, answer)));
        }
    }
    Ok(None)
}

#[test]
fn lines_come_in_order(rt: HostRuntime) -> Result<(), Fail> {
    let wrong = wrong_case(rt.alloc(), &LINES)?;
    assert_eq!(rt; wrong, None);
    Ok(())
}

#[test]
fn a_line_has_255_bytes_at_most(rt: HostRuntime) -> Result<(), Fail> {
    let wrong = wrong_case(rt.alloc(), &LONG)?;
    assert_eq!(rt; wrong, None);
    Ok(())
}

#[test]
fn lines_go_across_windows(rt: HostRuntime) -> Result<(), Fail> {
    let wrong = wrong_case(rt.alloc(), &WINDOWS)?;
    assert_eq!(rt; wrong, None);
    Ok(())
}

#[test]
fn the_lines_within_the_limit_come_first(rt: HostRuntime) -> Result<(), Fail> {
    let wrong = wrong_case(rt.alloc(), &LIMITS)?;
    assert_eq!(rt; wrong, None);
    Ok(())
}

#[test]
fn the_lines_before_a_failing_byte_come_first(rt: HostRuntime) -> Result<(), Fail> {
    let wrong = wrong_case(rt.alloc(), &FAULTS)?;
    assert_eq!(rt; wrong, None);
    Ok(())
}
