//! Runs over inputs that fail.

use super::checks::{check, check_joined};
use super::running::run_with;
use pm_base::Exit;
use pm_io::MemSink;
use std::process::Abort;
use std::test::Fail;
use test_fixtures::{
    ALONE, Asked, LABORATORY, LABORATORY_LOADED, LABORATORY_SETTLED, STARTED, model, node,
    replay_of,
};

const SCRIPT: &[u8] = b"ipi 8 3 11\nipi 8 3 12";

const WHOLE: &str = "0 set 62 0 1
0 set 6 0 1
0 set 7 0 1
0 run 7 0
1 drop 8
2 drop 8
end power 6 1 1
end proc 7 1 1
end power 62 1 1
";

/// A row: the ends of the words, the input and the byte at which a read fails, the text and the exit.
static FAILING: [(&str, &[(u32, u32)], &str, Exit); 8] = [
    ("replay obj script", &[(0, 41)], WHOLE, Exit::Done),
    ("replay obj script", &[(1, 22)], WHOLE, Exit::Done),
    ("replay no script", &[], "fault read\n", Exit::ReadFault),
    ("replay obj no", &[], "fault read\n", Exit::ReadFault),
    ("print no", &[], "fault read\n", Exit::ReadFault),
    ("print obj", &[(0, 40)], "fault read\n", Exit::ReadFault),
    ("build no", &[], "fault read\n", Exit::ReadFault),
    ("build script", &[(1, 21)], "fault read\n", Exit::ReadFault),
];

#[test]
fn an_input_that_fails(rt: HostRuntime) -> Result<(), Fail> {
    for (words, failing, text, exit) in &FAILING {
        let asked = Asked {
            words,
            object: ALONE,
            script: SCRIPT,
            failing,
            topology: &[],
        };
        check(&rt, &asked, None, text.as_bytes(), *exit)?;
    }
    Ok(())
}

/// A row: an object, a script, the input whose reads fail from one byte to before another, and the text.
type Span = (
    &'static [u32],
    &'static [u8],
    u32,
    u32,
    u32,
    &'static [&'static str],
);

const FAULT: &str = "fault read\n";

static SPANS: [Span; 3] = [
    (ALONE, SCRIPT, 0, 0, 41, &[FAULT]),
    (ALONE, SCRIPT, 1, 0, 11, &[STARTED, FAULT]),
    (ALONE, SCRIPT, 1, 11, 22, &[STARTED, "1 drop 8\n", FAULT]),
];

/// A script in which a serial port is requested, and its text.
const TWO_LINES: &[u8] = b"ipi 1 21\nipi 1 13 33 1 0 2\n";

const ONE_LINE: &[u8] = b"ipi 1 21\n";

const LOADED: &str = LABORATORY_LOADED;

const SETTLED: &str = LABORATORY_SETTLED;

const REQUESTED: &str = "2 set 33 0 1\n2 reply 1 0 0 0 0\n";

static SPANS_OF_LINES: [Span; 5] = [
    // the object has 160 bytes
    (LABORATORY, TWO_LINES, 0, 0, 161, &[FAULT]),
    (LABORATORY, TWO_LINES, 1, 0, 9, &[LOADED, FAULT]),
    (LABORATORY, TWO_LINES, 1, 9, 27, &[LOADED, SETTLED, FAULT]),
    // the end of a script is read, and this read fails
    (
        LABORATORY,
        TWO_LINES,
        1,
        27,
        28,
        &[LOADED, SETTLED, REQUESTED, FAULT],
    ),
    (LABORATORY, ONE_LINE, 1, 9, 10, &[LOADED, SETTLED, FAULT]),
];

/// Makes a replay once for each byte of a span, at which a read fails.
fn check_span(rt: &(impl Abort + AllocGlobal), span: &Span) -> Result<(), Fail> {
    let (object, script, input, first, end, pieces) = *span;
    for at in first..end {
        let asked = Asked {
            failing: &[(input, at)],
            ..replay_of(object, script)
        };
        check_joined(rt, &asked, pieces, Exit::ReadFault)?;
    }
    Ok(())
}

#[test]
fn an_input_that_fails_at_each_byte(rt: HostRuntime) -> Result<(), Fail> {
    for span in &SPANS {
        check_span(&rt, span)?;
    }
    Ok(())
}

#[test]
fn an_input_of_several_lines_that_fails_at_each_byte(rt: HostRuntime) -> Result<(), Fail> {
    for span in &SPANS_OF_LINES {
        check_span(&rt, span)?;
    }
    Ok(())
}

/// A row: words, the input and the byte at which a read fails, and the value of LPD after the run. A device gets
/// commands only after a script was opened.
static BEGUN: [(&str, (u32, u32), u32); 7] = [
    ("replay obj", (9, 0), 0),
    ("replay no script", (9, 0), 0),
    ("replay obj no", (9, 0), 0),
    ("replay obj script", (0, 20), 0),
    ("replay obj script", (1, 0), 1),
    ("print obj", (9, 0), 0),
    ("build script", (9, 0), 0),
];

/// A run after which LPD has this value.
fn check_value(rt: &(impl Abort + AllocGlobal), asked: &Asked, value: u32) -> Result<(), Fail> {
    let mut out = MemSink::new(rt.alloc(), None)?;
    let mut device = model(rt.alloc())?;
    run_with(rt.alloc(), asked, &mut out, &mut *device)?;
    assert_eq!(rt; device.value(node(62)), value, "{}", asked.words);
    Ok(())
}

#[test]
fn a_device_is_commanded_only_once_a_script_is_begun(rt: HostRuntime) -> Result<(), Fail> {
    for (words, failing, value) in &BEGUN {
        let asked = Asked {
            words,
            object: ALONE,
            script: b"header\n",
            failing: &[*failing],
            topology: &[],
        };
        check_value(&rt, &asked, *value)?;
    }
    Ok(())
}
