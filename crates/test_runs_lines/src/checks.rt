//! The comparisons of a run with its text and exit.

use super::running::run;
use pm_base::Exit;
use pm_io::MemSink;
use std::process::Abort;
use std::test::Fail;
use test_fixtures::{Asked, joined, replay_of};

/// Compares a run over a sink with this room, and a device that doesn't fail, with its text and exit.
pub(crate) fn check(
    rt: &(impl Abort + AllocGlobal),
    asked: &Asked,
    room: Option<u32>,
    text: &[u8],
    exit: Exit,
) -> Result<(), Fail> {
    let mut out = MemSink::new(rt.alloc(), room)?;
    let found = run(rt.alloc(), asked, &mut out)?;
    assert_eq!(rt;
        (found, out.bytes()),
        (exit, text),
        "{}, room {room:?}",
        asked.words
    );
    Ok(())
}

/// Compares a run whose sink has room for so many bytes with so many bytes of the whole text.
pub(crate) fn check_broken_off(
    rt: &(impl Abort + AllocGlobal),
    asked: &Asked,
    length: usize,
    whole: &[u8],
) -> Result<(), Fail> {
    let front = whole.get(..length).ok_or("a front")?;
    check(
        rt,
        asked,
        u32::try_from(length).ok(),
        front,
        Exit::WriteFault,
    )
}

/// Compares the run of a script over an object with its text; both come in pieces.
pub(crate) fn check_pieces(
    rt: &(impl Abort + AllocGlobal),
    object: &[u32],
    script: &[&str],
    text: &[&str],
) -> Result<(), Fail> {
    let script = joined(rt.alloc(), script)?;
    let whole = joined(rt.alloc(), text)?;
    check(rt, &replay_of(object, &script), None, &whole, Exit::Done)
}

/// Compares a run with its text, which comes in pieces, and its exit.
pub(crate) fn check_joined(
    rt: &(impl Abort + AllocGlobal),
    asked: &Asked,
    text: &[&str],
    exit: Exit,
) -> Result<(), Fail> {
    let whole = joined(rt.alloc(), text)?;
    check(rt, asked, None, &whole, exit)
}
