//! The comparisons of a run with its text and exit.

use super::running::run;
use pm_base::Exit;
use pm_io::MemSink;
use std::process::Abort;
use std::test::Fail;
use test_fixtures::{Asked, joined};

/// Compares a run with its text and exit, over a sink with this room and a device that doesn't fail.
pub(crate) fn check(
    rt: &(impl Abort + AllocGlobal),
    asked: &Asked,
    room: Option<u32>,
    text: &[u8],
    exit: Exit,
) -> Result<(), Fail> {
    let mut out = MemSink::new(rt.alloc(), room)?;
    let found = run(rt.alloc(), asked, &mut out)?;
    assert_eq!(rt;
        (found, out.bytes()),
        (exit, text),
        "{}, room {room:?}",
        asked.words
    );
    Ok(())
}

/// Compares a run with its text, which comes in pieces, and its exit, over a sink that grows.
pub(crate) fn check_joined(
    rt: &(impl Abort + AllocGlobal),
    asked: &Asked,
    text: &[&str],
    exit: Exit,
) -> Result<(), Fail> {
    let whole = joined(rt.alloc(), text)?;
    check(rt, asked, None, &whole, exit)
}
