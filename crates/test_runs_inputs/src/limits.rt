//! Runs of a script of the greatest size, and of one byte more.

use super::checks::check;
use pm_base::Exit;
use pm_script::SCRIPT_LIMIT;
use std::alloc::{AllocError, Global};
use std::test::Fail;
use test_fixtures::{OBJECT, OBJECT_CLOSED, OBJECT_LOADED, joined, replay_of};

/// A script of the greatest size: comments of 255 bytes with their line feeds.
fn script_of_the_limit(alloc: Global) -> Result<Vec<u8>, AllocError> {
    let mut line = [b' '; 256];
    line[0] = b'#';
    line[255] = b'\n';
    let mut script = Vec::new(alloc);
    for _ in 0..SCRIPT_LIMIT / 256 {
        script.extend_from_slice(&line)?;
    }
    Ok(script)
}

#[test]
fn a_script_of_the_limit(rt: HostRuntime) -> Result<(), Fail> {
    let script = script_of_the_limit(rt.alloc())?;
    let text = joined(rt.alloc(), &[OBJECT_LOADED, OBJECT_CLOSED])?;
    check(&rt, &replay_of(OBJECT, &script), None, &text, Exit::Done)
}

/// One byte more than the limit.
fn longer_script(alloc: Global) -> Result<Vec<u8>, AllocError> {
    let mut script = script_of_the_limit(alloc)?;
    script.push(b'#')?;
    Ok(script)
}

#[test]
fn a_script_of_one_byte_more_than_the_limit(rt: HostRuntime) -> Result<(), Fail> {
    let script = longer_script(rt.alloc())?;
    let text = joined(rt.alloc(), &[OBJECT_LOADED, "fault size\n"])?;
    check(
        &rt,
        &replay_of(OBJECT, &script),
        None,
        &text,
        Exit::TooLarge,
    )
}

/// If the sink fails within the body the exit is WriteFault; if it fails only on the fault line, the exit stays.
#[test]
fn such_a_script_over_a_sink_of_each_side_of_the_body(rt: HostRuntime) -> Result<(), Fail> {
    let script = longer_script(rt.alloc())?;
    let asked = replay_of(OBJECT, &script);
    let body = OBJECT_LOADED.as_bytes();
    let cut = body.get(..85).ok_or("all but the last byte")?;
    check(&rt, &asked, Some(85), cut, Exit::WriteFault)?;
    check(&rt, &asked, Some(86), body, Exit::TooLarge)
}
