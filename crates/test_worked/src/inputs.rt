//! Rows of failing inputs and sinks, and of a line that is too long.

use crate::checks::{check, check_over};
use pm_base::Exit;
use std::process::Abort;
use std::test::Fail;
use test_fixtures::{
    Asked, LABORATORY, LABORATORY_LOADED, LABORATORY_SETTLED, joined, model, replay_of,
};

#[test]
fn a_script_fails_behind_its_first_line(rt: HostRuntime) -> Result<(), Fail> {
    let asked = Asked {
        failing: &[(1, 9)],
        ..replay_of(LABORATORY, b"ipi 1 21\n")
    };
    let text = joined(
        rt.alloc(),
        &[LABORATORY_LOADED, LABORATORY_SETTLED, "fault read\n"],
    )?;
    check(&rt, &asked, &text, Exit::ReadFault)
}

#[test]
fn a_sink_fails_at_its_sixth_byte(rt: HostRuntime) -> Result<(), Fail> {
    let asked = replay_of(LABORATORY, b"ipi 1 21\n");
    let mut device = model(rt.alloc())?;
    check_over(
        &rt,
        &asked,
        Some(5),
        b"0 set",
        Exit::WriteFault,
        &mut *device,
    )
}

/// A line of 255 bytes, and one of 256.
#[test]
fn a_line_is_one_byte_too_long(rt: HostRuntime) -> Result<(), Fail> {
    let spaces = [b' '; 249];
    let mut script = Vec::from_slice(rt.alloc(), b"ipi 1 1")?;
    script.extend_from_slice(spaces.get(..248).ok_or("248 spaces")?)?;
    script.extend_from_slice(b"\nipi 1 1")?;
    script.extend_from_slice(&spaces)?;
    let text = "1 reply 1 0 65537 0 0\nfault line 2 4\n";
    let whole = joined(rt.alloc(), &[LABORATORY_LOADED, text])?;
    check(&rt, &replay_of(LABORATORY, &script), &whole, Exit::BadLine)
}
