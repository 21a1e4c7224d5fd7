//! The comparisons of a run with its text and exit.

use super::running::{run, run_with};
use pm_base::Exit;
use pm_device::ModelDevice;
use pm_io::MemSink;
use std::process::Abort;
use std::test::Fail;
use test_fixtures::{Asked, model, node};

/// Compares a run over a sink with this room, and a device that doesn't fail, with its text and exit.
pub(crate) fn check(
    rt: &(impl Abort + AllocGlobal),
    asked: &Asked,
    room: Option<u32>,
    text: &[u8],
    exit: Exit,
) -> Result<(), Fail> {
    let mut out = MemSink::new(rt.alloc(), room)?;
    let found = run(rt.alloc(), asked, &mut out)?;
    assert_eq!(rt;
        (found, out.bytes()),
        (exit, text),
        "{}, room {room:?}",
        asked.words
    );
    Ok(())
}

/// Fails the test unless each node of the chip is at 0.
fn check_still(rt: &impl Abort, device: &ModelDevice) {
    for number in 1..70 {
        assert_eq!(rt; device.value(node(number)), 0, "{number}");
    }
}

/// A run in which no device gets a command, whatever its text.
pub(crate) fn check_uncommanded(
    rt: &(impl Abort + AllocGlobal),
    asked: &Asked,
) -> Result<(), Fail> {
    let mut out = MemSink::new(rt.alloc(), None)?;
    let mut device = model(rt.alloc())?;
    run_with(rt.alloc(), asked, &mut out, &mut *device)?;
    check_still(rt, &device);
    Ok(())
}
