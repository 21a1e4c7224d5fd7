//! The comparisons of a run with its text and exit, over a device that fails commands.

use super::running::run_with;
use pm_base::Exit;
use pm_device::ListedDevice;
use pm_io::MemSink;
use std::process::Abort;
use std::test::Fail;
use test_fixtures::{Asked, listed, node};

/// The first of these nodes that has another value on a device, and that value.
fn wrong_listed(device: &ListedDevice, values: &[(u32, u32)]) -> Option<(u32, u32)> {
    for (number, value) in values {
        let found = device.value(node(*number));
        if found != *value {
            return Some((*number, found));
        }
    }
    None
}

/// Fails the test if a run of these words had another exit or another text.
fn judge(rt: &impl Abort, words: &str, found: Exit, exit: Exit, written: &[u8], text: &[u8]) {
    assert_eq!(rt; (found, written), (exit, text), "{words}");
}

/// Fails the test if a node has another value after a run in which these commands fail.
fn check_fails(rt: &impl Abort, failing: &[u32], wrong: Option<(u32, u32)>) {
    assert_eq!(rt; wrong, None, "{failing:?} fail");
}

/// Compares a run with its text and the device's values at the end, over a device that fails the commands with these
/// numbers.
pub(crate) fn check_listed(
    rt: &(impl Abort + AllocGlobal),
    failing: &[u32],
    asked: &Asked,
    text: &str,
    values: &[(u32, u32)],
) -> Result<(), Fail> {
    let mut device = listed(rt.alloc(), failing)?;
    let mut out = MemSink::new(rt.alloc(), None)?;
    let found = run_with(rt.alloc(), asked, &mut out, &mut *device)?;
    judge(
        rt,
        asked.words,
        found,
        Exit::Done,
        out.bytes(),
        text.as_bytes(),
    );
    check_fails(rt, failing, wrong_listed(&device, values));
    Ok(())
}
