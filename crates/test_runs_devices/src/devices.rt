//! Runs over a device that doesn't fail.

use super::checks::check_with;
use pm_base::Exit;
use pm_device::ModelDevice;
use std::process::Abort;
use std::test::Fail;
use test_fixtures::{DOMAINS, model, node, replay_of};

/// A script, its text over a device that doesn't fail, and the device's values at the end.
static FAITHFUL: [(&str, &str, &[(u32, u32)]); 1] = [(
    "boot 7 0
ipi 7 13 28 1 0 2
ipi 7 14 28
",
    "0 set 62 0 1
0 set 6 0 1
0 set 8 0 1
0 run 8 0
1 set 7 0 1
1 run 7 0
2 set 10 0 1
2 set 28 0 1
2 reply 7 0 0 0 0
3 set 28 1 0
3 set 10 1 0
3 reply 7 0 0 0 0
end power 6 1 1
end proc 7 1 1
end proc 8 1 1
end power 62 1 1
",
    &[(62, 1), (7, 1), (10, 0), (28, 0)],
)];

/// The first of these nodes that has another value on a device, and that value.
fn wrong_value(device: &ModelDevice, values: &[(u32, u32)]) -> Option<(u32, u32)> {
    for (number, value) in values {
        let found = device.value(node(*number));
        if found != *value {
            return Some((*number, found));
        }
    }
    None
}

/// Fails the test if a node of a device has another value.
pub(crate) fn check_values(rt: &impl Abort, device: &ModelDevice, values: &[(u32, u32)]) {
    assert_eq!(rt; wrong_value(device, values), None);
}

/// A run over a device that doesn't fail.
fn check_faithful(
    rt: &(impl Abort + AllocGlobal),
    script: &str,
    text: &str,
    values: &[(u32, u32)],
) -> Result<(), Fail> {
    let mut device = model(rt.alloc())?;
    let asked = replay_of(DOMAINS, script.as_bytes());
    check_with(rt, &asked, text.as_bytes(), Exit::Done, &mut *device)?;
    check_values(rt, &device, values);
    Ok(())
}

#[test]
fn a_device_that_does_not_fail_follows_the_run(rt: HostRuntime) -> Result<(), Fail> {
    for (script, text, values) in &FAITHFUL {
        check_faithful(&rt, script, text, values)?;
    }
    Ok(())
}
