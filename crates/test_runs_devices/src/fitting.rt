//! The fit of a device to the topology of a file.

use super::running::run_with;
use pm_base::{Command, Exit};
use pm_device::{Device, ModelDevice};
use pm_io::MemSink;
use std::process::Abort;
use std::test::Fail;
use test_fixtures::{Asked, SMALL, SMALL_TOPOLOGY, model, node};

/// A row: words, and which of the nodes 11 (of the chip alone) and 100 (of the topology alone) the device has after
/// their run.
static CASES: [(&str, bool, bool); 3] = [
    ("replay obj script topo", false, true),
    ("reach obj 1 topo", true, false),
    ("isolate obj script 1 topo", true, false),
];

/// Whether a device has a node after a run of these words.
fn check_has(rt: &impl Abort, device: &mut ModelDevice, words: &str, number: u32, has: bool) {
    let taken = device.command(Command {
        unit: node(number),
        value: 1,
    });
    assert_eq!(rt; taken.is_ok(), has, "{words}, node {number}");
}

/// A run that ends with Done and leaves a device that has these nodes.
fn check_fitted(
    rt: &(impl Abort + AllocGlobal),
    asked: &Asked,
    of_chip: bool,
    of_topology: bool,
) -> Result<(), Fail> {
    let mut device = model(rt.alloc())?;
    let mut out = MemSink::new(rt.alloc(), None)?;
    let exit = run_with(rt.alloc(), asked, &mut out, &mut *device)?;
    assert_eq!(rt; exit, Exit::Done);
    check_has(rt, &mut device, asked.words, 11, of_chip);
    check_has(rt, &mut device, asked.words, 100, of_topology);
    Ok(())
}

/// `replay` fits the device to the topology that its words name; no other words do.
#[test]
fn a_device_is_fitted_by_a_replay_alone(rt: HostRuntime) -> Result<(), Fail> {
    for (words, of_chip, of_topology) in CASES {
        let asked = Asked {
            words,
            object: SMALL,
            script: b"ipi 1 21\n",
            failing: &[],
            topology: SMALL_TOPOLOGY.as_bytes(),
        };
        check_fitted(&rt, &asked, of_chip, of_topology)?;
    }
    Ok(())
}
