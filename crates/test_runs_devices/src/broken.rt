//! Runs over a device with one broken node, at each height of the forest.

ghost use Rattle.std.specs.Prelude.{◌≡◌, IfOk};
ghost use Rattle.pm_base.specs.declared.names.Unit.{Unit};
ghost use Rattle.pm_device.specs.Model.{moment_of};

use super::checks::check_with;
use super::devices::check_values;
use pm_base::{Exit, NoMemory, NodeId};
use pm_device::{Device, ModelDevice};
use std::alloc::Global;
use std::process::Abort;
use std::test::Fail;
use test_fixtures::{DOMAINS, model, replay_of};

/// A row: a broken node, a script, its text, and the values of the device at the end.
static BROKEN: [(u32, &str, &str, &[(u32, u32)]); 7] = [
    // LPD, the parent of the RPU's domain: LPD itself, its processors, the memory in that domain and the peripheral
    // below LPD are skipped. FPD isn't touched
    (
        62,
        "boot 7 0
ipi 7 13 15 1 0 2
ipi 7 13 28 1 0 2
ipi 7 13 33 1 0 2
ipi 7 3 15
ipi 7 14 15
",
        "0 fail 62 0 1
0 run 8 0
1 fail 62 0 1
1 run 7 0
2 fail 62 0 1
2 reply 7 2000 0 0 0
3 set 10 0 1
3 fail 62 0 1
3 set 28 0 1
3 reply 7 0 0 0 0
4 fail 62 0 1
4 reply 7 2000 0 0 0
5 fail 62 0 1
5 reply 7 0 2 1 1
6 fail 62 0 1
6 reply 7 0 0 0 0
end power 6 1 0
end proc 7 1 0
end proc 8 1 0
end power 10 1 1
end slave 28 1 1
end slave 33 1 0
end power 62 1 0
",
        &[
            (62, 0),
            (6, 0),
            (7, 0),
            (8, 0),
            (15, 0),
            (33, 0),
            (10, 1),
            (28, 1),
        ],
    ),
    // the RPU's domain: its processors and the memory in it are skipped; LPD and its other children aren't
    (
        6,
        "boot 7 0
ipi 7 13 15 2 0 2
ipi 7 13 33 1 0 2
",
        "0 set 62 0 1
0 fail 6 0 1
0 run 8 0
1 fail 6 0 1
1 run 7 0
2 fail 6 0 1
2 reply 7 2000 0 0 0
3 fail 6 0 1
3 set 33 0 1
3 reply 7 0 0 0 0
end power 6 1 0
end proc 7 1 0
end proc 8 1 0
end slave 15 1 0
end slave 33 1 1
end power 62 1 1
",
        &[(62, 1), (6, 0), (7, 0), (15, 0), (33, 1)],
    ),
    // a processor: the book has it active, and it is heard
    (
        7,
        "boot 7 0
ipi 7 13 33 1 0 2
",
        "0 set 62 0 1
0 set 6 0 1
0 set 8 0 1
0 run 8 0
1 fail 7 0 1
1 run 7 0
2 fail 7 0 1
2 set 33 0 1
2 reply 7 0 0 0 0
end power 6 1 1
end proc 7 1 0
end proc 8 1 1
end slave 33 1 1
end power 62 1 1
",
        &[(62, 1), (6, 1), (7, 0), (8, 1), (33, 1)],
    ),
    // FPD, a domain without a parent: its slaves are skipped, except for states that need no power
    (
        10,
        "boot 7 0
ipi 7 13 28 1 0 2
ipi 7 13 55 2 0 2
ipi 7 15 55 1 0 3
ipi 7 14 28
ipi 7 15 55 2 0 2
ipi 7 13 63 1 0 2
",
        "0 set 62 0 1
0 set 6 0 1
0 set 8 0 1
0 run 8 0
1 set 7 0 1
1 run 7 0
2 fail 10 0 1
2 reply 7 2000 0 0 0
3 fail 10 0 1
3 set 55 0 1
3 reply 7 0 0 0 0
4 fail 10 0 1
4 call 7 31 55 2000 2 0
5 fail 10 0 1
5 reply 7 0 0 0 0
6 reply 7 0 0 0 0
7 set 9 0 1
7 set 63 0 1
7 reply 7 0 0 0 0
end power 6 1 1
end proc 7 1 1
end proc 8 1 1
end power 9 1 1
end slave 55 1 1
end power 62 1 1
end slave 63 1 1
",
        &[(62, 1), (10, 0), (28, 0), (55, 1), (9, 1), (63, 1)],
    ),
    // a slave: its domain goes up for it, and down when it isn't required any more
    (
        28,
        "boot 7 0
ipi 7 13 28 1 0 2

ipi 7 3 28
ipi 7 14 28
",
        "0 set 62 0 1
0 set 6 0 1
0 set 8 0 1
0 run 8 0
1 set 7 0 1
1 run 7 0
2 set 10 0 1
2 fail 28 0 1
2 reply 7 2000 0 0 0
3 fail 28 0 1
4 fail 28 0 1
4 reply 7 0 1 1 1
5 set 10 1 0
5 reply 7 0 0 0 0
end power 6 1 1
end proc 7 1 1
end proc 8 1 1
end power 62 1 1
",
        &[(62, 1), (10, 0), (28, 0)],
    ),
    // a slave gets a command for another state than before, from the last state that it took
    (
        55,
        "boot 7 0
ipi 7 13 55 2 0 2
ipi 7 15 55 1 0 2
ipi 7 15 55 3 0 2",
        "0 set 62 0 1
0 set 6 0 1
0 set 8 0 1
0 run 8 0
1 set 7 0 1
1 run 7 0
2 fail 55 0 1
2 reply 7 2000 0 0 0
3 set 10 0 1
3 fail 55 0 2
3 reply 7 2000 0 0 0
4 fail 55 0 2
4 reply 7 0 0 0 0
end power 6 1 1
end proc 7 1 1
end proc 8 1 1
end power 10 1 1
end slave 55 2 0
end power 62 1 1
",
        &[(62, 1), (10, 1), (55, 0)],
    ),
    // a node that the chip lacks: nothing fails
    (
        70,
        "boot 7 0
ipi 7 13 28 1 0 2
ipi 7 3 70",
        "0 set 62 0 1
0 set 6 0 1
0 set 8 0 1
0 run 8 0
1 set 7 0 1
1 run 7 0
2 set 10 0 1
2 set 28 0 1
2 reply 7 0 0 0 0
3 reply 7 2003 0 0 0
end power 6 1 1
end proc 7 1 1
end proc 8 1 1
end power 10 1 1
end slave 28 1 1
end power 62 1 1
",
        &[(62, 1), (10, 1), (28, 1), (70, 0)],
    ),
];

/// A device with all units at 0 and one broken node.
fn broken_device(alloc: Global, broken: u32) -> Result<Box<ModelDevice>, NoMemory>
    ensures { IfOk result (λ device. (unit : Unit) → (moment_of device.value).value unit ≡ 0) }
{
    let mut device = model(alloc)?;
    device.rig(NodeId(broken), true);
    Ok(device)
}

/// A run over a device with this broken node.
fn check_broken(
    rt: &(impl Abort + AllocGlobal),
    broken: u32,
    script: &str,
    text: &str,
    values: &[(u32, u32)],
) -> Result<(), Fail> {
    let mut device = broken_device(rt.alloc(), broken)?;
    let asked = replay_of(DOMAINS, script.as_bytes());
    check_with(rt, &asked, text.as_bytes(), Exit::Done, &mut *device)?;
    check_values(rt, &device, values);
    Ok(())
}

#[test]
fn a_broken_node_at_each_height(rt: HostRuntime) -> Result<(), Fail> {
    for (broken, script, text, values) in &BROKEN {
        check_broken(&rt, *broken, script, text, values)?;
    }
    Ok(())
}
