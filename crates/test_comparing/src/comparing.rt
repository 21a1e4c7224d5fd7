//! The comparison of a script's run with the run without the messages of a master.

ghost use Rattle.std.specs.List.{list_any};
ghost use Rattle.std.specs.Prelude.{◌==◌, IsTrue};
ghost use Rattle.pm_object.specs.Grammar.{IsObject};

use crate::rows::all_right;
use pm_base::{Exit, NoMemory, NodeId, with};
use pm_io::{MemInputs, MemSink};
use pm_isolate::compare;
use pm_object::{Object, has_key};
use std::alloc::Global;
use std::test::Fail;
use test_books::{SMALL_OBJECT, object_of, small_chip};

/// Master 1, which has the greater mask and may wake 8, and master 8.
const WAKING: &[u32] = &[2, 1, 1, 0x101, 2, 1, 0x200, 100, 0, 0x1, 8, 0x1, 100, 0, 0];

/// Master 8 asks itself to suspend, and then 1 asks it. Without the messages of 8 the second request is accepted, and
/// times out. Its callback, which waits for 1, is about node 8 as the master, and not as the power node.
const ASKED: &str = "ipi 1 21
boot 108 0
ipi 8 6 8 3 0 0
ipi 1 6 8 3 0 0
ipi 1 11 2 46 1
ipi 1 7 2 0 0 0 0
wfi 2
tick 100
irq 46
";

/// Master 8 is started, and goes to sleep.
const SLEEPING: &str = "ipi 1 21
boot 108 0
ipi 8 7 108 0 0 0 0
wfi 108
";

/// Both masters put a request into their boxes. That of 1 is served first, since its mask is less.
const WAITING: &str = "ipi 1 21
boot 108 0
post 8 6 8 3 0 0
post 1 6 8 3 0 0
serve
";

/// Master 8 goes to sleep by a message from its box, beside one of 1.
const SLEEPING_LATER: &str = "ipi 1 21
boot 108 0
post 8 7 108 0 0 0 0
post 8 1
post 1 13 46 1 0 2
serve
wfi 108
";

/// Master 8 starts its suspend, and master 1 wakes it: both by one line, and by two lines.
const WOKEN: &str = "boot 108 0
post 8 7 108 0 0 0 0
post 1 10 108 0 0 2
serve
";

const WOKEN_LATER: &str = "boot 108 0
post 8 7 108 0 0 0 0
serve
post 1 10 108 0 0 2
serve
";

/// A case: the object, the master that is left out, the script, and the whole text.
type Case = (&'static [u32], u32, &'static str, &'static str);

/// In the reach of master 8 the number 8 comes once, as that of the master.
static CASES: [Case; 8] = [
    (
        SMALL_OBJECT,
        8,
        ASKED,
        "master 8 self 8
power 100 above 8
steps 9
",
    ),
    (
        SMALL_OBJECT,
        8,
        SLEEPING,
        "master 8 self 8
power 100 above 8
differ proc 108
steps 4
",
    ),
    (
        SMALL_OBJECT,
        1,
        ASKED,
        "master 1 self 1
master 8 suspend 1 8
slave 46 use 1
power 100 above 1
differ proc 2
steps 9
",
    ),
    (
        SMALL_OBJECT,
        8,
        WAITING,
        "master 8 self 8
power 100 above 8
steps 5
",
    ),
    (
        SMALL_OBJECT,
        8,
        SLEEPING_LATER,
        "master 8 self 8
power 100 above 8
differ proc 108
steps 7
",
    ),
    // after the line the processor has the mode that it had before it
    (
        WAKING,
        8,
        WOKEN,
        "master 8 self 8
power 100 above 8
steps 4
",
    ),
    (
        WAKING,
        8,
        WOKEN_LATER,
        "master 8 self 8
power 100 above 8
differ proc 108
steps 5
",
    ),
    // without the message of 1 it stays suspending
    (
        WAKING,
        1,
        WOKEN,
        "master 1 self 1
master 8 wake 1 8
power 100 above 1
differ proc 108
steps 4
",
    ),
];

/// The input `script` with these bytes.
fn inputs_of(alloc: Global, script: &str) -> Result<MemInputs, Fail> {
    let mut inputs = MemInputs::new(alloc, &[])?;
    let added = inputs.add("script", script.as_bytes());
    let (inputs, ()) = with(inputs, added)?;
    Ok(inputs)
}

/// Compares the two runs of the script over an object that has the master.
fn compared_over(
    alloc: Global,
    object: Object,
    m: NodeId,
    inputs: &mut MemInputs,
    out: &mut MemSink,
) -> Result<Exit, NoMemory>
    requires formed { IsObject object }
    requires named { IsTrue (list_any (λ r. r.node == m.0) object.masters) }
{
    match small_chip(alloc) {
        Ok(chip) => Ok(compare(alloc, object, chip, m, inputs, "script", out)),
        Err(error) => {
            drop(object);
            Err(error)
        }
    }
}

/// Compares the two runs of a script over the object of these words; None if the number isn't that of one of its
/// masters.
fn compared(
    alloc: Global,
    words: &[u32],
    m: u32,
    inputs: &mut MemInputs,
    out: &mut MemSink,
) -> Result<Option<Exit>, Fail> {
    let object = object_of(alloc, words)?;
    if has_key(object.masters.as_slice(), m) {
        let exit = compared_over(alloc, Box::into_inner(object), NodeId(m), inputs, out)?;
        Ok(Some(exit))
    } else {
        Ok(None)
    }
}

/// Whether the runs of a script are compared to the end, with this text.
fn is_told(alloc: Global, words: &[u32], m: u32, script: &str, text: &str) -> Result<bool, Fail> {
    let (mut inputs, mut out) = with(inputs_of(alloc, script)?, MemSink::new(alloc, None))?;
    let exit = compared(alloc, words, m, &mut inputs, &mut out);
    let is_written = out.bytes() == text.as_bytes();
    drop(inputs);
    drop(out);
    Ok(exit? == Some(Exit::Done) && is_written)
}

/// The index of the first case that isn't compared to the end, or has another text.
fn wrong_case(alloc: Global) -> Result<Option<usize>, Fail> {
    for (place, (words, m, script, text)) in CASES.iter().enumerate() {
        if !is_told(alloc, words, *m, script, text)? {
            return Ok(Some(place));
        }
    }
    Ok(None)
}

#[test]
fn a_number_of_a_master_and_of_a_power_node(rt: HostRuntime) -> Result<(), Fail> {
    all_right(&rt, wrong_case(rt.alloc())?);
    Ok(())
}
