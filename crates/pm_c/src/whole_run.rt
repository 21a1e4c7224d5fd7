//! A whole run in memory, for `pmu_replay`.

ghost use Rattle.std.specs.Prelude.{◌≡◌, ◌≤◌, [], take, length, Ok};
ghost use Rattle.pm_object.specs.declared.object.Object.{Object};
ghost use Rattle.pm_object.specs.Grammar.{IsObject, Reads};
ghost use Rattle.pm_c.specs.WholeRun.{WasRun, WasRunOver, exit_due};

use crate::exits::number_of;
use pm_base::{Exit, NoMemory};
use pm_chip::zynqmp;
use pm_device::{Device, ModelDevice};
use pm_handle::answers::{BAD_OBJECT, NO_MEMORY, NO_ROOM};
use pm_handle::buffer::copy;
use pm_io::{MemSink, OneInput};
use pm_modules::{Echo, ModulesOf};
use pm_object::{DecodeError, Object, decode};
use pm_replay::replay;
use pm_tasks::{Counter, TasksOf};
use pm_trace::{Fault, refuse};
use std::alloc::Global;

/// Runs a script over a configuration object, both given as bytes, with the topology of the chip and a new device in
/// memory, without modules and timed tasks. The text of the run goes to the front of `text`; `written` is the number
/// of its bytes.
///
/// Returns 0 (`DONE`) if `text` has the whole text of the run; 2 (`BAD_OBJECT`) if the bytes are no object; 3 if a
/// line of the script can't be read; 7 if the script is too large; 6 (`NO_MEMORY`) for want of memory; and 5
/// (`NO_ROOM`) if the lines of the run don't fit, and then as much as fits is written. With 2, 3 and 7 the text ends
/// with a fault line, which is cut off if it doesn't fit.
pub fn run_in_memory(
    alloc: Global,
    object: &[u8],
    script: &[u8],
    text: &mut [u8],
    written: &mut usize,
) -> u32
    ensures done { result ≡ 0 → WasRun ⟦<ModelDevice as Device>⟧ object.now script.now (take written.new text.new) }
    ensures bad { result ≡ 2 → (o : Object) → Reads object.now o → ⊥ }
    ensures line { result ≡ 3 → exit_due script.now ≡ Exit.BadLine }
    ensures unread { result ≡ 4 → exit_due script.now ≡ Exit.ReadFault }
    ensures large { result ≡ 7 → exit_due script.now ≡ Exit.TooLarge }
    ensures within { written.new ≤ length text.new }
{
    let Ok(mut out) = MemSink::new(alloc, Some(room_of(text.len()))) else {
        *written = 0;
        return NO_MEMORY;
    };
    let code = run(alloc, object, script, &mut out);
    let (count, whole) = copy(out.bytes(), text);
    *written = count;
    if whole { code } else { NO_ROOM }
}

/// The room of a sink for a text of so many bytes.
fn room_of(len: usize) -> u32 {
    len.min(u32::MAX as usize) as u32
}

/// Reads the object and runs the script over it. Returns the number for C of the exit, or of the fault of the object.
fn run(alloc: Global, object: &[u8], script: &[u8], out: &mut MemSink) -> u32
    requires empty { out.old.bytes ≡ [] }
    ensures done { result ≡ 0 → WasRun ⟦<ModelDevice as Device>⟧ object.now script.now out.new.bytes }
    ensures bad { result ≡ 2 → (o : Object) → Reads object.now o → ⊥ }
    ensures line { result ≡ 3 → exit_due script.now ≡ Exit.BadLine }
    ensures unread { result ≡ 4 → exit_due script.now ≡ Exit.ReadFault }
    ensures large { result ≡ 7 → exit_due script.now ≡ Exit.TooLarge }
{
    match decode(alloc, object) {
        Ok(object) => match run_over(alloc, object, script, out) {
            Ok(exit) => number_of(exit),
            Err(NoMemory) => NO_MEMORY,
        },
        Err(DecodeError::Bad(fault)) => {
            let _ = refuse(Fault::Object(fault), out);
            BAD_OBJECT
        }
        Err(DecodeError::Memory(_)) => NO_MEMORY,
    }
}

/// Runs the script over an object. Fails with `NoMemory` if there is not enough memory to begin.
fn run_over(
    alloc: Global,
    object: Object,
    script: &[u8],
    out: &mut MemSink,
) -> Result<Exit, NoMemory>
    requires object { IsObject object }
    requires empty { out.old.bytes ≡ [] }
    ensures done { result ≡ Ok Exit.Done → WasRunOver ⟦<ModelDevice as Device>⟧ object script.now out.new.bytes }
    ensures line { result ≡ Ok Exit.BadLine → exit_due script.now ≡ Exit.BadLine }
    ensures unread { result ≡ Ok Exit.ReadFault → exit_due script.now ≡ Exit.ReadFault }
    ensures large { result ≡ Ok Exit.TooLarge → exit_due script.now ≡ Exit.TooLarge }
{
    let topology = zynqmp(alloc)?;
    let mut device = ModelDevice::new(alloc, &topology)?;
    let mut inputs = OneInput::new(alloc, script)?;
    let modules = ModulesOf::<Echo>::new(alloc)?;
    let mut tasks = TasksOf::<Counter>::new(alloc, 0)?;
    Ok(replay(
        alloc,
        object,
        topology,
        &mut inputs,
        "script",
        out,
        &mut device,
        &modules,
        &mut tasks,
    ))
}
