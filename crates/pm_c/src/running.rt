//! A whole run in one call.

ghost use Rattle.std.specs.Prelude.{◌≡◌, ◌≤◌, take, length};
ghost use Rattle.pm_object.specs.declared.object.Object.{Object};
ghost use Rattle.pm_object.specs.Grammar.{Reads};
ghost use Rattle.pm_c.specs.WholeRun.{WasRun, exit_due};

use crate::whole_run::run_in_memory;
use pm_base::Exit;
use pm_device::{Device, ModelDevice};
use std::alloc::Global;

/// Runs a script over a configuration object, both given as bytes, with the topology of the chip and a new device in
/// memory, without modules and timed tasks. The text of the run goes to the front of `text`; `written` is the number
/// of its bytes.
///
/// Returns 0 (`DONE`) if `text` has the whole text of the run; 2 (`BAD_OBJECT`) if the bytes are no object; 3 if a
/// line of the script can't be read; 7 if the script is too large; 6 (`NO_MEMORY`) for want of memory; and 5
/// (`NO_ROOM`) if the lines of the run don't fit, and then as much as fits is written. With 2, 3 and 7 the text ends
/// with a fault line, which is cut off if it doesn't fit.
#[unsafe(no_mangle)]
pub extern "C" fn pmu_replay(
    alloc: Global,
    object: &[u8],
    script: &[u8],
    text: &mut [u8],
    written: &mut usize,
) -> u32
    ensures done { result ≡ 0 → WasRun ⟦<ModelDevice as Device>⟧ object.now script.now (take written.new text.new) }
    ensures bad { result ≡ 2 → (o : Object) → Reads object.now o → ⊥ }
    ensures line { result ≡ 3 → exit_due script.now ≡ Exit.BadLine }
    ensures unread { result ≡ 4 → exit_due script.now ≡ Exit.ReadFault }
    ensures large { result ≡ 7 → exit_due script.now ≡ Exit.TooLarge }
    ensures within { written.new ≤ length text.new }
{
    run_in_memory(alloc, object, script, text, written)
}
