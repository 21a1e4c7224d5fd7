//! Writing the lines of the last step, for `pmu_text`.

ghost use Rattle.std.specs.Prelude.{◌≡◌, ◌≤◌, [], ◌∷◌, None, IfOk, take, length};
ghost use Rattle.pm_controller.specs.Controls.{text_of};
ghost use Rattle.pm_slot.specs.Held.{Holds, inside};
ghost use Rattle.pm_handle.specs.Handle.{IsOneOf, IsOver, IsWaiting};

use pm_controller::Controller;
use pm_handle::answers::{CLOSED, COMMAND_LEFT, DONE, NO_MEMORY, NO_ROOM};
use pm_handle::buffer::copy;
use pm_slot::{Held, Slot};
use pm_trace::TextLine;
use std::alloc::{AllocError, Global};

/// Writes the lines of the last step to the front of `text`, each with this number in front. `written` is the number
/// of bytes that were written: 0 unless the call returns `DONE` or `NO_ROOM`. The controller stays as it is.
///
/// Returns `DONE` if all lines were written; `NO_ROOM` if they don't fit, and then as much as fits is written;
/// `COMMAND_LEFT` if the step isn't over, since a command waits for its answer; `NO_MEMORY` for want of memory; and
/// `CLOSED` if the handle holds no controller.
pub fn write_text(
    alloc: Global,
    pmu: &mut Slot,
    number: u32,
    text: &mut [u8],
    written: &mut usize,
) -> u32
    ensures kept { inside pmu.new.held ≡ inside pmu.old.held }
    ensures done { result ≡ 0 → Holds (λ c. take written.new text.new ≡ text_of number c) pmu.old.held }
    ensures over { result ≡ 0 → Holds IsOver pmu.old.held }
    ensures left { result ≡ 16 → Holds IsWaiting pmu.old.held }
    ensures closed { result ≡ 19 → inside pmu.old.held ≡ None }
    ensures codes { IsOneOf (0 ∷ 5 ∷ 6 ∷ 16 ∷ 19 ∷ []) result }
    ensures within { written.new ≤ length text.new }
{
    *written = 0;
    let Some(held) = pmu.take(alloc) else {
        return NO_MEMORY;
    };
    let code = write_held(alloc, &held, number, text, written);
    pmu.put(held);
    code
}

/// As `write_text`, for the content of a handle. Returns `DONE`; `NO_ROOM`; `COMMAND_LEFT`; `NO_MEMORY`; and `CLOSED`
/// without a controller.
fn write_held(alloc: Global, held: &Held, number: u32, text: &mut [u8], written: &mut usize) -> u32
    requires { written.old ≤ length text.old }
    ensures done { result ≡ 0 → Holds (λ c. take written.new text.new ≡ text_of number c) held.now }
    ensures over { result ≡ 0 → Holds IsOver held.now }
    ensures left { result ≡ 16 → Holds IsWaiting held.now }
    ensures closed { result ≡ 19 → inside held.now ≡ None }
    ensures codes { IsOneOf (0 ∷ 5 ∷ 6 ∷ 16 ∷ 19 ∷ []) result }
    ensures within { written.new ≤ length text.new }
{
    let Some(controller) = &held.controller else {
        return CLOSED;
    };
    if controller.next_command().is_some() {
        return COMMAND_LEFT;
    }
    let Ok(lines) = lines_of(alloc, controller, number) else {
        return NO_MEMORY;
    };
    let (count, whole) = copy(&lines, text);
    *written = count;
    if whole { DONE } else { NO_ROOM }
}

/// The lines of the last step of a controller, each with this number in front. Fails if there is not enough memory.
fn lines_of(alloc: Global, controller: &Controller, number: u32) -> Result<Vec<u8>, AllocError>
    ensures { IfOk result (λ lines. lines.items ≡ text_of number controller.now) }
{
    let mut lines = Vec::new(alloc);
    let mut line = TextLine::new();
    for k in 0..controller.lines() {
        controller.line(number, k, &mut line);
        lines.extend_from_slice(line.as_slice())?;
    }
    Ok(lines)
}
