//! A command whose text is one piece.

ghost use Rattle.std.specs.Prelude.{◌∷◌, [], None};
ghost use Rattle.pm_trace.specs.Report.{Reports};

use pm_base::{Exit, Failed};
use pm_io::{Sink, write_all};

/// Writes the whole text of a command in one piece, and returns the exit.
pub(crate) fn write_whole<O: Sink>(text: &[u8], out: &mut O) -> Exit
    ensures { Reports O.Sink (record { body = text.now ∷ []; fault = None }) out.old out.new result }
{
    match write_all(out, text) {
        Ok(()) => Exit::Done,
        Err(Failed) => Exit::WriteFault,
    }
}
