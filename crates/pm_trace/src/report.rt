//! The end of a command that is refused.

ghost use Rattle.pm_trace.specs.Report.{Reports, refusal};

use crate::faults::{Fault, exit, write_fault};
use crate::line::TextLine;
use pm_base::Exit;
use pm_io::{Sink, write_all};

/// Writes the line of the fault that stops a command, and returns its exit. The line is tried once; if the sink fails
/// on it the exit stays.
pub fn refuse<O: Sink>(fault: Fault, out: &mut O) -> Exit
    ensures { Reports O.Sink (refusal fault) out.old out.new result }
{
    let mut line = TextLine::new();
    write_fault(fault, &mut line);
    let _ = write_all(out, line.as_slice());
    exit(fault)
}
