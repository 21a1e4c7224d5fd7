//! What the next line of a script comes to.

ghost use Rattle.pm_reader.specs.declared.reader.Taken.TheVariants.{Line};
ghost use Rattle.pm_reader.specs.Meant.{ComesTo};

use crate::reader::Taken;
use pm_base::Event;
use pm_io::StopReason;
use pm_script::{LineFault, read_line};

/// What the next line of a script comes to.
#[derive(Clone, Copy, Debug, PartialEq, Eq)]
pub(crate) enum Meant {
    /// It has a meaning, and its event is left.
    Event,
    /// It has none: its first fault.
    Bad(LineFault),
    /// There is no further line.
    Over(StopReason),
}

/// What an answer of a reader comes to, with the line that it gave. The event of the line is left.
pub(crate) fn meant_of(taken: Taken, line: &[u8], event: &mut Event) -> Meant
    ensures { ComesTo taken line.now result event.new }
{
    match taken {
        Taken::Line => meant_by(line, event),
        Taken::Long => Meant::Bad(LineFault::Long),
        Taken::End => Meant::Over(StopReason::End),
        Taken::Over => Meant::Over(StopReason::Limit),
        Taken::Fault => Meant::Over(StopReason::Failure),
    }
}

/// What a line comes to. Its event is left.
pub(crate) fn meant_by(line: &[u8], event: &mut Event) -> Meant
    ensures { ComesTo Line line.now result event.new }
{
    match read_line(line, event) {
        Ok(()) => Meant::Event,
        Err(cause) => Meant::Bad(cause),
    }
}
