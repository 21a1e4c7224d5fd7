//! A law of the exits of commands.

ghost use Rattle.pm_trace.specs.Exits.{ExitsSay};

use pm_io::Sink;

/// What each exit of a command promises about its text and the sink. Done promises that all was written and no write
/// failed, and WriteFault that one failed. Usage, ReadFault and Memory come only from these faults. Any exit but
/// WriteFault is that of the command's fault, or Done without one.
pub fn exits_say<O: Sink>()
    ensures { ExitsSay O.Sink }
{}
