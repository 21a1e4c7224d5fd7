//! The exit of a run as a number of `include/pmu.h`.

ghost use Rattle.std.specs.Prelude.{◌≡◌, ◌≢◌};

use pm_base::Exit;
use pm_handle::answers::{DONE, NO_MEMORY, NO_ROOM};

/// The number of an exit of a run. It is 1 for bad words, a bad object and a bad text, which no run has.
pub fn number_of(exit: Exit) -> u32
    ensures done { result ≡ 0 → exit ≡ Exit.Done }
    ensures line { result ≡ 3 → exit ≡ Exit.BadLine }
    ensures unread { result ≡ 4 → exit ≡ Exit.ReadFault }
    ensures large { result ≡ 7 → exit ≡ Exit.TooLarge }
    ensures read { result ≢ 2 }
{
    match exit {
        Exit::Done => DONE,
        Exit::Usage | Exit::BadObject | Exit::BadText => 1,
        Exit::BadLine => 3,
        Exit::ReadFault => 4,
        Exit::WriteFault => NO_ROOM,
        Exit::Memory => NO_MEMORY,
        Exit::TooLarge => 7,
    }
}
