//! What becomes of the mode of a master.

ghost use Rattle.std.specs.Prelude.{◌≡◌, ◌∷◌, []};
ghost use Rattle.pm_values.specs.Along.{both_turns, no_turns};
ghost use Rattle.pm_values.specs.Turns as turns_spec;

use pm_base::Mode;
use pm_procs::{is_awake, same_mode};

/// The changes of the mode of a master from one book to the next: it becomes asleep or off, it goes on in place of
/// suspending, or it becomes off.
#[derive(Clone, Copy, Debug, PartialEq, Eq)]
pub struct Turns {
    pub down: bool,
    pub on: bool,
    pub off: bool,
}

impl Turns {
    /// Nothing becomes of the mode.
    pub fn none() -> Turns
        ensures { result ≡ no_turns }
    {
        Turns {
            down: false,
            on: false,
            off: false,
        }
    }

    /// What becomes of a mode by one change and by a later one.
    pub(crate) fn and(self, later: Turns) -> Turns
        ensures { result ≡ both_turns self later }
    {
        Turns {
            down: self.down || later.down,
            on: self.on || later.on,
            off: self.off || later.off,
        }
    }
}

/// What becomes of a mode where the next one is this.
pub(crate) fn turns_between(before: Mode, after: Mode) -> Turns
    ensures { result ≡ turns_spec.turns_of before (after ∷ []) }
{
    let changed = !same_mode(before, after);
    Turns {
        down: changed && !is_awake(after),
        on: changed && same_mode(before, Mode::Suspending) && same_mode(after, Mode::Active),
        off: changed && same_mode(after, Mode::Off),
    }
}
