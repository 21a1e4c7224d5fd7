//! The requirements in force on a slave.

ghost use Rattle.std.specs.Prelude.{◌≡◌};
ghost use Rattle.pm_rows.specs.Wanted.{arming_differs, least, both, by_use, by_arming, by_hold, limit_by, required_by, with_row};

use crate::row::Entry;
use pm_base::{Caps, Mode, at_or};

/// What the requirements in force on a slave come to: the capabilities that it must have, and the
/// greatest latency that is allowed, if there is a limit.
#[derive(Clone, Copy, Debug, PartialEq, Eq)]
pub struct Wanted {
    pub caps: Caps,
    pub limit: Option<u32>,
}

/// The least of two limits, of which each may be absent.
pub(crate) fn least(a: Option<u32>, b: Option<u32>) -> Option<u32>
    ensures { result ≡ least a b }
{
    match (a, b) {
        (Some(a), Some(b)) => Some(a.min(b)),
        (None, limit) | (limit, None) => limit,
    }
}

/// The capabilities of both sets.
fn both(a: Caps, b: Caps) -> Caps
    ensures { result ≡ both a b }
{
    Caps(a.0 | b.0)
}

/// Whether what a row requires by its arming may differ in two modes of its master: one of them is sleep.
pub(crate) fn arming_differs(from: Mode, to: Mode) -> bool
    ensures { result ≡ arming_differs from to }
{
    matches!(from, Mode::Asleep) || matches!(to, Mode::Asleep)
}

impl Entry {
    /// What the row wants by its use: what it requires now.
    fn by_use(&self) -> Caps
        ensures { result ≡ by_use self.now }
    {
        if self.row.used { self.row.now } else { Caps(0) }
    }

    /// What the row wants by its arming: WAKEUP while its master is asleep, if the slave has that.
    fn by_arming(&self, mode: Mode) -> Caps
        ensures { result ≡ by_arming mode self.now }
    {
        match (self.row.armed, mode) {
            (Some(_), Mode::Asleep) => Caps(Caps::WAKEUP.0 & self.seed.all.0),
            _ => Caps(0),
        }
    }

    /// What the row wants by a hold: all capabilities of the slave.
    fn by_hold(&self) -> Caps
        ensures { result ≡ by_hold self.now }
    {
        if self.row.hold {
            self.seed.all
        } else {
            Caps(0)
        }
    }

    /// What the row requires of its slave in a mode of its master.
    pub(crate) fn required_by(&self, mode: Mode) -> Caps
        ensures { result ≡ required_by mode self.now }
    {
        both(self.by_use(), both(self.by_arming(mode), self.by_hold()))
    }

    /// The greatest latency that the row allows, if it is used and has one.
    pub(crate) fn limit_by(&self) -> Option<u32>
        ensures { result ≡ limit_by self.now }
    {
        if self.row.used {
            self.row.latency
        } else {
            None
        }
    }
}

/// What is wanted of a slave, and what this row wants of it besides.
pub(crate) fn with_row(slave: usize, modes: &[Mode], wanted: Wanted, entry: &Entry) -> Wanted
    ensures { result ≡ with_row slave modes.now wanted entry.now }
{
    if entry.seed.slave == slave {
        Wanted {
            caps: both(
                wanted.caps,
                entry.required_by(at_or(modes, entry.seed.master, Mode::Off)),
            ),
            limit: least(wanted.limit, entry.limit_by()),
        }
    } else {
        wanted
    }
}
