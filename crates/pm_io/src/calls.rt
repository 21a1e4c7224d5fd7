//! The calls of a source of inputs. They exist only in proofs: a log takes no memory, and its methods
//! do nothing at run time.

ghost use Rattle.std.specs.Prelude.{◌≡◌, List, [], ◌∷◌, ◌++◌};
ghost use Rattle.std.specs.Borrow.{ftrue};
ghost use Rattle.pm_io.specs.Calls.{Call};

use std::marker::Model;

/// A call with its answer: a name was begun under a number, or could not be; bytes were read under a
/// number, or the read failed.
#[derive(Clone, Copy, Drop)]
pub enum Entry<'a> {
    Begun(&'a str, u32),
    Unbegun(&'a str),
    Took(u32, &'a [u8]),
    Stuck(u32),
}

/// The calls since a source was new, in their order.
#[derive(Drop)]
pub struct CallLog {
    pub ghost calls: { List Call },
}

impl Model for CallLog {
    ghost also_owns = { λ _. ftrue };
}

impl CallLog {
    ghost use Rattle.pm_io.specs.Logged.{call_of};

    /// The log of a new source.
    pub fn new() -> CallLog
        ensures { result.calls ≡ [] }
    {
        CallLog {}
    }

    /// The log with one call more.
    pub fn then(&self, _entry: &Entry<'_>) -> CallLog
        ensures { result.calls ≡ self.now.calls ++ call_of _entry.now ∷ [] }
    {
        CallLog {}
    }
}
