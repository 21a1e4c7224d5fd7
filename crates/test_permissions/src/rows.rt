//! The assertions on tables and values, and a box for a large value.

ghost use Rattle.std.specs.Prelude.{◌≡◌, IfOk};

use pm_base::NoMemory;
use std::alloc::Global;
use std::fmt::Debug;
use std::process::Abort;

/// Fails the test if a table has a wrong row; `wrong` is the index of the first one. Most tests assert only here: a
/// loop that returns an index costs far less to prove than one that asserts.
pub(crate) fn all_right(rt: &impl Abort, wrong: Option<usize>) {
    assert_eq!(rt; wrong, None);
}

/// Fails the test if two values of any type aren't equal: the one that was found, and the one that is expected.
pub(crate) fn same<T: PartialEq + Debug + Drop>(rt: &impl Abort, found: T, wanted: T) {
    assert_eq!(rt; found, wanted);
}

/// Puts a large value into a box. Its holder then drops one box at each exit, and not each field of the value.
/// Without enough memory the value is dropped here, where its type is generic: that costs less to prove.
pub(crate) fn boxed<T: Drop>(alloc: Global, value: T) -> Result<Box<T>, NoMemory>
    ensures { IfOk result (λ held. held.value ≡ value) }
{
    Box::new(alloc, value).map_err(|_| NoMemory)
}
