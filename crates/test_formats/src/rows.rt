//! The assertion on tables, and a box for a large value.

use pm_base::NoMemory;
use std::alloc::Global;
use std::process::Abort;

/// Fails the test if a table has a wrong row; `wrong` is the index of the first one. Most tests assert only here: a
/// loop that returns an index costs far less to prove than one that asserts.
pub(crate) fn all_right(rt: &impl Abort, wrong: Option<usize>) {
    assert_eq!(rt; wrong, None);
}

/// Puts a large value into a box. Its holder then drops one box at each exit, and not each field of the value.
/// Without enough memory the value is dropped here, where its type is generic: that costs less to prove.
pub(crate) fn boxed<T: Drop>(alloc: Global, value: T) -> Result<Box<T>, NoMemory> {
    Box::new(alloc, value).map_err(|_| NoMemory)
}
