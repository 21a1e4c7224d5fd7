//! The assertions of these tests.

use std::fmt::Debug;
use std::process::Abort;

/// Fails the test if a table has a wrong row; `wrong` is the index of the first one. Most tests assert only here: a
/// loop that returns an index costs far less to prove than one that asserts.
pub(crate) fn all_right(rt: &impl Abort, wrong: Option<usize>) {
    assert_eq!(rt; wrong, None);
}

/// Fails the test if two values of any type aren't equal: the one that was found, and the one that is expected.
pub(crate) fn same<T: PartialEq + Debug + Drop>(rt: &impl Abort, found: T, wanted: T) {
    assert_eq!(rt; found, wanted);
}
