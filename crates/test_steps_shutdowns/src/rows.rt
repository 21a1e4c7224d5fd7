//! The assertion of the tests on tables.

use std::process::Abort;

/// Fails the test if a table has a wrong row; `wrong` is the index of the first one. Most tests assert only here: a
/// loop that returns an index costs far less to prove than one that asserts.
pub(crate) fn all_right(rt: &impl Abort, wrong: Option<usize>) {
    assert_eq!(rt; wrong, None);
}
