//! The summary of the run of a generated script.

use pm_gen::summary_of;
use std::test::Fail;

/// A text with lines of each kind. Those of the closing table don't count.
const TEXT: &[u8] =
    b"0 set 10 0 1\n0 set 62 0 1\n0 run 2 0\n1 reply 1 0 0 0 0\n2 drop 8\n3 call 7 31 0 0 0 0\n3 fail 11 0 1\nend proc 2 1 1\nend line 33 1 1\n";

/// Its summary after a script of one line: three lines, with the two that open it.
const SUMMARY: &[u8] = b"lines 3\nset 2\nrun 1\nreply 1\ndrop 1\ncall 1\n";

#[test]
fn lines_are_counted_by_their_second_word(rt: HostRuntime) -> Result<(), Fail> {
    let summary = summary_of(rt.alloc(), 1, TEXT)?;
    assert_eq!(rt; summary.as_slice(), SUMMARY);
    Ok(())
}
