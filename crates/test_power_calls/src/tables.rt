//! The assertion on tables, and the calls in the tables.

use pm_base::NodeId;
use pm_psci::Smc;
use std::process::Abort;

/// Fails the test if a table has a wrong row; `wrong` is the index of the first one.
pub(crate) fn all_right(rt: &impl Abort, wrong: Option<usize>) {
    assert_eq!(rt; wrong, None);
}

/// A call: the processor, the function and the arguments.
pub(crate) type Words = (u32, u32, [u64; 3]);

pub(crate) fn smc_of(words: &Words) -> Smc {
    let (proc, function, args) = *words;
    Smc {
        proc: NodeId(proc),
        function,
        args,
    }
}
