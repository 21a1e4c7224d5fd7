//! PM_GET_API_VERSION (UG1200).

ghost use Rattle.std.specs.Prelude.{◌≡◌};
ghost use Rattle.pm_calls.specs.Verdict.{verdict_of};
ghost use Rattle.pm_calls.specs.calls.GetApiVersion.{get_api_version};

use crate::verdict::Verdict;

/// Version 1.1 of the interface: the major number in the upper half of the word.
const API_VERSION: u32 = 0x1_0001;

/// Tells the version of the interface.
pub fn serve(verdict: &mut Verdict)
    ensures { verdict.new ≡ verdict_of get_api_version }
{
    verdict.tell([API_VERSION, 0, 0])
}
