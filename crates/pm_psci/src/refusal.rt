//! Which calls are refused.

ghost use Rattle.std.specs.Prelude.{◌≡◌};
ghost use Rattle.pm_psci.specs.Refusal.{are_valid, refusal};

use crate::calls::{Function, Smc, decode_function};
use crate::targets::{is_target, target_at};
use pm_topology::Topology;

/// No function has the number (Arm DEN0022, return codes).
pub(crate) const NOT_SUPPORTED: i32 = -1;
/// An argument is outside its range.
pub(crate) const INVALID_PARAMETERS: i32 = -2;
/// The caller may not do it.
pub(crate) const DENIED: i32 = -3;

/// What a call is answered that sends no message: `DENIED` if the caller is no processor of master 1, else
/// `NOT_SUPPORTED` if no function has the number, else `INVALID_PARAMETERS` if an argument is outside its
/// range.
pub(crate) fn refusal(t: &Topology, smc: &Smc) -> Option<i32>
    ensures { result ≡ refusal t.now smc.now }
{
    if !is_target(t, smc.proc) {
        return Some(DENIED);
    }
    let function = decode_function(smc);
    if matches!(function, Function::Unknown) {
        return Some(NOT_SUPPORTED);
    }
    if !are_valid(t, &function) {
        return Some(INVALID_PARAMETERS);
    }
    None
}

/// Whether the arguments are within their ranges: the target is one of master 1's processors, the entry is even,
/// and the level is 0.
fn are_valid(t: &Topology, function: &Function) -> bool
    ensures { result ≡ are_valid t.now function.now }
{
    match *function {
        Function::CpuOn { target, entry } => target_at(t, target).is_some() && entry % 2 == 0,
        Function::AffinityInfo { target, level } => target_at(t, target).is_some() && level == 0,
        _ => true,
    }
}
