//! The checks of a call on a clock that look at no tree.

ghost use Rattle.std.specs.Prelude.{◌≡◌};
ghost use Rattle.pm_clock_tree.specs.Calls.{is_change, is_setting};
ghost use Rattle.pm_clock_tree.specs.Served.{asks_state, is_in_range, is_missing, may_change};

use crate::calls::{ClockAct, ClockCall};
use crate::scene::Scene;
use crate::table::{def_of, is_root};
use pm_base::NodeId;

/// Whether an act enables the clock or takes that back, or changes how it runs.
pub(crate) fn is_change(act: ClockAct) -> bool
    ensures { result ≡ is_change act }
{
    !matches!(act, ClockAct::State | ClockAct::Divider | ClockAct::Parent)
}

/// Whether an act changes how a clock runs for all that enable it.
pub(crate) fn is_setting(act: ClockAct) -> bool
    ensures { result ≡ is_setting act }
{
    matches!(act, ClockAct::SetDivider(_) | ClockAct::SetParent(_))
}

/// Whether there is no such clock, or it is a root and the call doesn't ask whether it runs.
pub(crate) fn is_missing(call: &ClockCall) -> bool
    ensures { result ≡ is_missing call.now }
{
    def_of(call.clock).is_none() && !(is_root(call.clock) && asks_state(call.act))
}

/// Whether a call asks if a clock runs: the one call that a root answers.
fn asks_state(act: ClockAct) -> bool
    ensures { result ≡ asks_state act }
{
    matches!(act, ClockAct::State)
}

/// Whether an argument is in its range: a divider is from 1 to 63, and an index is that of a parent.
pub(crate) fn is_in_range(call: &ClockCall) -> bool
    ensures { result ≡ is_in_range call.now }
{
    match call.act {
        ClockAct::SetDivider(divider) => 1 <= divider && divider <= 63,
        ClockAct::SetParent(index) => match def_of(call.clock) {
            Some(def) => def.parent(index).is_some(),
            None => false,
        },
        _ => true,
    }
}

/// Whether the call only asks, or the object in force lets the caller use the clock's slave.
pub(crate) fn may_change<S: Scene>(scene: &S, master: NodeId, call: &ClockCall) -> bool
    ensures { result ≡ may_change (S.seen scene.now) master call.now }
{
    if !is_change(call.act) {
        return true;
    }
    match def_of(call.clock) {
        Some(def) => scene.may_use(master, def.node),
        None => false,
    }
}
