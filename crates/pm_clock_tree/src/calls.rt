//! The calls on clocks by their words (UG1200, PM_CLOCK_ENABLE to PM_CLOCK_GETPARENT).

ghost use Rattle.std.specs.Prelude.{◌≡◌};
ghost use Rattle.pm_clock_tree.specs.Calls.{act_of, clock_call};

use pm_base::Message;

/// What a call asks of a clock. Arguments that nothing depends on are left out.
#[derive(Clone, Copy, Debug, PartialEq, Eq)]
pub enum ClockAct {
    /// The caller enables it from now on.
    Enable,
    /// The caller doesn't enable it any more.
    Disable,
    /// Whether it runs: 1 or 0.
    State,
    /// It divides by this from now on.
    SetDivider(u32),
    /// What it divides by.
    Divider,
    /// It takes the parent at this index from now on.
    SetParent(u32),
    /// The index of its parent.
    Parent,
}

/// A call on a clock, which it names by its number.
#[derive(Clone, Copy, Debug, PartialEq, Eq)]
pub struct ClockCall {
    pub clock: u32,
    pub act: ClockAct,
}

/// The call on a clock that a message makes, if it makes one.
pub fn decode_clock_call(message: &Message) -> Option<ClockCall>
    ensures { result ≡ clock_call message.now }
{
    let clock = message.args[0];
    act_of(message).map(|act| ClockCall { clock, act })
}

/// What a message asks of a clock, if its call is one on clocks.
fn act_of(message: &Message) -> Option<ClockAct>
    ensures { result ≡ act_of message.now }
{
    let argument = message.args[1];
    match message.api {
        36 => Some(ClockAct::Enable),
        37 => Some(ClockAct::Disable),
        38 => Some(ClockAct::State),
        39 => Some(ClockAct::SetDivider(argument)),
        40 => Some(ClockAct::Divider),
        43 => Some(ClockAct::SetParent(argument)),
        44 => Some(ClockAct::Parent),
        _ => None,
    }
}
