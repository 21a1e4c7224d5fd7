//! The callbacks, by which masters are told what they didn't ask for (UG1200, callbacks of the power
//! management API).

ghost use Rattle.std.specs.Prelude.{◌≡◌};
ghost use Rattle.pm_ipi.specs.Callbacks as spec;

/// A master is asked to suspend: the reason, the latency, the state and the timeout.
pub const INIT_SUSPEND: u32 = 30;
/// A call is acknowledged, or a request to suspend has ended: the node, the status and the operating
/// point.
pub const ACKNOWLEDGE: u32 = 31;
/// Something happened to a node of which the master asked to be told: the node, the event and the
/// operating point.
pub const NOTIFY: u32 = 32;
/// The reason of a suspend: another master requests it.
pub const REASON_MASTER: u32 = 201;

/// The words of a callback: its number, and then its arguments. Arguments that a callback doesn't have
/// are 0.
pub fn callback_words(id: u32, args: [u32; 4]) -> [u32; 5]
    ensures { result ≡ spec.callback_words id args }
{
    [id, args[0], args[1], args[2], args[3]]
}
