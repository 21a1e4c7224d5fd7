//! The verdict on a message: dropped, refused, or accepted with the effects of its call.

ghost use Rattle.std.specs.Prelude.{◌≡◌, Some, None};
ghost use Rattle.pm_ipi.specs.Responses.{refusal};
ghost use Rattle.pm_calls.specs.declared.verdict.Verdict.TheVariants as verdict;
ghost use Rattle.pm_calls.specs.Verdict.{asked_by, aborted_by, pulse_of, pulsing, response_of, saying, says_of, told};

use pm_base::{LineId, NodeId};
use pm_ipi::Response;
use pm_notify::NodeEvent;
use pm_procs::Pending;

/// A request to a master to suspend: the target's place, the request as it is kept, and the three words of callback
/// 30 (UG1200): how long the target may take to be back, the state that is asked for, and its timeout.
#[derive(Clone, Copy, Debug, PartialEq, Eq)]
pub struct Asked {
    pub target: usize,
    pub request: Pending,
    pub latency: u32,
    pub state: u32,
    pub timeout: u32,
}

/// A notifier that a call sets or removes: the place of its master, the node, the event, and whether it is set.
#[derive(Clone, Copy, Debug, PartialEq, Eq)]
pub struct Notifier {
    pub master: usize,
    pub node: NodeId,
    pub event: NodeEvent,
    pub on: bool,
}

/// What the masters are to be told because of a call: one is asked to suspend, the one at a place aborts its suspend,
/// a notifier is set or removed, all is restarted, or all notifiers are removed.
#[derive(Clone, Copy, Debug, PartialEq, Eq)]
pub enum Say {
    Ask(Asked),
    Abort(usize),
    Register(Notifier),
    Renew,
    Unwatch,
}

/// The effects of an accepted call, besides its changes of the book: the words for its caller, what the masters are
/// told, and the reset line that it pulses.
#[derive(Clone, Copy, Debug, PartialEq, Eq)]
pub struct Effects {
    pub words: [u32; 3],
    pub says: Option<Say>,
    pub pulse: Option<LineId>,
}

/// The outcome of a message.
#[derive(Clone, Copy, Debug, PartialEq, Eq)]
pub enum Verdict {
    /// The sender isn't heard.
    Dropped,
    /// A check of the call fails; this is the response.
    Refused(Response),
    /// All checks of the call hold; these are its effects.
    Accepted(Effects),
}

impl Verdict {
    /// Refuses the call with this response.
    pub(crate) fn refuse_by(&mut self, response: Response)
        ensures { self.new ≡ verdict.Refused response }
    {
        *self = Verdict::Refused(response);
    }

    /// Refuses the call with this status, and no words.
    pub(crate) fn refuse(&mut self, status: u32)
        ensures { self.new ≡ verdict.Refused (refusal status) }
    {
        *self = Verdict::Refused(Response::refusal(status));
    }

    /// Accepts the call, which tells its caller these words.
    pub(crate) fn tell(&mut self, words: [u32; 3])
        ensures { self.new ≡ verdict.Accepted (told words) }
    {
        *self = Verdict::Accepted(Effects {
            words,
            says: None,
            pulse: None,
        });
    }

    /// Accepts the call, which tells nothing.
    pub(crate) fn finish(&mut self)
        ensures { self.new ≡ verdict.Accepted (saying None) }
    {
        self.tell([0; 3]);
    }

    /// Accepts the call, which has the masters told this.
    pub(crate) fn say(&mut self, say: Say)
        ensures { self.new ≡ verdict.Accepted (saying (Some say)) }
    {
        *self = Verdict::Accepted(Effects {
            words: [0; 3],
            says: Some(say),
            pulse: None,
        });
    }

    /// Accepts the call, which pulses this reset line, if there is one.
    pub(crate) fn pulse_by(&mut self, line: Option<LineId>)
        ensures { self.new ≡ verdict.Accepted (pulsing line) }
    {
        *self = Verdict::Accepted(Effects {
            words: [0; 3],
            says: None,
            pulse: line,
        });
    }

    /// What the masters are told because of the message, if anything.
    pub fn says(&self) -> Option<Say>
        ensures { result ≡ says_of self.now }
    {
        match self {
            Verdict::Accepted(effects) => effects.says,
            Verdict::Dropped | Verdict::Refused(_) => None,
        }
    }

    /// The reset line that the message pulses, if any.
    pub fn pulse(&self) -> Option<LineId>
        ensures { result ≡ pulse_of self.now }
    {
        match self {
            Verdict::Accepted(effects) => effects.pulse,
            Verdict::Dropped | Verdict::Refused(_) => None,
        }
    }

    /// The response that the sender gets at once. None if the message is dropped, or asks a master to suspend: that
    /// is answered when the request ends.
    pub fn response(&self) -> Option<Response>
        ensures { result ≡ response_of self.now }
    {
        match self {
            Verdict::Dropped => None,
            Verdict::Refused(response) => Some(*response),
            Verdict::Accepted(effects) => match effects.says {
                Some(Say::Ask(_)) => None,
                _ => Some(Response::success(effects.words)),
            },
        }
    }
}

/// The request, if a master is asked to suspend.
pub fn asked_by(says: Option<Say>) -> Option<Asked>
    ensures { result ≡ asked_by says }
{
    match says {
        Some(Say::Ask(asked)) => Some(asked),
        _ => None,
    }
}

/// The place of the master that aborts its suspend, if one does.
pub fn aborted_by(says: Option<Say>) -> Option<usize>
    ensures { result ≡ aborted_by says }
{
    match says {
        Some(Say::Abort(m)) => Some(m),
        _ => None,
    }
}
