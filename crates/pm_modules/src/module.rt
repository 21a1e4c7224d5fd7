//! A handler with its range of API words.

ghost use Rattle.std.specs.Prelude.{◌≡◌, ◌≤◌};

use crate::responders::Responder;
use pm_base::Message;
use pm_ipi::Response;

/// A handler with its range of API words. Contracts see the range, and what the handler says.
#[derive(Drop)]
pub struct ModuleOf<H: Drop> {
    first: u32,
    last: u32,
    handler: H,
    ghost from: { 256 ≤ first },
    ghost ordered: { first ≤ last },
    ghost to: { last ≤ 65535 },
}

/// A module whose handler is any that a board brings.
pub type Module = ModuleOf<Box<dyn Responder>>;

impl<H: Responder> ModuleOf<H> {
    ghost use Rattle.pm_modules.specs.Ranges.{has_word, have_common_word};
    ghost use Rattle.pm_modules.specs.Modules.{ranged};

    /// A handler of the words from the first to the last, both included.
    pub fn new(first: u32, last: u32, handler: H) -> ModuleOf<H>
        requires from { 256 ≤ first }
        requires ordered { first ≤ last }
        requires to { last ≤ 65535 }
        ensures { ranged H.Responder result
            ≡ record { first = first; last = last; says = H.says handler } }
    {
        ModuleOf {
            first,
            last,
            handler,
        }
    }

    /// Whether a word is in its range.
    pub(crate) fn has_word(&self, word: u32) -> bool
        ensures { result ≡ has_word word (ranged H.Responder self.now) }
    {
        self.first <= word && word <= self.last
    }

    /// Whether a word is in the ranges of both.
    pub(crate) fn overlaps(&self, other: &ModuleOf<H>) -> bool
        ensures { result ≡ have_common_word (ranged H.Responder self.now)
            (ranged H.Responder other.now) }
    {
        self.first <= other.last && other.first <= self.last
    }

    /// What its handler says.
    pub(crate) fn serve(&self, message: &Message) -> Response
        ensures { result ≡ (ranged H.Responder self.now).says message.now }
    {
        self.handler.serve(message)
    }
}
