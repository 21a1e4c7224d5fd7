//! What serves the messages of a range of API words.

ghost use Rattle.std.specs.Prelude.{◌≡◌};
ghost use Rattle.pm_base.specs.declared.events.Message.{Message};
ghost use Rattle.pm_ipi.specs.declared.responses.Response.{Response};

use pm_base::Message;
use pm_ipi::Response;

/// Serves messages. Its meaning says what it answers to a message: that depends on what it holds and on the
/// message alone.
pub trait Responder: Drop {
    ghost says: { Self → Message → Response };

    /// The response to a message, exactly as the meaning says.
    fn serve(&self, message: &Message) -> Response
        ensures { result ≡ says self.now message.now };
}

/// A boxed responder says what the one inside says.
impl Responder for Box<dyn Responder> {
    ghost says = { λ held. (Responder-box held).says held.value };

    /// Answers as the handler in the box does.
    fn serve(&self, message: &Message) -> Response {
        (**self).serve(message)
    }
}

/// Answers status 0 and the first three arguments.
#[derive(Drop)]
pub struct Echo;

impl Responder for Echo {
    ghost use Rattle.pm_modules.specs.Responders.{echoed};

    ghost says = { λ _. echoed };

    /// Answers 0 and the first three arguments.
    fn serve(&self, message: &Message) -> Response {
        let [first, second, third, ..] = message.args;
        Response {
            status: 0,
            words: [first, second, third],
        }
    }
}

/// Answers status 0, and of the first argument the bits that are in the mask.
#[derive(Drop)]
pub struct Masked {
    pub mask: u32,
}

impl Responder for Masked {
    ghost use Rattle.pm_modules.specs.Responders.{masked};

    ghost says = { λ responder. masked responder.mask };

    /// Answers 0 and the bits of the first argument that the mask has.
    fn serve(&self, message: &Message) -> Response {
        Response {
            status: 0,
            words: [message.args[0] & self.mask, 0, 0],
        }
    }
}
