//! The boxes of the message interface: each master has one, into which it puts a message that is served later.

ghost use Rattle.std.specs.Prelude.{◌≡◌, ◌<◌, IfOk, length};
ghost use Rattle.pm_ipi.specs.Mail.{all_empty, box_at, emptied, is_empty, posted};

use pm_base::{Message, NoMemory};
use std::alloc::Global;
use std::marker::Model;

/// The boxes of the masters by their places, each empty or with one message. Contracts see the list of what they
/// hold.
#[derive(Debug, Drop)]
pub struct Mail {
    boxes: Vec<Option<Message>>,
}

impl Model for Mail {
    ghost use Rattle.std.specs.Prelude.{List, Option};
    ghost use Rattle.pm_base.specs.declared.events.Message.{Message};

    ghost Value = { List (Option Message) };

    ghost view = { λ mail. mail.boxes.items };
}

impl Mail {
    /// A box for each of this many masters, all empty. No later call takes memory.
    ///
    /// # Errors
    ///
    /// `NoMemory` if there is not enough memory.
    pub fn load(alloc: Global, masters: usize) -> Result<Mail, NoMemory>
        ensures { IfOk result (λ mail. mail ≡ all_empty masters) }
    {
        let boxes = empty_boxes(alloc, masters)?;
        Ok(Mail { boxes })
    }

    /// Puts a message into the box of the master at a place: false if that has a message already, and then nothing
    /// changes.
    pub fn post(&mut self, m: usize, message: Message) -> bool
        requires { m < length self.old }
        ensures put { result ≡ is_empty m self.old }
        ensures boxes { self.new ≡ posted m message self.old }
    {
        if self.boxes[m].is_some() {
            return false;
        }
        self.boxes[m] = Some(message);
        true
    }

    /// Takes the message out of the box of the master at a place: none if the box is empty.
    pub fn take(&mut self, m: usize) -> Option<Message>
        requires { m < length self.old }
        ensures taken { result ≡ box_at m self.old }
        ensures boxes { self.new ≡ emptied m self.old }
    {
        let message = self.boxes[m];
        self.boxes[m] = None;
        message
    }
}

/// An empty box for each master.
fn empty_boxes(alloc: Global, masters: usize) -> Result<Vec<Option<Message>>, NoMemory>
    ensures { IfOk result (λ boxes. boxes.items ≡ all_empty masters) }
{
    vec![in alloc; None; masters].map_err(|_| NoMemory)
}
