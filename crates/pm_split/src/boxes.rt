//! The messages in the boxes of an object's masters.

ghost use Rattle.std.specs.Prelude.{◌≡◌, ◌<◌, ◌+◌, ◌∷◌, [], IfSome, MatchOption, length};
ghost use Rattle.pm_ipi.specs.Mail.{all_empty};
ghost use Rattle.pm_split.specs.Boxes.{box_of, waiting_from, with_bit};

use pm_base::{Event, NodeId};
use pm_ipi::Mail;
use pm_object::Object;

/// The place of a configured master.
pub fn box_of(object: &Object, master: NodeId) -> Option<usize>
    ensures place { result ≡ box_of object.now master }
    ensures within { IfSome result (λ m. m < length object.now.masters) }
{
    let masters = object.masters.as_slice();
    masters.iter().position(|record| record.node == master.0)
}

/// Takes the message of the first master, by rising mask, whose bit in the masks is this one or a later one and who has
/// a message: the bit after its own, and the message as if it were sent now.
#[tactic(auto, using(crate::proofs::WaitingLaw::waiting_end))]
pub fn take_next(object: &Object, boxes: &mut Mail, first: u32) -> Option<(u32, Event)>
    requires { length boxes.old ≡ length object.now.masters }
    ensures taken { MatchOption result
        (waiting_from object.now boxes.old first ≡ [])
        (λ taken. waiting_from object.now boxes.old first ≡ taken.1 ∷ waiting_from object.now boxes.new taken.0) }
    ensures places { length boxes.new ≡ length boxes.old }
{
    for bit in first..32 {
        if let Some(event) = take_from(object, boxes, bit) {
            return Some((bit + 1, event));
        }
    }
    None
}

/// Takes the message of the master with this bit, if it has one.
fn take_from(object: &Object, boxes: &mut Mail, bit: u32) -> Option<Event>
    requires bit { bit < 32 }
    requires places { length boxes.old ≡ length object.now.masters }
    ensures taken { MatchOption result
        ((boxes.new ≡ boxes.old)
        × (waiting_from object.now boxes.old bit ≡ waiting_from object.now boxes.old (bit + 1)))
        (λ event. waiting_from object.now boxes.old bit ≡ event ∷ waiting_from object.now boxes.new (bit + 1)) }
    ensures places { length boxes.new ≡ length boxes.old }
{
    let m = with_bit(object, bit)?;
    let master = NodeId(object.masters.as_slice()[m].node);
    match boxes.take(m) {
        Some(message) => Some(Event::Ipi { master, message }),
        None => None,
    }
}

/// The place of the master whose mask is this bit.
fn with_bit(object: &Object, bit: u32) -> Option<usize>
    requires { bit < 32 }
    ensures place { result ≡ with_bit object.now bit }
    ensures within { IfSome result (λ m. m < length object.now.masters) }
{
    let mask = 1u32 << bit;
    let masters = object.masters.as_slice();
    masters.iter().position(|record| record.mask == mask)
}

/// Empties all boxes of so many masters.
pub fn empty_all(boxes: &mut Mail, masters: usize)
    requires { length boxes.old ≡ masters }
    ensures { boxes.new ≡ all_empty masters }
{
    for m in 0..masters {
        let _message = boxes.take(m);
    }
}
