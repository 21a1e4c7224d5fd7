//! Reading an object.

ghost use Rattle.std.specs.Prelude.{◌≡◌, IfOk, Ok, Err, Some};
ghost use Rattle.pm_object.specs.declared.object.ObjectFault.{ObjectFault};
ghost use Rattle.pm_object.specs.FirstFault.{IsFirstFault};
ghost use Rattle.pm_object.specs.Grammar.{Reads};
ghost use Rattle.pm_object.specs.Reading.{Gives, IsFatal, first_fault, object, reading};

use crate::header::read_header;
use crate::object::{DecodeError, MOST_WORDS, Object, ObjectCause};
use crate::sections::read_sections;
use crate::words::{Words, fault};
use std::alloc::Global;

/// The most bytes that an object has, in words.
const LONGEST: usize = MOST_WORDS as usize;

/// The object of all words.
#[tactic(auto, unfolding(crate::specs::Reading::object))]
fn read_object(alloc: Global, words: &mut Words) -> Result<Object, DecodeError>
    ensures { Gives result (object words.old) }
{
    let header = read_header(alloc, words)?;
    if header.sections == 0 {
        return Err(fault(ObjectCause::NoMasters, words.place()));
    }
    let mut object = Object::unset(alloc, header.extra);
    read_sections(alloc, header.sections, &mut object, words)?;
    if !words.is_empty() {
        return Err(fault(ObjectCause::Trailing, words.place()));
    }
    Ok(object)
}

/// The object of bytes, apart from `decode` so that one proof alone unfolds what is read.
#[tactic(auto, unfolding(crate::specs::Reading::reading))]
fn read_bytes(alloc: Global, bytes: &[u8]) -> Result<Object, DecodeError>
    ensures { Gives result (reading bytes.now) }
{
    if bytes.len() > 4 * LONGEST {
        return Err(fault(ObjectCause::TooLong, LONGEST as u32));
    }
    if bytes.len() % 4 != 0 {
        return Err(fault(ObjectCause::Length, (bytes.len() / 4) as u32));
    }
    read_object(alloc, &mut Words::new(bytes))
}

/// Reads a configuration object, in its binary form (UG1137, configuration object).
///
/// `Bad` is the first thing that is wrong, in the order of the words, and its place.
pub fn decode(alloc: Global, bytes: &[u8]) -> Result<Object, DecodeError>
    // The bytes spell what is read.
    ensures found { IfOk result (λ o. Reads bytes.now o) }
    // What the bytes spell is read.
    ensures only { (o : Object) → Reads bytes.now o → Gives result (Ok o) }
    // The words before the fault's own keep the rules of the grammar, and its own word breaks the one that is told.
    ensures first { (f : ObjectFault) → result ≡ Err (DecodeError.Bad f) → IsFirstFault bytes.now f }
    // What is wrong is the first fault.
    ensures bad { (f : ObjectFault) → result ≡ Err (DecodeError.Bad f) → first_fault bytes.now ≡ Some f }
    // Where something is wrong, the bytes spell nothing, nor do others that agree with them up to the
    // end of the fault's word.
    ensures unreadable { (f : ObjectFault) → result ≡ Err (DecodeError.Bad f) → (o : Object) → Reads bytes.now o → ⊥ }
    ensures fatal { (f : ObjectFault) → result ≡ Err (DecodeError.Bad f) → IsFatal bytes.now f }
    // The answer is what reading word by word gives: the object, or the first fault.
    ensures exact { Gives result (reading bytes.now) }
{
    read_bytes(alloc, bytes)
}
