//! The header of an object.

ghost use Rattle.pm_object.specs.Reading.{GivesAt, header};

use crate::object::{DecodeError, ObjectCause};
use crate::records::read_records;
use crate::words::{Words, fault};
use pm_base::List;
use std::alloc::Global;

/// How many sections follow, and the header's words after its first three.
#[derive(Debug, Drop)]
pub struct Header {
    pub sections: u32,
    pub extra: List<u32>,
}

/// Reads the header: the number of words that follow in it, the number of sections, the type of the
/// object, which is 1, and any further words.
#[tactic(auto, unfolding(crate::specs::Reading::header))]
pub fn read_header(alloc: Global, words: &mut Words) -> Result<Header, DecodeError>
    ensures { GivesAt words.new result (header words.old) }
{
    let front = words.place();
    let more = words.next()?;
    if more < 2 {
        return Err(fault(ObjectCause::HeaderShort, front));
    }
    let sections = words.next()?;
    let place = words.place();
    let kind = words.next()?;
    let extra = read_records(alloc, more - 2, words)?;
    if kind != 1 {
        return Err(fault(ObjectCause::BadType, place));
    }
    Ok(Header { sections, extra })
}
