//! Lists of records.

ghost use Rattle.std.specs.Prelude.{◌≡◌, ◌==◌, ℕ, []};
ghost use Rattle.std.specs.Prelude.{List as Sequence};
ghost use Rattle.std.specs.List.{list_any};
ghost use Rattle.pm_object.specs.Reading.{Cursor, GivesAt, Step, counted_records, own_key, records, word};

use crate::object::{DecodeError, ObjectCause};
use crate::words::{Words, fault};
use pm_base::List;
use std::alloc::Global;

/// A record of a list, which is read in view of those before it.
pub trait Record: Sized {
    ghost one: { Sequence Self → Cursor → Step Self };

    /// Reads a record after the earlier ones.
    fn read(alloc: Global, earlier: &[Self], words: &mut Words) -> Result<Self, DecodeError>
        ensures { GivesAt words.new result (one earlier.now words.old) };
}

/// A record that no other of its list has the key of.
pub trait Keyed {
    ghost key_of: { Self → ℕ };

    /// The node, line or subtype that the record is about.
    fn key(&self) -> u32
        ensures { result ≡ key_of self.now };
}

impl Record for u32 {
    ghost one = { λ _ c. word c };

    /// Reads a word as it is.
    fn read(_alloc: Global, _earlier: &[u32], words: &mut Words) -> Result<u32, DecodeError> {
        words.next()
    }
}

/// Whether an earlier record has the key.
pub fn has_key<T: Keyed>(earlier: &[T], key: u32) -> bool
    ensures { result ≡ list_any (λ r. T.key_of r == key) earlier.now }
{
    earlier.iter().any(|record| record.key() == key)
}

/// Reads the key of a record, which no earlier one of its list has.
#[tactic(auto, unfolding(crate::specs::Reading::own_key))]
pub fn read_key<T: Keyed>(earlier: &[T], words: &mut Words) -> Result<u32, DecodeError>
    ensures { GivesAt words.new result (own_key T.key_of earlier.now words.old) }
{
    let place = words.place();
    let key = words.next()?;
    if has_key(earlier, key) {
        return Err(fault(ObjectCause::RepeatedNode, place));
    }
    Ok(key)
}

/// Reads so many records. Memory is taken for each as it is read, and none for a count.
pub fn read_records<T: Record + Drop>(
    alloc: Global,
    count: u32,
    words: &mut Words,
) -> Result<List<T>, DecodeError>
    ensures { GivesAt words.new result (records T.one count [] words.old) }
{
    let mut list = List::new(alloc);
    for _ in 0..count {
        list.push(T::read(alloc, list.as_slice(), words)?)?;
    }
    Ok(list)
}

/// Reads the number of records, and then each of them.
#[tactic(auto, unfolding(crate::specs::Reading::counted_records))]
pub fn read_list<T: Record + Drop>(alloc: Global, words: &mut Words) -> Result<List<T>, DecodeError>
    ensures { GivesAt words.new result (counted_records T.one words.old) }
{
    let count = words.next()?;
    read_records(alloc, count, words)
}
