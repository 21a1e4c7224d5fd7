//! The words of an object, one by one.

ghost use Rattle.std.specs.Prelude.{◌≡◌, ◌==◌, ◌≤◌, ◌*◌, ◌+◌, length};
ghost use Rattle.pm_object.specs.Reading.{GivesAt, word, words};

use crate::object::{DecodeError, ObjectCause, ObjectFault};
use byteorder::{ByteOrder, LittleEndian};
use std::marker::Model;

/// The answer for a thing that is wrong at a place.
pub fn fault(cause: ObjectCause, offset: u32) -> DecodeError
    ensures { result ≡ DecodeError.Bad (record { cause = cause; offset = offset }) }
{
    DecodeError::Bad(ObjectFault { cause, offset })
}

/// A place among the words of an object, and the words from there on.
#[derive(Drop)]
pub struct Words<'a> {
    bytes: &'a [u8],
    place: u32,
}

impl<'a> Model for Words<'a> {
    ghost use Rattle.std.specs.Prelude.{◌≤◌, ◌*◌, ◌+◌, length};
    ghost use Rattle.pm_object.specs.Reading.{Cursor, words};

    ghost Value = { Cursor };

    ghost view = { λ w. record { place = w.place; left = words w.bytes.now } };

    ghost invariant = { λ w. 4 * w.place + length w.bytes.now ≤ 16384 };
}

impl<'a> Words<'a> {
    /// The words of at most 16,384 bytes, from the front.
    pub fn new(bytes: &'a [u8]) -> Self
        requires { length bytes.now ≤ 16384 }
        ensures { result ≡ record { place = 0; left = words bytes.now } }
    {
        Words { bytes, place: 0 }
    }

    /// How many words were read.
    pub fn place(&self) -> u32
        ensures { result ≡ self.now.place }
    {
        self.place
    }

    /// Whether every word was read.
    pub fn is_empty(&self) -> bool
        ensures { result ≡ (length self.now.left == 0) }
    {
        self.bytes.len() < 4
    }

    /// Reads a word. `Truncated` if none is left.
    pub fn next(&mut self) -> Result<u32, DecodeError>
        ensures { GivesAt self.new result (word self.old) }
    {
        if self.bytes.len() < 4 {
            return Err(fault(ObjectCause::Truncated, self.place));
        }
        let (front, rest) = self.bytes.split_at(4);
        self.bytes = rest;
        self.place += 1;
        Ok(LittleEndian::read_u32(front))
    }
}
