//! The object of the laboratory, over which a script that was made is run.

ghost use Rattle.std.specs.Prelude.{◌≡◌, IfOk, OnOk, ◌++◌};
ghost use Rattle.pm_object.specs.Grammar.{IsObject, Reads, little_endian};
ghost use Rattle.pm_gen.specs.Laboratory.{lab_words, laboratory};

use pm_base::NoMemory;
use pm_object::{DecodeError, Object, decode};
use std::alloc::Global;

/// Its words: the header, two masters, five slaves, a power node and a reset line.
const WORDS: [u32; 40] = [
    2, 4, 1, //
    0x101, 2, 1, 0x1, 100, 0x100, 0x100, 7, 0x100, 100, 0, 0, //
    0x102, 5, 11, 1, 0x101, 28, 0, 0x101, 33, 0, 0x1, 39, 0, 0x101, 46, 1, 0x101, //
    0x104, 1, 10, 0x100, //
    0x105, 1, 33, 0x1,
];

/// The object of the laboratory.
///
/// # Errors
///
/// `NoMemory` if there is not enough memory.
pub fn lab_object(alloc: Global) -> Result<Object, NoMemory>
    ensures exact { IfOk result (λ object. object ≡ laboratory) }
    ensures reads { IfOk result (Reads (little_endian lab_words)) }
    ensures formed { IfOk result IsObject }
{
    let bytes = bytes_of(alloc, &WORDS)?;
    match decode(alloc, bytes.as_slice()) {
        Ok(object) => Ok(object),
        Err(DecodeError::Memory(error)) => Err(error),
        Err(DecodeError::Bad(_)) => unreachable!(),
    }
}

/// Words as bytes, the lowest byte of each first.
fn bytes_of(alloc: Global, words: &[u32]) -> Result<Vec<u8>, NoMemory>
    ensures { IfOk result (λ bytes. bytes.items ≡ little_endian words.now) }
{
    let mut bytes = Vec::new(alloc);
    for word in words {
        put(&mut bytes, &word.to_le_bytes())?;
    }
    Ok(bytes)
}

/// Puts bytes at the end.
fn put(bytes: &mut Vec<u8>, more: &[u8]) -> Result<(), NoMemory>
    ensures { OnOk result (bytes.new.items ≡ bytes.old.items ++ more.now) }
{
    bytes.extend_from_slice(more).map_err(|_| NoMemory)
}
