//! Writing an object.

ghost use Rattle.std.specs.Prelude.{◌≡◌, IfOk};
ghost use Rattle.pm_object.specs.Grammar.{IsObject, Reads, little_endian};

use crate::object::Object;
use crate::spelling::words_of_object;
use pm_base::NoMemory;
use std::alloc::Global;

/// Words as bytes, the lowest byte of each first.
///
/// # Errors
///
/// `NoMemory` if there is not enough memory.
pub fn bytes_of(alloc: Global, words: &[u32]) -> Result<Vec<u8>, NoMemory>
    ensures { IfOk result (λ bytes. bytes.items ≡ little_endian words.now) }
{
    let mut bytes = Vec::new(alloc);
    for word in words {
        bytes
            .extend_from_slice(&word.to_le_bytes())
            .map_err(|_| NoMemory)?;
    }
    Ok(bytes)
}

/// Writes a well formed object in its binary form: the bytes that are read as it.
pub fn encode(alloc: Global, object: &Object) -> Result<Vec<u8>, NoMemory>
    requires { IsObject object.now }
    ensures { IfOk result (λ bytes. Reads bytes.items object.now) }
{
    let words = words_of_object(alloc, object)?;
    bytes_of(alloc, words.as_slice())
}
