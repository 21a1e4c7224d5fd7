//! A buffer of the caller's.

ghost use Rattle.std.specs.Prelude.{◌≡◌, ◌≤◌, length, take, true};

/// Copies bytes to the front of a buffer, as far as they fit, and answers how many, and whether it was all of them.
pub fn copy(bytes: &[u8], text: &mut [u8]) -> (usize, bool)
    ensures whole { result.1 ≡ true → take result.0 text.new ≡ bytes.now }
    ensures within { result.0 ≤ length text.new }
{
    let count = bytes.len().min(text.len());
    text[..count].copy_from_slice(&bytes[..count]);
    (count, count == bytes.len())
}
