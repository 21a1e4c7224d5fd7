//! One file of the inputs in memory, and how it is read.

ghost use Rattle.std.specs.Prelude.{◌≡◌, ◌+◌, ◌^◌, ◌<◌, ◌↔◌, min, [], length, take, Some, IsNone, IfOk, IfSome};
ghost use Rattle.pm_io.specs.Inputs.{rest, Advances};
ghost use Rattle.pm_io.specs.MemInputs.{is_named, stop_of, reach_of, input_in};

use pm_base::NoMemory;
use std::alloc::Global;
use std::marker::Model;

/// A file, its name, and the least byte at which a read of it fails.
#[derive(Debug, Drop)]
pub(crate) struct StoredFile {
    name: String,
    content: Vec<u8>,
    fails_at: Option<u32>,
}

impl Model for StoredFile {
    ghost use Rattle.std.specs.Prelude.{string_bytes};
    ghost use Rattle.pm_io.specs.MemInputs.{NamedFile};

    ghost Value = { NamedFile };

    ghost view = { λ stored. record {
      name = string_bytes stored.name;
      file = record { bytes = stored.content.items; fails_at = stored.fails_at };
    } };
}

impl StoredFile {
    /// A file in memory, which fails at a byte if one is given.
    pub(crate) fn new(
        alloc: Global,
        name: &str,
        content: &[u8],
        fails_at: Option<u32>,
    ) -> Result<StoredFile, NoMemory>
        ensures { IfOk result (λ stored. stored ≡ record {
          name = name.now;
          file = record { bytes = content.now; fails_at = fails_at };
        }) }
    {
        let name = String::from_str(alloc, name).map_err(|_| NoMemory)?;
        let content = Vec::from_slice(alloc, content).map_err(|_| NoMemory)?;
        Ok(StoredFile {
            name,
            content,
            fails_at,
        })
    }

    /// Whether it has this name.
    pub(crate) fn is_named(&self, name: &str) -> bool
        ensures { result ≡ is_named name.now self.now }
    {
        self.name.as_str() == name
    }

    /// Copies the bytes from `place` on into the front of `buf`, and answers how many. `None` comes
    /// where a read fails that begins there.
    pub(crate) fn read_at(&self, place: usize, buf: &mut [u8]) -> Option<usize>
        ensures failed { IsNone result ↔ (self.now.file.fails_at ≡ Some place) }
        ensures count { IfSome result (λ count. count ≡ min (length buf.new) (reach_of self.now.file place)) }
        ensures end { IfSome result (λ count.
            0 < length buf.new → count ≡ 0 ↔ (rest (input_in (Some self.now) place) ≡ [])) }
        ensures read { IfSome result (λ count. Advances
            (input_in (Some self.now) place) (input_in (Some self.now) (place + count)) (take count buf.new)) }
        ensures fits { IfSome result (λ count. place + count < 2 ^ 64) }
    {
        if self.fails_at.is_some_and(|at| at as usize == place) {
            return None;
        }
        let stop = stop_of(self.fails_at, self.content.len(), place);
        if stop <= place {
            return Some(0);
        }
        Some(copy_front(&self.content[place..stop], buf))
    }
}

/// The place up to which a read may go: `end`, or the failing byte if that comes first.
fn stop_of(fails_at: Option<u32>, end: usize, place: usize) -> usize
    ensures { result ≡ stop_of fails_at end place }
{
    match fails_at {
        Some(at) if place < at as usize => end.min(at as usize),
        _ => end,
    }
}

/// Copies as many bytes as there are and fit.
fn copy_front(from: &[u8], into: &mut [u8]) -> usize
    ensures count { result ≡ min (length into.new) (length from.now) }
    ensures front { take result into.new ≡ take result from.now }
{
    let count = into.len().min(from.len());
    into[..count].copy_from_slice(&from[..count]);
    count
}
