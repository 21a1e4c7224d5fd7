//! A sink in memory.

ghost use Rattle.std.specs.Prelude.{◌≡◌, ◌<◌, ◌≤◌, ◌↔◌, ◌++◌, ⊤, [], length, take, IsErr, IfOk, IfSome, MatchResult};
ghost use Rattle.pm_base.specs.Faults.{HasCause, raised};
ghost use Rattle.pm_io.specs.Sink.{Appended, CountsStalls};
ghost use Rattle.pm_io.specs.MemSink.{moment_of, count_taken};

use crate::sink::Sink;
use pm_base::{Failed, NoMemory};
use std::alloc::Global;
use std::marker::Model;

/// A sink in memory, with room for so many bytes or one that grows.
///
/// Contracts see the bytes that it holds, its room, and how many writes have failed.
#[derive(Debug, Drop)]
pub struct MemSink {
    held: Vec<u8>,
    room: Option<u32>,
    faults: u64,
}

impl Model for MemSink {
    ghost use Rattle.std.specs.Prelude.{vec_len, vec_capacity};
    ghost use Rattle.pm_io.specs.MemSink.{Stored, FitsRoom};

    ghost Value = { Stored };

    ghost view = { λ sink. record { bytes = sink.held.items; room = sink.room; faults = sink.faults } };

    ghost invariant = { λ sink. FitsRoom sink.room (vec_len sink.held) (vec_capacity sink.held) };
}

impl MemSink {
    /// An empty sink. With `Some(at)` it reserves `at` bytes, and its writes take no memory. With
    /// `None` it grows.
    pub fn new(alloc: Global, at: Option<u32>) -> Result<MemSink, NoMemory>
        ensures { IfOk result (λ sink. sink ≡ record { bytes = []; room = at; faults = 0 }) }
    {
        let held = match at {
            Some(at) => Vec::with_capacity(alloc, at as usize).map_err(|_| NoMemory)?,
            None => Vec::new(alloc),
        };
        Ok(MemSink {
            held,
            room: at,
            faults: 0,
        })
    }

    /// The bytes that it holds, which are no more than its room.
    pub fn bytes(&self) -> &[u8]
        ensures bytes { result.now ≡ self.now.bytes }
        ensures within { IfSome self.now.room (λ at. length self.now.bytes ≤ at) }
    {
        self.held.as_slice()
    }
}

impl Sink for MemSink {
    ghost observable = { ⊤ };

    ghost state = { moment_of };

    /// Takes bytes until its room is full. From then on each write of a piece that isn't empty
    /// fails. A sink that grows takes all of a piece, and fails only for want of memory.
    fn write(&mut self, piece: &[u8]) -> Result<usize, Failed>
        ensures bound { IfOk result (λ count. count ≤ length piece.now) }
        ensures cause { HasCause self.old.faults self.new.faults result }
        ensures calm { IfOk result (λ _. self.new.faults ≡ self.old.faults) }
        ensures stalls { CountsStalls piece.now (moment_of self.old) (moment_of self.new) result }
        ensures appended { MatchResult result
            (λ count. Appended ⊤ (take count piece.now) (moment_of self.old) (moment_of self.new))
            (λ _. Appended ⊤ [] (moment_of self.old) (moment_of self.new)) }

        // Exactly how much it takes, and exactly when a sink with room for so many bytes fails.
        ensures count { IfOk result (λ count.
            count ≡ count_taken self.old.room (length self.old.bytes) (length piece.now)) }
        ensures full { IfSome self.old.room (λ at.
            IsErr result ↔ ((at ≤ length self.old.bytes) × (0 < length piece.now))) }
        ensures left { MatchResult result
            (λ count. self.new ≡ record self.old { bytes = self.old.bytes ++ take count piece.now })
            (λ _. self.new ≡ record self.old { faults = raised self.old.faults }) }
    {
        let count = count_taken(self.room, self.held.len(), piece.len());
        let is_full = count == 0 && !piece.is_empty();
        match self.held.extend_from_slice(&piece[..count]) {
            Ok(()) if !is_full => Ok(count),
            _ => {
                self.faults = self.faults.saturating_add(1);
                Err(Failed)
            }
        }
    }
}

/// How many bytes of a piece a sink takes that holds some: as many as it has room for.
fn count_taken(room: Option<u32>, held: usize, piece: usize) -> usize
    ensures { result ≡ count_taken room held piece }
{
    match room {
        Some(room) => piece.min((room as usize).saturating_sub(held)),
        None => piece,
    }
}
