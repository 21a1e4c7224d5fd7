//! A writer of the host, with what it took.

ghost use Rattle.std.specs.Prelude.{◌≡◌, ◌⊎◌, ◌<◌, ◌≤◌, ℕ, [], true, false, length, take, unwrap_or, None, Some, IfSome};
ghost use Rattle.pm_host.specs.Written.{Hands};

use pm_io::{CallLog, Entry};
use std::io::Write;
use std::marker::Model;

/// How the handing on of bytes ended.
#[derive(Clone, Copy, Debug, PartialEq, Eq)]
pub(crate) enum Handed {
    /// The writer took all bytes.
    All,
    /// It took 0 of those that were left.
    Stalled,
    /// It failed.
    Failed,
}

/// A writer of std. Its writes are logged as the reads of an input are, under the number 0; the log takes no memory.
///
/// Contracts see the bytes that it took, whether a write failed or took 0, and the bytes that it holds, if it shows them.
#[derive(Drop)]
pub(crate) struct LoggedWriter<W: Write + Drop> {
    writer: W,
    writes: CallLog,
}

impl<W: Write + Drop> Model for LoggedWriter<W> {
    ghost use Rattle.pm_host.specs.Written.{Written, written_of};

    ghost Value = { Written };

    ghost view = { λ logged. written_of logged.writes.calls (W.contents logged.writer) };
}

impl<W: Write + Drop> LoggedWriter<W> {
    /// A writer, none of whose writes was logged.
    pub(crate) fn new(writer: W) -> Self
        ensures { result ≡ record { bytes = []; broken = false; held = W.contents writer } }
    {
        LoggedWriter {
            writer,
            writes: CallLog::new(),
        }
    }

    /// Writes first bytes of a piece, and answers how many. None if the writer failed.
    pub(crate) fn write(&mut self, piece: &[u8]) -> Option<usize>
        requires some { 0 < length piece.now }
        ensures bound { IfSome result (λ count. count ≤ length piece.now) }
        ensures hands { Hands (take (unwrap_or result 0) piece.now) self.old self.new }
        ensures broke { (result ≡ None) ⊎ (result ≡ Some 0) → self.new.broken ≡ true }
    {
        match self.writer.write(piece) {
            Ok(count) => {
                self.writes = self.writes.then(&Entry::Took(0, &piece[..count]));
                Some(count)
            }
            Err(_) => {
                self.writes = self.writes.then(&Entry::Stuck(0));
                None
            }
        }
    }

    /// Writes bytes as far as the writer takes them, and answers how many it took.
    pub(crate) fn write_on(&mut self, bytes: &[u8]) -> (usize, Handed)
        ensures count { result.0 ≤ length bytes.now }
        ensures whole { result.1 ≡ Handed.All → result.0 ≡ length bytes.now }
        ensures hands { Hands (take result.0 bytes.now) self.old self.new }
        ensures broke { (result.1 ≡ Handed.All) ⊎ (self.new.broken ≡ true) }
    {
        let mut count = 0;
        while count < bytes.len() {
            match self.write(&bytes[count..]) {
                Some(0) => return (count, Handed::Stalled),
                Some(more) => count += more,
                None => return (count, Handed::Failed),
            }
        }
        (count, Handed::All)
    }
}
