//! The standard output of the host, as sink of a run.

ghost use Rattle.std.specs.Prelude.{◌≡◌, ◌≢◌, ◌⊎◌, ◌+◌, ◌++◌, ◌<◌, ◌≤◌, ℕ, ⊤, List, [], None, Some, take, length, unwrap_or, true, false, IfOk, IfSome, MatchResult};
ghost use Rattle.pm_base.specs.Faults.{HasCause};
ghost use Rattle.pm_host.specs.Gathering.{HandsOn, WritesBut, moment_of};
ghost use Rattle.pm_host.specs.Written.{Hands};
ghost use Rattle.pm_io.specs.Sink.{Appended, CountsStalls};

use crate::writer::{Handed, LoggedWriter};
use pm_base::{Exit, Failed, NoMemory};
use pm_io::{CallLog, Entry, Sink};
use std::alloc::Global;
use std::io::Write;
use std::marker::Model;

/// How many bytes a sink gathers before it hands them on.
const ROOM: usize = 65_536;

/// A writer of the host, to which bytes are handed on 64 KiB at a time: pieces are gathered until one has no
/// room beside those before it, and `finish` hands on the rest. What the writer doesn't take is lost, and so is
/// what was gathered behind it; so what is written is a front of all pieces.
///
/// Contracts see the writer, the bytes that are gathered and all that were accepted, how many of the gathered bytes
/// came before the last piece, whether a byte was lost, and how many writes failed and how many took 0.
#[derive(Drop)]
pub struct HostSink<W: Write + Drop> {
    out: LoggedWriter<W>,
    /// The bytes that are gathered are its first ones.
    room: Vec<u8>,
    /// How many bytes are gathered.
    gathered: usize,
    /// How many of the gathered bytes came before the last piece.
    before: usize,
    /// Whether a byte was lost.
    lost: bool,
    faults: u64,
    stalls: u64,
    /// What was accepted, logged as reads under the number 0; it takes no memory.
    accepted: CallLog,
}

impl<W: Write + Drop> Model for HostSink<W> {
    ghost use Rattle.std.specs.Prelude.{take};
    ghost use Rattle.pm_host.specs.Gathering.{Gathering, IsSound};
    ghost use Rattle.pm_io.specs.Given.{given};

    ghost Value = { Gathering };

    ghost view = { λ sink. record {
      out = sink.out;
      pending = take sink.gathered sink.room.items;
      accepted = given 0 sink.accepted.calls;
      before = sink.before;
      lost = sink.lost;
      faults = sink.faults;
      stalls = sink.stalls;
    } };

    ghost invariant = { λ sink. IsSound record {
      out = sink.out;
      pending = take sink.gathered sink.room.items;
      accepted = given 0 sink.accepted.calls;
      before = sink.before;
      lost = sink.lost;
      faults = sink.faults;
      stalls = sink.stalls;
    } };
}

impl<W: Write + Drop> HostSink<W> {
    /// All memory that the sink takes.
    pub fn new(alloc: Global, writer: W) -> Result<Self, NoMemory>
        ensures made { IfOk result (λ sink. sink ≡ record {
          out = record { bytes = []; broken = false; held = W.contents writer };
          pending = [];
          accepted = [];
          before = 0;
          lost = false;
          faults = 0;
          stalls = 0;
        }) }
    {
        let mut room = Vec::with_capacity(alloc, ROOM).map_err(|_| NoMemory)?;
        room.resize(ROOM, 0).map_err(|_| NoMemory)?;
        Ok(HostSink {
            out: LoggedWriter::new(writer),
            room,
            gathered: 0,
            before: 0,
            lost: false,
            faults: 0,
            stalls: 0,
            accepted: CallLog::new(),
        })
    }

    /// Hands on what is left at the end of a run. If that isn't all written, Done becomes WriteFault. Any
    /// other exit does where a byte before the last piece was lost: if the last piece alone was, which is the line
    /// of a fault, the exit of that fault stays.
    pub fn finish(&mut self, exit: Exit) -> Exit
        ensures exit { (result ≡ exit) ⊎ (result ≡ Exit.WriteFault) }
        ensures lost { self.old.lost ≡ true → result ≡ Exit.WriteFault }
        // At Done the writer took all bytes that were accepted, in their order.
        ensures whole { result ≡ Exit.Done → self.new.out.bytes ≡ self.old.accepted }
        // At any exit but WriteFault it took all but some last ones of the last piece.
        ensures others { result ≢ Exit.WriteFault → WritesBut self.old self.new }
        // WriteFault comes only if it was handed in, or a write failed or took 0. The counts rise only then.
        ensures cause { result ≡ Exit.WriteFault → (exit ≡ Exit.WriteFault) ⊎ (self.new.out.broken ≡ true) }
        ensures broke { 0 < self.old.faults + self.old.stalls → self.new.out.broken ≡ true }
        // A writer that shows what it holds, holds what it took.
        ensures shows { (bytes : List ℕ) × Hands bytes self.old.out self.new.out }
    {
        let was_lost = self.lost;
        let before = self.before;
        let (count, handed) = self.hand_on();
        if was_lost {
            return Exit::WriteFault;
        }
        if count < before {
            return Exit::WriteFault;
        }
        match (exit, handed) {
            (Exit::Done, Handed::Stalled | Handed::Failed) => Exit::WriteFault,
            _ => exit,
        }
    }

    /// Takes first bytes of a piece, or fails. It takes 0 if the writer took 0.
    #[inline]
    fn take(&mut self, piece: &[u8]) -> Option<usize>
        ensures faults { self.new.faults ≡ self.old.faults }
        ensures stalls { self.new.stalls ≡ self.old.stalls }
        ensures bound { IfSome result (λ count. count ≤ length piece.now) }
        ensures accepted { self.new.accepted ≡ self.old.accepted ++ take (unwrap_or result 0) piece.now }
        ensures broke { (result ≡ None) ⊎ ((result ≡ Some 0) × (0 < length piece.now)) → self.new.out.broken ≡ true }
        ensures shows { (bytes : List ℕ) × Hands bytes self.old.out self.new.out }
    {
        let from = self.gathered;
        if self.room.len() < from || self.room.len() - from < piece.len() {
            return self.take_anew(piece);
        }
        put_behind(self.room.as_mut_slice(), from, piece);
        self.before = from;
        self.gathered = from + piece.len();
        self.accepted = self.accepted.then(&Entry::Took(0, piece));
        Some(piece.len())
    }

    /// Takes first bytes of a piece that has no room beside those before it, which are handed on first.
    #[inline(never)]
    fn take_anew(&mut self, piece: &[u8]) -> Option<usize>
        ensures faults { self.new.faults ≡ self.old.faults }
        ensures stalls { self.new.stalls ≡ self.old.stalls }
        ensures bound { IfSome result (λ count. count ≤ length piece.now) }
        ensures accepted { self.new.accepted ≡ self.old.accepted ++ take (unwrap_or result 0) piece.now }
        ensures broke { (result ≡ None) ⊎ ((result ≡ Some 0) × (0 < length piece.now)) → self.new.out.broken ≡ true }
        ensures shows { (bytes : List ℕ) × Hands bytes self.old.out self.new.out }
    {
        match self.hand_on().1 {
            Handed::All => {}
            Handed::Stalled => return Some(0),
            Handed::Failed => return None,
        }
        if piece.len() > self.room.len() {
            let count = self.out.write(piece)?;
            self.accepted = self.accepted.then(&Entry::Took(0, &piece[..count]));
            return Some(count);
        }
        put_behind(self.room.as_mut_slice(), 0, piece);
        self.gathered = piece.len();
        self.accepted = self.accepted.then(&Entry::Took(0, piece));
        Some(piece.len())
    }

    /// Hands on what is gathered, and answers how many bytes of it the writer took. Nothing is gathered then, and
    /// what was lost stays lost.
    fn hand_on(&mut self) -> (usize, Handed)
        ensures { HandsOn self.old self.new result.0 result.1 }
    {
        let end = self.gathered.min(self.room.len());
        let (count, handed) = self.out.write_on(&self.room[..end]);
        if count < end {
            self.lost = true;
        }
        self.before = 0;
        self.gathered = 0;
        (count, handed)
    }
}

/// Puts a piece behind the first bytes of a room.
#[inline(always)]
fn put_behind(room: &mut [u8], from: usize, piece: &[u8])
    requires room { from + length piece.now ≤ length room.old }
    ensures { take (from + length piece.now) room.new ≡ take from room.old ++ piece.now }
{
    room[from..from + piece.len()].copy_from_slice(piece);
}

impl<W: Write + Drop> Sink for HostSink<W> {
    ghost observable = { ⊤ };

    ghost state = { moment_of };

    /// Gathers a piece, and hands on what is gathered once it is full. Failed if the host doesn't take that.
    fn write(&mut self, piece: &[u8]) -> Result<usize, Failed>
        ensures bound { IfOk result (λ count. count ≤ length piece.now) }
        ensures cause { HasCause self.old.faults self.new.faults result }
        ensures calm { IfOk result (λ _. self.new.faults ≡ self.old.faults) }
        ensures stalls { CountsStalls piece.now (moment_of self.old) (moment_of self.new) result }
        ensures appended { MatchResult result
            (λ count. Appended ⊤ (take count piece.now) (moment_of self.old) (moment_of self.new))
            (λ _. Appended ⊤ [] (moment_of self.old) (moment_of self.new)) }

        // A writer that shows what it holds, holds what it took.
        ensures shows { (bytes : List ℕ) × Hands bytes self.old.out self.new.out }
    {
        match self.take(piece) {
            Some(count) => {
                if count == 0 && !piece.is_empty() {
                    self.stalls = self.stalls.saturating_add(1);
                }
                Ok(count)
            }
            None => {
                self.faults = self.faults.saturating_add(1);
                Err(Failed)
            }
        }
    }
}
