//! The lines of an input are read through a window.

ghost use Rattle.std.specs.Prelude.{◌≡◌, ◌≢◌, ◌+◌, ◌<◌, ◌≤◌, ◌==◌, [], ◌∷◌, None, false, length, position, take, IfSome, MatchOption, MatchResult, IsErr, IsTrue, OnOk};
ghost use Rattle.arrayvec.specs.ArrayVec.{array_vec_len};
ghost use Rattle.pm_io.specs.Calls.{Read};
ghost use Rattle.pm_base.specs.Faults.{HasCause, Rose};
ghost use Rattle.pm_io.specs.Inputs.{Adds, IsStuck, Took};
ghost use Rattle.pm_io.specs.Readings.{Meanwhile};
ghost use Rattle.pm_reader.specs.Meant.{GaveMeant, ReadMeant};
ghost use Rattle.pm_reader.specs.Reader.{ComesOn, Gives, Grew, HasRead, IsOpen, KnowsEnd, NeedsMore, Turn, within};

use crate::meant::{Meant, meant_by, meant_of};
use crate::window::Window;
use arrayvec::ArrayVec;
use pm_base::{Event, Failed};
use pm_io::{Inputs, TOO_LONG};
use pm_script::read_first;
use std::marker::Model;

/// A line without its line feed.
pub type LineBuf = ArrayVec<u8, 255>;

/// What a reader gave.
#[derive(Clone, Copy, Debug, PartialEq, Eq)]
pub enum Taken {
    /// The next line, without its line feed. The last line of an input may lack one.
    Line,
    /// Nothing: the input came to its end, and no byte is left.
    End,
    /// Nothing: 256 bytes of the next line came without a line feed.
    Long,
    /// Nothing: a byte past the limit came, and no line before it is left.
    Over,
    /// Nothing: a read failed, and no whole line is left.
    Fault,
}

/// Takes the lines of an input one after another, up to a limit of bytes. It takes no memory beside its
/// window. Contracts see what it has read and not given, how many bytes it may still read, and whether the
/// input came to its end.
#[derive(Drop)]
pub struct LineReader {
    window: Window,
    /// One more than the limit at first, so that a byte past the limit is seen.
    credit: u64,
    ended: bool,
}

impl Model for LineReader {
    ghost use Rattle.pm_reader.specs.Reader.{Held};

    ghost Value = { Held };

    ghost view = { λ reader. record { bytes = reader.window; credit = reader.credit; ended = reader.ended } };
}

impl LineReader {
    /// A reader of an input that was just begun. It gives the lines of at most `limit` bytes.
    pub fn new(limit: u32) -> LineReader
        ensures { result ≡ record { bytes = []; credit = limit + 1; ended = false } }
    {
        LineReader {
            window: Window::new(),
            credit: u64::from(limit) + 1,
            ended: false,
        }
    }

    /// Takes the next line of the input `id` into `line`. It reads on only while no whole line is held; so
    /// a read that fails behind a line doesn't keep that line back.
    pub fn next<I: Inputs>(&mut self, inputs: &mut I, id: u32, line: &mut LineBuf) -> Taken
        // It read some bytes, and its answer is right of all that it then held.
        ensures turn { Turn I.observable id (I.state inputs.old)
            (I.state inputs.new) self.old self.new result line.new.items }
        // Where it saw the end of this input, the input is at its end.
        ensures knows { KnowsEnd I.observable id self.old (I.state inputs.old)
            → KnowsEnd I.observable id self.new (I.state inputs.new) }
        // Fault comes only if the inputs' count of faults rose.
        ensures fault { result ≡ Taken.Fault → Rose (I.state inputs.old).faults (I.state inputs.new).faults }
        // If the inputs are observable, Fault comes only if the input stands at its failing byte.
        ensures stuck { I.observable → result ≡ Taken.Fault → IsStuck ((I.state inputs.new).input id) }
        // It read on in this input and did nothing else, and nothing after it saw the end or took the byte past the
        // limit.
        ensures reads { Meanwhile (I.state inputs.old) (I.state inputs.new) (HasRead result id self.old self.new) }
    {
        loop {
            if let Some(taken) = self.give(line) {
                return taken;
            }
            if let Err(Failed) = self.more(inputs, id) {
                return Taken::Fault;
            }
        }
    }

    /// Takes the next line as `next` does, and leaves its event. `line` is used where the line isn't held whole.
    #[inline(always)]
    pub(crate) fn next_meant<I: Inputs>(
        &mut self,
        inputs: &mut I,
        id: u32,
        line: &mut LineBuf,
        event: &mut Event,
    ) -> Meant
        ensures { ReadMeant I.observable id (I.state inputs.old) (I.state inputs.new)
            self.old self.new result event.new }
    {
        if let Some(meant) = self.give_meant(event) {
            return meant;
        }
        self.take_meant(inputs, id, line, event)
    }

    /// The event of the next line, read where the line stands, if it is held whole and no byte past the limit came. So
    /// most lines are never copied, and the line feed of most is found while they are read.
    #[inline(always)]
    fn give_meant(&mut self, event: &mut Event) -> Option<Meant>
        ensures { MatchOption result (self.new ≡ self.old) (λ meant. GaveMeant self.old self.new meant event.new) }
    {
        if self.credit == 0 {
            return None;
        }
        let Some(feed) = read_first(self.window.bytes(), event) else {
            return self.give_by_feed(event);
        };
        self.window.consume(feed + 1);
        Some(Meant::Event)
    }

    /// The event of the next line, if it is held whole, for a line that can't be read at once: its line feed is found first.
    #[inline(never)]
    fn give_by_feed(&mut self, event: &mut Event) -> Option<Meant>
        requires { 0 < self.old.credit }
        ensures { MatchOption result (self.new ≡ self.old) (λ meant. GaveMeant self.old self.new meant event.new) }
    {
        let bytes = self.window.bytes();
        let end = first_feed(bytes)?;
        let meant = meant_by(&bytes[..end], event);
        self.window.consume(end + 1);
        Some(meant)
    }

    /// The event of the next line, for a line that isn't held whole: it is taken into `line`, and read there.
    #[inline(never)]
    fn take_meant<I: Inputs>(
        &mut self,
        inputs: &mut I,
        id: u32,
        line: &mut LineBuf,
        event: &mut Event,
    ) -> Meant
        ensures { ReadMeant I.observable id (I.state inputs.old) (I.state inputs.new)
            self.old self.new result event.new }
    {
        let taken = self.next(inputs, id, line);
        meant_of(taken, line.as_slice(), event)
    }

    /// The answer, if what is held decides it.
    fn give(&mut self, line: &mut LineBuf) -> Option<Taken>
        ensures calm { IfSome result (λ taken. taken ≢ Taken.Fault) }
        ensures gives { MatchOption result (NeedsMore self.old self.new)
            (λ taken. Gives self.old taken line.new.items self.new) }
    {
        line.clear();
        let text = self.within();
        match first_feed(front(text)) {
            Some(at) => {
                put(line, &text[..at]);
                self.window.consume(at + 1);
                Some(Taken::Line)
            }
            None => self.give_open(line),
        }
    }

    /// The answer if no line is held whole, if that decides it.
    fn give_open(&mut self, line: &mut LineBuf) -> Option<Taken>
        requires none { position (λ byte. byte == 10) (take 256 (within self.old)) ≡ None }
        requires room { array_vec_len line.old ≡ 0 }
        ensures calm { IfSome result (λ taken. taken ≢ Taken.Fault) }
        ensures gives { MatchOption result (NeedsMore self.old self.new)
            (λ taken. Gives self.old taken line.new.items self.new) }
    {
        if self.within().len() >= TOO_LONG {
            Some(Taken::Long)
        } else if self.credit == 0 {
            Some(Taken::Over)
        } else if self.ended {
            Some(self.give_last(line))
        } else {
            None
        }
    }

    /// The last line of an input that came to its end, if bytes are left.
    fn give_last(&mut self, line: &mut LineBuf) -> Taken
        requires unended { IsOpen self.old }
        requires credit { 0 < self.old.credit }
        requires ended { IsTrue self.old.ended }
        requires room { array_vec_len line.old ≡ 0 }
        ensures calm { result ≢ Taken.Fault }
        ensures gives { Gives self.old result line.new.items self.new }
    {
        let bytes = self.window.bytes();
        if bytes.is_empty() {
            return Taken::End;
        }
        put(line, bytes);
        self.window.clear();
        Taken::Line
    }

    /// The bytes held that may belong to lines.
    fn within(&self) -> &[u8]
        ensures { result.now ≡ within self.now }
    {
        match (self.credit, self.window.bytes()) {
            (0, [text @ .., _past]) => text,
            (_, bytes) => bytes,
        }
    }

    /// Reads more, behind what is held.
    fn more<I: Inputs>(&mut self, inputs: &mut I, id: u32) -> Result<(), Failed>
        requires room { length self.old.bytes < 4096 }
        requires credit { 0 < self.old.credit }
        requires open { self.old.ended ≡ false }
        ensures cause { HasCause (I.state inputs.old).faults (I.state inputs.new).faults result }
        ensures grew { MatchResult result
            (λ _. Grew I.observable id self.old self.new (I.state inputs.old) (I.state inputs.new))
            (λ _. (self.new ≡ self.old) × Took I.observable id [] (I.state inputs.old) (I.state inputs.new)) }
        ensures moves { OnOk result (self.new.ended ≡ (self.new.credit == self.old.credit)) }
        ensures knows { KnowsEnd I.observable id self.new (I.state inputs.new) }
        ensures failed { I.observable → IsErr result → IsStuck ((I.state inputs.new).input id) }
        ensures reads { MatchResult result
            (λ _. Meanwhile (I.state inputs.old) (I.state inputs.new) (ComesOn id self.old self.new))
            (λ _. Adds (Read id None) (I.state inputs.old) (I.state inputs.new)) }
    {
        let count = self.window.fill(inputs, id, self.credit as usize)?;
        self.credit -= count as u64;
        self.ended = count == 0;
        Ok(())
    }
}

/// The front of a text in which the line feed of a line stands that isn't too long.
fn front(text: &[u8]) -> &[u8]
    ensures { result.now ≡ take 256 text.now }
{
    if text.len() > TOO_LONG {
        &text[..TOO_LONG]
    } else {
        text
    }
}

/// The place of the first line feed.
fn first_feed(text: &[u8]) -> Option<usize>
    ensures { result ≡ position (λ byte. byte == 10) text.now }
{
    let mut at = 0;
    let mut left = text;
    'eights: while let [a, b, c, d, e, f, g, h, later @ ..] = left {
        if let Some(k) = feed_among(*a, *b, *c, *d) {
            return Some(at + k);
        }
        if let Some(k) = feed_among(*e, *f, *g, *h) {
            return Some(at + 4 + k);
        }
        at += 8;
        left = later;
    }
    match feed_in(left) {
        Some(k) => Some(at + k),
        None => None,
    }
}

/// The place of the first line feed, found byte by byte: for texts of a few bytes.
fn feed_in(text: &[u8]) -> Option<usize>
    ensures { result ≡ position (λ byte. byte == 10) text.now }
{
    text.iter().position(|byte| *byte == b'\n')
}

/// The place of the first line feed among four bytes.
fn feed_among(a: u8, b: u8, c: u8, d: u8) -> Option<usize>
    ensures { result ≡ position (λ byte. byte == 10) (a ∷ b ∷ c ∷ d ∷ []) }
{
    if a == b'\n' {
        Some(0)
    } else if b == b'\n' {
        Some(1)
    } else if c == b'\n' {
        Some(2)
    } else if d == b'\n' {
        Some(3)
    } else {
        None
    }
}

/// Puts bytes into an empty line.
fn put(line: &mut LineBuf, text: &[u8])
    requires empty { array_vec_len line.old ≡ 0 }
    requires room { length text.now ≤ 255 }
    ensures { line.new.items ≡ text.now }
{
    line.try_extend_from_slice(text).unwrap();
}
