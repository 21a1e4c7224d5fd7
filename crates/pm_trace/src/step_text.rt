//! The text of a core step of few lines, written in one piece. It is there for speed alone. It is written from its
//! end to its front, since a number's last digit is found first.

ghost use Rattle.std.specs.Prelude.{◌≡◌, ◌+◌, ◌*◌, ◌<◌, ◌≤◌, ◌++◌, ◌∷◌, [], IsTrue, decimal, drop, length, map, option_to_list};
ghost use Rattle.pm_trace.specs.declared.step.StepLine.TheVariants as told;
ghost use Rattle.pm_trace.specs.Step.{answer_line, notices_in, numbered_line, step_text, step_words};
ghost use Rattle.pm_trace.specs.StepText.{lines_of_step};

use crate::line::{put_byte, put_name};
use crate::step::{LINE, is_told, put_answer, put_start, reply_words, rest_of_command};
use itoa::write_digits;
use pm_base::NodeId;
use pm_core::{Answer, Done, Outbox, Start};
use pm_ipi::Response;
use std::marker::Model;

/// The room for the text of a step of few lines, in bytes: it needs (8 + 2 + 1) * 91 = 1,001 at most.
const ROOM: usize = 1024;
/// The most commands that a step of few lines may have.
const COMMANDS: usize = 8;
/// The most starts that a step of few lines may have.
const STARTS: usize = 2;

/// A number with its digits, at most nine. Contracts see the number.
#[derive(Drop)]
struct Number {
    value: u32,
    /// The digits from index `start` on are all but the last one.
    digits: [u8; 8],
    start: usize,
    last: u8,
}

impl Model for Number {
    ghost use Rattle.std.specs.Prelude.{◌≡◌, ◌≤◌, ◌++◌, ◌∷◌, [], ℕ, decimal, drop};

    ghost Value = { ℕ };

    ghost view = { λ number. number.value };

    ghost invariant = { λ number. (number.start ≤ 8)
        × (decimal number.value ≡ drop number.start number.digits ++ number.last ∷ []) };
}

impl Number {
    /// Writes the digits so that they end before `text[at]`. Returns the index of the first one.
    #[inline(always)]
    fn put(&self, text: &mut [u8], at: usize) -> usize
        requires room { 10 ≤ at }
        requires within { at ≤ length text.old }
        ensures room { at ≤ result + 10 }
        ensures within { result ≤ at }
        ensures text { drop result text.new ≡ decimal self.now ++ drop at text.old }
    {
        let last = put_byte(text, at, self.last);
        put_name(text, last, &self.digits) + self.start
    }
}

/// Ten numbers that differ only in their last digit, as 120 to 129, with their common digits: steps with near numbers
/// share them. Contracts see the first of the ten.
#[derive(Drop)]
struct Tens {
    first: u32,
    /// The digits from index `start` on are common to the ten.
    digits: [u8; 8],
    start: usize,
}

impl Model for Tens {
    ghost use Rattle.std.specs.Prelude.{◌≡◌, ◌+◌, ◌<◌, ◌≤◌, ◌++◌, ◌∷◌, [], ℕ, decimal, drop};

    ghost Value = { ℕ };

    ghost view = { λ tens. tens.first };

    ghost invariant = { λ tens. (tens.start ≤ 8)
        × ((digit : ℕ) → digit < 10
        → decimal (tens.first + digit) ≡ drop tens.start tens.digits ++ (48 + digit) ∷ []) };
}

impl Tens {
    /// The numbers from 0 to 9.
    fn new() -> Tens
        ensures { result ≡ 0 }
    {
        Tens {
            first: 0,
            digits: [0; 8],
            start: 8,
        }
    }

    /// Moves to the ten numbers among which `n` is, and returns true. If `n` has ten digits nothing changes, and the
    /// result is false: there is room for nine.
    #[inline(always)]
    fn move_to(&mut self, n: u32) -> bool
        ensures from { IsTrue result → self.new ≤ n }
        ensures to { IsTrue result → n < self.new + 10 }
    {
        if self.first <= n && n - self.first < 10 {
            true
        } else {
            self.find(n)
        }
    }

    /// Finds the digits for `move_to`, if `n` isn't among the ten already.
    #[inline(never)]
    fn find(&mut self, n: u32) -> bool
        ensures from { IsTrue result → self.new ≤ n }
        ensures to { IsTrue result → n < self.new + 10 }
    {
        if n < 10 {
            *self = Tens::new();
            return true;
        }
        if n >= 1_000_000_000 {
            return false;
        }
        let front = n / 10;
        self.start = write_digits(u64::from(front), &mut self.digits, 8);
        self.first = front * 10;
        true
    }

    /// The number `n` with its digits. It has to be one of the ten.
    #[inline(always)]
    fn number(&self, n: u32) -> Number
        requires from { self.now ≤ n }
        requires to { n < self.now + 10 }
        ensures { result ≡ n }
    {
        Number {
            value: n,
            digits: self.digits,
            start: self.start,
            last: b'0' + (n - self.first) as u8,
        }
    }
}

/// The text of a core step of few lines. Contracts see its bytes.
#[derive(Drop)]
pub struct StepText {
    /// The bytes from index `start` on are the text.
    text: [u8; 1024],
    start: usize,
    /// The ten numbers around that of the last step.
    tens: Tens,
}

impl Model for StepText {
    ghost use Rattle.std.specs.Prelude.{◌≤◌, drop};
    ghost use Rattle.pm_trace.specs.Line.{LineBytes};

    ghost Value = { LineBytes };

    ghost view = { λ text. record { items = drop text.start text.text } };

    ghost invariant = { λ text. text.start ≤ 1024 };
}

impl StepText {
    /// An empty text.
    pub fn new() -> StepText
        ensures { result.items ≡ [] }
    {
        StepText {
            text: [0; ROOM],
            start: ROOM,
            tens: Tens::new(),
        }
    }

    /// The bytes of the text, at most 1,024.
    pub fn as_slice(&self) -> &[u8]
        ensures value { result.now ≡ self.now.items }
        ensures fits { length result.now ≤ 1024 }
    {
        bytes_from(&self.text, self.start)
    }

    /// Makes this the text of a core step of script line `n` with this answer, and returns true, if the step has few
    /// lines: at most eight commands and two starts, no late reply, no callback but the acknowledgement in its
    /// answer, and a number `n` of at most nine digits. Else it returns false, and the bytes are arbitrary: the
    /// caller then writes the step line by line.
    #[inline(always)]
    pub fn fill(&mut self, n: u32, out: &Outbox, answer: &Answer) -> bool
        ensures { IsTrue result
            → self.new.items ≡ step_text n out.now.done.items (notices_in out.now) answer.now }
    {
        if !is_short(out) || !self.tens.move_to(n) {
            return false;
        }
        let number = self.tens.number(n);
        let at = put_last(&mut self.text, &number, answer);
        let at = put_starts(&mut self.text, at, n, out.starts.as_slice());
        self.start = put_commands(&mut self.text, at, &number, out.done.as_slice());
        true
    }
}

/// The bytes of a text from index `from` on.
fn bytes_from(text: &[u8; 1024], from: usize) -> &[u8]
    requires { from ≤ 1024 }
    ensures value { result.now ≡ drop from text.now }
    ensures fits { length result.now ≤ 1024 }
{
    &text[from..]
}

/// Whether a step has few lines: at most `COMMANDS` commands and `STARTS` starts, no late reply, and no callback
/// beside its answer.
#[inline(always)]
fn is_short(out: &Outbox) -> bool
    ensures commands { IsTrue result → length out.now.done.items ≤ COMMANDS }
    ensures starts { IsTrue result → length out.now.starts.items ≤ STARTS }
    ensures late { IsTrue result → out.now.late.items ≡ [] }
    ensures callbacks { IsTrue result → out.now.callbacks.items ≡ [] }
{
    out.done.as_slice().len() <= COMMANDS
        && out.starts.as_slice().len() <= STARTS
        && out.late.as_slice().is_empty()
        && out.callbacks.as_slice().is_empty()
}

/// Writes the line of an answer, if it has one, at the very end of a text. Returns the index of its first byte, or
/// `ROOM` if there is none.
#[inline(always)]
fn put_last(text: &mut [u8; 1024], number: &Number, answer: &Answer) -> usize
    ensures room { ROOM ≤ result + LINE }
    ensures within { result ≤ ROOM }
    ensures text { drop result text.new ≡ lines_of_step number.now (option_to_list (answer_line answer.now)) }
{
    match answer {
        Answer::Reply { master, response } => put_reply(text, number, *master, response),
        _ => put_rare(text, number.value, answer),
    }
}

/// As `put_last`, not inlined: for the answers that are no replies, which are rare.
#[inline(never)]
fn put_rare(text: &mut [u8; 1024], n: u32, answer: &Answer) -> usize
    ensures room { ROOM ≤ result + LINE }
    ensures within { result ≤ ROOM }
    ensures text { drop result text.new ≡ lines_of_step n (option_to_list (answer_line answer.now)) }
{
    if is_told(answer) {
        put_answer(text, ROOM, n, answer)
    } else {
        ROOM
    }
}

/// Writes the line of a reply at the very end of a text. Returns the index of its first byte.
#[inline(always)]
fn put_reply(text: &mut [u8; 1024], number: &Number, master: NodeId, response: &Response) -> usize
    ensures room { ROOM ≤ result + LINE }
    ensures within { result ≤ ROOM }
    ensures text { drop result text.new ≡ lines_of_step number.now (told.Reply master response.now ∷ []) }
{
    let at = put_byte(text, ROOM, b'\n');
    let at = reply_words(text, at, master, response);
    number.put(text, at)
}

/// Writes the lines of the starts in script line `n`, in order, so that they end before `text[at]`. Returns the index
/// of the first byte.
#[inline(always)]
fn put_starts(text: &mut [u8; 1024], at: usize, n: u32, starts: &[Start]) -> usize
    requires few { length starts.now ≤ STARTS }
    requires room { ROOM ≤ at + LINE }
    requires within { at ≤ ROOM }
    ensures room { ROOM ≤ result + (STARTS + 1) * LINE }
    ensures within { result ≤ ROOM }
    ensures text { drop result text.new ≡ lines_of_step n (map told.Start starts.now) ++ drop at text.old }
{
    let mut from = at;
    let mut left = starts.len();
    while left > 0 {
        left -= 1;
        from = put_start(text, from, n, &starts[left]);
    }
    from
}

/// Writes the lines of commands, in order, so that they end before `text[at]`. Returns the index of the first byte.
#[inline(always)]
fn put_commands(text: &mut [u8; 1024], at: usize, number: &Number, commands: &[Done]) -> usize
    requires few { length commands.now ≤ COMMANDS }
    requires room { ROOM ≤ at + (STARTS + 1) * LINE }
    requires within { at ≤ ROOM }
    ensures within { result ≤ ROOM }
    ensures text { drop result text.new ≡ lines_of_step number.now (map told.Command commands.now) ++ drop at text.old }
{
    let mut from = at;
    let mut left = commands.len();
    while left > 0 {
        left -= 1;
        from = put_command(text, from, number, &commands[left]);
    }
    from
}

/// Writes the line of a command so that it ends before `text[at]`. Returns the index of its first byte.
#[inline(always)]
#[tactic(auto, using(crate::proofs::LineLemmas::line_before))]
fn put_command(text: &mut [u8], at: usize, number: &Number, done: &Done) -> usize
    requires room { LINE ≤ at }
    requires within { at ≤ length text.old }
    ensures room { at ≤ result + LINE }
    ensures within { result ≤ at }
    ensures text { drop result text.new
        ≡ numbered_line number.now (step_words (told.Command done.now)) ++ drop at text.old }
{
    let at = rest_of_command(text, at, done);
    number.put(text, at)
}
