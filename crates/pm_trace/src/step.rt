//! The lines of one core step.

ghost use Rattle.std.specs.Prelude.{◌≡◌, ◌<◌, ◌≤◌, ◌+◌, ◌-◌, ◌++◌, ◌∷◌, [], Some, None, IfSome, IsTrue, MatchResult, decimal, drop, is_some, length, map, slice_get};
ghost use Rattle.pm_trace.specs.Line.{numbers, spaced};
ghost use Rattle.pm_trace.specs.declared.step.StepLine.TheVariants as told;
ghost use Rattle.pm_trace.specs.Step.{answer_line, command_name, core_lines, late_line, notices_in, numbered_line, output_words, step_words};

use crate::line::{TextLine, put_address, put_byte, put_digits, put_name, put_number};
use pm_base::{NodeId, Unit};
use pm_core::{Answer, Callback, Done, Late, Outbox, Start};
use pm_ipi::Response;
use pm_ipi::callbacks::ACKNOWLEDGE;

/// The most bytes of a line of a core step: ten digits, 80 of its words, and the line feed.
pub(crate) const LINE: usize = 91;

/// One line of a core step, before it is text. Contracts speak of lines by it.
#[derive(Clone, Copy, Debug, PartialEq, Eq)]
pub enum StepLine {
    /// A command was given to the device, with the device's answer.
    Command(Done),
    /// A processor starts at an address.
    Start(Start),
    /// A master gets a reply, at once or late.
    Reply(NodeId, Response),
    /// The message of a master is dropped.
    Drop(NodeId),
    /// A master is called back, or its message is acknowledged.
    Call(Callback),
}

/// The number of lines of a core step with this outbox and this answer.
pub fn entries(out: &Outbox, answer: &Answer) -> usize
    ensures { result ≡ length (output_words out.now.done.items (notices_in out.now) answer.now) }
{
    out.done.as_slice().len()
        + out.starts.as_slice().len()
        + out.late.as_slice().len()
        + out.callbacks.as_slice().len()
        + usize::from(is_told(answer))
}

/// Writes into `line` the `k`-th line, counted from 0, of a core step of script line `n` with this outbox and this
/// answer, with its line feed.
pub fn entry(n: u32, out: &Outbox, answer: &Answer, k: usize, line: &mut TextLine)
    requires place { k < length (output_words out.now.done.items (notices_in out.now) answer.now) }
    ensures { slice_get (core_lines n out.now.done.items (notices_in out.now) answer.now) k ≡ Some line.new.items }
{
    line.start = put_entry(&mut line.text, n, out, answer, k);
}

/// Writes into `line` the line of a command that was given in script line `n`, with its line feed.
pub fn command_entry(n: u32, done: &Done, line: &mut TextLine)
    ensures { line.new.items ≡ numbered_line n (step_words (told.Command done.now)) }
{
    line.start = put_command(&mut line.text, 128, n, done);
}

/// Writes into `line` the line of an answer in script line `n`, with its line feed. The answer has to have one
/// (`is_told`).
pub fn answer_entry(n: u32, answer: &Answer, line: &mut TextLine)
    requires { IsTrue (is_some (answer_line answer.now)) }
    ensures { IfSome (answer_line answer.now) (λ told. line.new.items ≡ numbered_line n (step_words told)) }
{
    line.start = put_answer(&mut line.text, 128, n, answer);
}

/// Writes the `k`-th line of a core step at the very end of a text. Returns the index of its first byte.
fn put_entry(text: &mut [u8; 128], n: u32, out: &Outbox, answer: &Answer, k: usize) -> usize
    requires place { k < length (output_words out.now.done.items (notices_in out.now) answer.now) }
    ensures within { result ≤ 128 }
    ensures text { slice_get (core_lines n out.now.done.items (notices_in out.now) answer.now) k
        ≡ Some (drop result text.new) }
{
    let k = match at(out.done.as_slice(), k) {
        Ok(done) => return put_command(text, 128, n, done),
        Err(k) => k,
    };
    let k = match at(out.starts.as_slice(), k) {
        Ok(start) => return put_start(text, 128, n, start),
        Err(k) => k,
    };
    let k = match at(out.late.as_slice(), k) {
        Ok(late) => return put_late(text, 128, n, late),
        Err(k) => k,
    };
    match at(out.callbacks.as_slice(), k) {
        Ok(call) => put_call(text, 128, n, call),
        Err(_) => put_answer(text, 128, n, answer),
    }
}

/// The element at index `k`, or else by how much `k` exceeds the last index: 0 right after it.
fn at<T>(items: &[T], k: usize) -> Result<&T, usize>
    ensures { MatchResult result (λ item. slice_get items.now k ≡ Some item.now) (λ past. (slice_get items.now k ≡ None)
        × (past ≡ k - length items.now)) }
{
    match items.get(k) {
        Some(item) => Ok(item),
        None => Err(k - items.len()),
    }
}

/// Whether an answer has a line.
pub fn is_told(answer: &Answer) -> bool
    ensures { result ≡ is_some (answer_line answer.now) }
{
    !matches!(answer, Answer::Silent | Answer::Ack { shown: false, .. })
}

/// Writes the line of an answer so that it ends before `text[at]`. The answer has to have one. Returns the index of
/// its first byte.
#[inline(never)]
#[tactic(auto, using(crate::proofs::LineLemmas::line_before))]
pub(crate) fn put_answer(text: &mut [u8], at: usize, n: u32, answer: &Answer) -> usize
    requires told { IsTrue (is_some (answer_line answer.now)) }
    requires room { LINE ≤ at }
    requires within { at ≤ length text.old }
    ensures room { at ≤ result + LINE }
    ensures within { result ≤ at }
    ensures text { IfSome (answer_line answer.now)
        (λ told. drop result text.new ≡ numbered_line n (step_words told) ++ drop at text.old) }
{
    let at = put_byte(text, at, b'\n');
    let at = answer_words(text, at, answer);
    put_digits(text, at, n)
}

/// Writes the line of a processor that starts so that it ends before `text[at]`. Returns the index of its first byte.
#[inline(never)]
#[tactic(auto, using(crate::proofs::LineLemmas::line_before))]
pub(crate) fn put_start(text: &mut [u8], at: usize, n: u32, start: &Start) -> usize
    requires room { LINE ≤ at }
    requires within { at ≤ length text.old }
    ensures room { at ≤ result + LINE }
    ensures within { result ≤ at }
    ensures text { drop result text.new ≡ numbered_line n (step_words (told.Start start.now)) ++ drop at text.old }
{
    let at = put_byte(text, at, b'\n');
    let at = start_words(text, at, start);
    put_digits(text, at, n)
}

/// Writes the line of a late reply, which has only a status, so that it ends before `text[at]`. Returns the index of
/// its first byte.
#[tactic(auto, using(crate::proofs::LineLemmas::line_before))]
fn put_late(text: &mut [u8], at: usize, n: u32, late: &Late) -> usize
    requires room { LINE ≤ at }
    requires within { at ≤ length text.old }
    ensures within { result ≤ at }
    ensures text { drop result text.new ≡ numbered_line n (step_words (late_line late.now)) ++ drop at text.old }
{
    let response = Response {
        status: late.status,
        words: [0; 3],
    };
    let at = put_byte(text, at, b'\n');
    let at = reply_words(text, at, late.master, &response);
    put_digits(text, at, n)
}

/// Writes the line of a command so that it ends before `text[at]`. Returns the index of its first byte.
#[tactic(auto, using(crate::proofs::LineLemmas::line_before))]
fn put_command(text: &mut [u8], at: usize, n: u32, done: &Done) -> usize
    requires room { LINE ≤ at }
    requires within { at ≤ length text.old }
    ensures within { result ≤ at }
    ensures text { drop result text.new
        ≡ numbered_line n (step_words (told.Command done.now)) ++ drop at text.old }
{
    let at = rest_of_command(text, at, done);
    put_digits(text, at, n)
}

/// Writes the line of a callback so that it ends before `text[at]`. Returns the index of its first byte.
#[tactic(auto, using(crate::proofs::LineLemmas::line_before))]
fn put_call(text: &mut [u8], at: usize, n: u32, call: &Callback) -> usize
    requires room { LINE ≤ at }
    requires within { at ≤ length text.old }
    ensures within { result ≤ at }
    ensures text { drop result text.new ≡ numbered_line n (step_words (told.Call call.now)) ++ drop at text.old }
{
    let at = put_byte(text, at, b'\n');
    let at = call_words(text, at, call.master, call.id, &call.args);
    put_digits(text, at, n)
}

/// Writes the words of an answer that has a line, each with a space before it, so that they end before `text[at]`.
/// Returns the index of the first space.
fn answer_words(text: &mut [u8], at: usize, answer: &Answer) -> usize
    requires told { IsTrue (is_some (answer_line answer.now)) }
    requires room { 80 ≤ at }
    requires within { at ≤ length text.old }
    ensures room { at ≤ result + 80 }
    ensures within { result ≤ at }
    ensures text { IfSome (answer_line answer.now)
        (λ told. drop result text.new ≡ spaced (step_words told) (drop at text.old)) }
{
    match answer {
        Answer::Silent => at,
        Answer::Drop { master } => drop_words(text, at, *master),
        Answer::Reply { master, response } => reply_words(text, at, *master, response),
        Answer::Ack {
            master,
            node,
            status,
            point,
            ..
        } => call_words(
            text,
            at,
            *master,
            ACKNOWLEDGE,
            &[node.0, *status, *point, 0],
        ),
    }
}

/// Writes the words of a start, each with a space before it, so that they end before `text[at]`. Returns the index of
/// the first space.
fn start_words(text: &mut [u8], at: usize, start: &Start) -> usize
    requires room { 80 ≤ at }
    requires within { at ≤ length text.old }
    ensures room { at ≤ result + 80 }
    ensures within { result ≤ at }
    ensures text { drop result text.new ≡ spaced (step_words (told.Start start.now)) (drop at text.old) }
{
    let at = put_address(text, at, start.address);
    let at = put_number(text, at, start.proc.0);
    put_name(text, at, b" run")
}

/// Writes a command's words, each with a space before it, and a line feed, so that they end before `text[at]`.
/// Returns the index of the first space. Only the number of the script line is left to write.
#[inline(always)]
pub(crate) fn rest_of_command(text: &mut [u8], at: usize, done: &Done) -> usize
    requires room { LINE ≤ at }
    requires within { at ≤ length text.old }
    ensures room { at ≤ result + 81 }
    ensures within { result ≤ at }
    ensures text { drop result text.new ≡ spaced (step_words (told.Command done.now)) (10 ∷ drop at text.old) }
{
    let at = put_byte(text, at, b'\n');
    let at = put_number(text, at, done.command.value);
    let at = put_number(text, at, done.from);
    put_unit(text, at, done.command.unit, done.ok)
}

/// Writes a space and the name of a command, by its unit's sort and whether it succeeded, and the unit's number, so
/// that they end before `text[at]`. Returns the index of the first space.
#[inline(always)]
fn put_unit(text: &mut [u8], at: usize, unit: Unit, ok: bool) -> usize
    requires room { 20 ≤ at }
    requires within { at ≤ length text.old }
    ensures room { at ≤ result + 20 }
    ensures within { result ≤ at }
    ensures text { drop result text.new ≡ spaced (command_name unit ok) (drop at text.old) }
{
    match (unit, ok) {
        (Unit::Node(node), true) => put_named(text, at, b" set", node.0),
        (Unit::Node(node), false) => put_named(text, at, b" fail", node.0),
        (Unit::Line(reset), true) => put_named(text, at, b" line", reset.0),
        (Unit::Line(reset), false) => put_named(text, at, b" linefail", reset.0),
    }
}

/// Writes a name, a space and a number so that they end before `text[at]`. Returns the index of the name's first
/// byte.
#[inline(always)]
fn put_named<const N: usize>(text: &mut [u8], at: usize, name: &[u8; N], number: u32) -> usize
    requires short { N ≤ 9 }
    requires room { 20 ≤ at }
    requires within { at ≤ length text.old }
    ensures room { at ≤ result + 20 }
    ensures within { result ≤ at }
    ensures text { drop result text.new ≡ name.now ++ 32 ∷ (decimal number ++ drop at text.old) }
{
    let at = put_number(text, at, number);
    put_name(text, at, name)
}

/// Writes the words of a reply, each with a space before it, so that they end before `text[at]`. Returns the index of
/// the first space.
#[inline(always)]
pub(crate) fn reply_words(text: &mut [u8], at: usize, master: NodeId, response: &Response) -> usize
    requires room { 80 ≤ at }
    requires within { at ≤ length text.old }
    ensures room { at ≤ result + 80 }
    ensures within { result ≤ at }
    ensures text { drop result text.new ≡ spaced (step_words (told.Reply master response.now)) (drop at text.old) }
{
    let at = told_words(text, at, &response.words);
    let at = put_number(text, at, response.status);
    let at = put_number(text, at, master.0);
    put_name(text, at, b" reply")
}

/// Writes the three words that a reply tells, each with a space before it, so that they end before `text[at]`.
/// Returns the index of the first space. Most replies leave them at 0, which is written faster.
#[inline(always)]
fn told_words(text: &mut [u8], at: usize, words: &[u32; 3]) -> usize
    requires room { 33 ≤ at }
    requires within { at ≤ length text.old }
    ensures room { at ≤ result + 33 }
    ensures within { result ≤ at }
    ensures text { drop result text.new ≡ spaced (numbers words.now) (drop at text.old) }
{
    if words[0] == 0 && words[1] == 0 && words[2] == 0 {
        return put_name(text, at, b" 0 0 0");
    }
    let at = put_number(text, at, words[2]);
    let at = put_number(text, at, words[1]);
    put_number(text, at, words[0])
}

/// Writes the words of a dropped message, each with a space before it, so that they end before `text[at]`. Returns
/// the index of the first space.
fn drop_words(text: &mut [u8], at: usize, master: NodeId) -> usize
    requires room { 80 ≤ at }
    requires within { at ≤ length text.old }
    ensures room { at ≤ result + 80 }
    ensures within { result ≤ at }
    ensures text { drop result text.new ≡ spaced (step_words (told.Drop master)) (drop at text.old) }
{
    let at = put_number(text, at, master.0);
    put_name(text, at, b" drop")
}

/// Writes the words of a callback with this number and these arguments, each with a space before it, so that they end
/// before `text[at]`. Returns the index of the first space.
fn call_words(text: &mut [u8], at: usize, master: NodeId, id: u32, args: &[u32; 4]) -> usize
    requires room { 80 ≤ at }
    requires within { at ≤ length text.old }
    ensures room { at ≤ result + 80 }
    ensures within { result ≤ at }
    ensures text { drop result text.new
        ≡ spaced (step_words (told.Call (record { master = master; id = id; args = args.now }))) (drop at text.old) }
{
    let at = put_number(text, at, args[3]);
    let at = put_number(text, at, args[2]);
    let at = put_number(text, at, args[1]);
    let at = put_number(text, at, args[0]);
    let at = put_number(text, at, id);
    let at = put_number(text, at, master.0);
    put_name(text, at, b" call")
}
