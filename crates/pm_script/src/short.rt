//! Lines of a keyword and short decimal numbers between single blanks, as most lines of a script are, and comments: each
//! byte of such a line is looked at once, and so its line feed is found. Any other line is left to the general way.

ghost use Rattle.std.specs.Prelude.{◌≡◌, ◌≢◌, ◌+◌, ◌*◌, ◌^◌, ◌<◌, ◌≤◌, ◌==◌, ◌&&◌, ◌∷◌, ◌++◌, [], true, drop, get_or, length, nat_le, position, take, IfSome, IsTrue, Some, Ok};
ghost use Rattle.std.specs.Char.{is_digit, digit_value};
ghost use Rattle.pm_script.specs.Meaning.{meaning};
ghost use Rattle.pm_script.specs.ObjectLine.{numbers_of};
ghost use Rattle.pm_script.specs.Short.{EndsPlain, IsMeant, MeansPlain, StandsAt, first_line, keyword_of, message_of_numbers, words_after};

use crate::forms::Kind;
use crate::meaning::leave_nothing;
use pm_base::{Event, Message, NodeId};
use pm_io::TOO_LONG;
use std::marker::Model;

/// A number below it has room for one more decimal digit in 32 bits.
const SHORT_END: u32 = 400_000_000;

/// The numbers of a short line, at most seven. Contracts see those that were put.
#[derive(Drop)]
struct Numbers {
    numbers: [u32; 7],
    count: usize,
}

impl Model for Numbers {
    ghost use Rattle.std.specs.Prelude.{◌≡◌, ◌≤◌, List, ℕ, get_or, take};

    ghost Value = { List ℕ };

    ghost view = { λ held. take held.count held.numbers };

    ghost invariant = { λ held. (held.count ≤ 7) × ((k : ℕ) → held.count ≤ k → get_or held.numbers k 0 ≡ 0) };
}

impl Numbers {
    /// No numbers.
    fn new() -> Numbers
        ensures { result ≡ [] }
    {
        Numbers {
            numbers: [0; 7],
            count: 0,
        }
    }

    /// Puts a number at the end, which is place `k`.
    fn put(&mut self, k: usize, number: u32)
        requires end { k ≡ length self.old }
        requires room { k < 7 }
        ensures { self.new ≡ self.old ++ number ∷ [] }
    {
        self.numbers[k] = number;
        self.count = k + 1;
    }

    /// How many numbers there are.
    fn len(&self) -> usize
        ensures { result ≡ length self.now }
    {
        self.count
    }

    /// The number at a place. A missing one is 0.
    fn at(&self, k: usize) -> u32
        requires { k < 7 }
        ensures { result ≡ get_or self.now k 0 }
    {
        self.numbers[k]
    }
}

/// A short number, the place of the byte behind it, and whether that is a line feed: else it is a blank.
#[derive(Clone, Copy)]
struct ShortNumber {
    number: u32,
    end: usize,
    is_last: bool,
}

/// Leaves what the first line of a text means, if it is a short line or a comment that ends at a line feed. The answer is
/// the place of that line feed. If it is none the event may be any, and the line may still have a meaning.
#[inline(always)]
pub fn read_first(text: &[u8], event: &mut Event) -> Option<usize>
    ensures feed { IfSome result (λ feed. position (λ byte. byte == 10) text.now ≡ Some feed) }
    ensures means { IfSome result (λ feed. meaning (take feed text.now) ≡ Ok event.new) }
{
    let feed = read_short(text, event)?;
    if feed < TOO_LONG { Some(feed) } else { None }
}

/// Leaves what the first line of a text means, if it is a short line or a comment, of any length.
#[inline(always)]
fn read_short(text: &[u8], event: &mut Event) -> Option<usize>
    ensures { IfSome result (λ feed. MeansPlain text.now feed event.new) }
{
    if is_message(text) {
        read_numbers(Kind::Ipi, text, 4, event)
    } else {
        read_other(text, event)
    }
}

/// Whether a text begins with the keyword of a message and a blank. Most lines are messages.
fn is_message(text: &[u8]) -> bool
    ensures { IsTrue result → text.now ≡ keyword_of Kind.Ipi ++ 32 ∷ drop 4 text.now }
{
    matches!(text, [b'i', b'p', b'i', b' ', ..])
}

/// Leaves what the first line of a text means, if it is a short line of another kind or a comment.
#[inline(never)]
fn read_other(text: &[u8], event: &mut Event) -> Option<usize>
    ensures { IfSome result (λ feed. MeansPlain text.now feed event.new) }
{
    match kind_of(text) {
        Some((kind, from)) => read_numbers(kind, text, from, event),
        None => read_comment(text, event),
    }
}

/// The kind of a line that begins with its keyword and a blank, and where its arguments begin. The kinds that are most
/// beside messages are known here.
fn kind_of(text: &[u8]) -> Option<(Kind, usize)>
    ensures from { IfSome result (λ found. found.1 ≡ length (keyword_of found.0) + 1) }
    ensures text { IfSome result (λ found. text.now ≡ keyword_of found.0 ++ 32 ∷ drop found.1 text.now) }
{
    match text {
        [b'w', b'f', b'i', b' ', _, ..] => Some((Kind::Wfi, 4)),
        [b'i', b'r', b'q', b' ', _, ..] => Some((Kind::Irq, 4)),
        [b'g', b'i', b'c', b' ', _, ..] => Some((Kind::Gic, 4)),
        [b't', b'i', b'c', b'k', b' ', ..] => Some((Kind::Tick, 5)),
        [b'b', b'o', b'o', b't', b' ', ..] => Some((Kind::Boot, 5)),
        _ => None,
    }
}

/// Leaves what the first line of a text means that begins with the keyword of a kind and a blank, if short numbers
/// follow from there on up to a line feed.
#[inline(always)]
fn read_numbers(kind: Kind, text: &[u8], from: usize, event: &mut Event) -> Option<usize>
    requires from { from ≡ length (keyword_of kind) + 1 }
    requires text { text.now ≡ keyword_of kind ++ 32 ∷ drop from text.now }
    ensures { IfSome result (λ feed. MeansPlain text.now feed event.new) }
{
    let mut numbers = Numbers::new();
    let feed = find_numbers(text, from, &mut numbers)?;
    if leave(kind, &numbers, event) {
        Some(feed)
    } else {
        None
    }
}

/// Finds the numbers that stand in a text from a place on up to the next line feed, if they are one to seven short ones.
/// The answer is the place of that line feed.
#[inline(always)]
fn find_numbers(text: &[u8], from: usize, numbers: &mut Numbers) -> Option<usize>
    requires within { from ≤ length (first_line text.now) }
    requires none { numbers.old ≡ [] }
    ensures ends { IfSome result (λ feed. EndsPlain text.now from feed) }
    ensures numbers { IfSome result (λ feed. numbers_of (words_after (first_line text.now) from) ≡ Some numbers.new) }
{
    let mut at = from;
    'words: for k in 0..7_usize {
        let word = short_number(text, at)?;
        numbers.put(k, word.number);
        if word.is_last {
            return Some(word.end);
        }
        at = word.end + 1;
    }
    None
}

/// The number of the decimal digits that stand in a text from a place on, up to a blank or a line feed.
#[inline(always)]
fn short_number(text: &[u8], from: usize) -> Option<ShortNumber>
    requires { from ≤ length (first_line text.now) }
    ensures { IfSome result (λ word. StandsAt text.now from word) }
{
    if from >= text.len() {
        return None;
    }
    let mut number = with_digit(0, text[from])?;
    'digits: for at in from + 1..text.len() {
        match text[at] {
            b' ' => return Some(ShortNumber {
                number,
                end: at,
                is_last: false,
            }),
            b'\n' => return Some(ShortNumber {
                number,
                end: at,
                is_last: true,
            }),
            byte => number = with_digit(number, byte)?,
        }
    }
    None
}

/// A number with one more digit, if that is one and there is room for it.
fn with_digit(value: u32, byte: u8) -> Option<u32>
    ensures digit { IfSome result (λ more. is_digit byte 10 ≡ true) }
    ensures solid { IfSome result (λ more. (nat_le 33 byte && nat_le byte 126) ≡ true) }
    ensures sign { IfSome result (λ more. byte ≢ 35) }
    ensures value { IfSome result (λ more. more ≡ value * 10 + digit_value byte) }
    ensures fits { IfSome result (λ more. more < 2 ^ 32) }
{
    match byte {
        b'0'..=b'9' if value < SHORT_END => Some(value * 10 + u32::from(byte - b'0')),
        _ => None,
    }
}

/// Leaves `Pass` if a text begins with a comment up to a line feed, and answers the place of that line feed.
fn read_comment(text: &[u8], event: &mut Event) -> Option<usize>
    ensures { IfSome result (λ feed. MeansPlain text.now feed event.new) }
{
    match text {
        [b'#', ..] => {
            let feed = plain_end(text)?;
            leave_nothing(event);
            Some(feed)
        }
        _ => None,
    }
}

/// The place of the first line feed of a text, if all bytes before it are printable ASCII.
fn plain_end(text: &[u8]) -> Option<usize>
    ensures { IfSome result (λ feed. EndsPlain text.now 0 feed) }
{
    'bytes: for at in 0..text.len() {
        if !is_printable(text[at]) {
            return feed_at(text[at], at);
        }
    }
    None
}

/// Whether a byte is printable ASCII.
fn is_printable(byte: u8) -> bool
    ensures { result ≡ (nat_le 32 byte && nat_le byte 126) }
{
    matches!(byte, b' '..=b'~')
}

/// The place of a byte, if it is a line feed.
fn feed_at(byte: u8, at: usize) -> Option<usize>
    ensures { IfSome result (λ feed. (byte ≡ 10) × (feed ≡ at)) }
{
    if byte == b'\n' { Some(at) } else { None }
}

/// Leaves what a line of a kind means with these numbers after its keyword. The answer is whether it has as many as its
/// kind takes.
#[inline(always)]
fn leave(kind: Kind, numbers: &Numbers, event: &mut Event) -> bool
    ensures { IsTrue result → IsMeant kind numbers.now event.new }
{
    match (kind, numbers.len()) {
        (Kind::Ipi, 2..=7) => leave_message(numbers, event),
        (Kind::Wfi, 1) => *event = Event::Wfi {
            proc: NodeId(numbers.at(0)),
        },
        (Kind::Irq, 1) => *event = Event::Irq {
            slave: NodeId(numbers.at(0)),
        },
        (Kind::Gic, 1) => *event = Event::Gic {
            proc: NodeId(numbers.at(0)),
        },
        (Kind::Tick, 1) => *event = Event::Tick {
            count: numbers.at(0),
        },
        (Kind::Boot, 2) => *event = Event::Boot {
            proc: NodeId(numbers.at(0)),
            address: u64::from(numbers.at(1)),
        },
        _ => return false,
    }
    true
}

/// Leaves the message of these numbers. If a message was left before, its words are written over.
fn leave_message(numbers: &Numbers, event: &mut Event)
    ensures { event.new ≡ Event.Ipi (record { 0 = get_or numbers.now 0 0 }) (message_of_numbers numbers.now) }
{
    let sender = NodeId(numbers.at(0));
    let sent = Message {
        api: numbers.at(1),
        args: [
            numbers.at(2),
            numbers.at(3),
            numbers.at(4),
            numbers.at(5),
            numbers.at(6),
        ],
    };
    match event {
        Event::Ipi { master, message } => {
            *master = sender;
            *message = sent;
        }
        _ => *event = Event::Ipi {
            master: sender,
            message: sent,
        },
    }
}
