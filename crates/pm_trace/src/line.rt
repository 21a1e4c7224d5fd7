//! A line of output, made of words. It is written from its end to its front, since a number's last digit is found
//! first.

ghost use Rattle.std.specs.Prelude.{◌≡◌, ◌+◌, ◌<◌, ◌≤◌, ◌++◌, ◌∷◌, [], length, drop, decimal};
ghost use Rattle.pm_trace.specs.declared.line.Word.TheVariants as word;
ghost use Rattle.pm_trace.specs.Line.{word_text, line_text, spaced, width, widths};

use itoa::{Buffer, write_digits};
use std::marker::Model;

/// The two digits of each number below 100.
static PAIRS: [u8; 200] =
    *b"00010203040506070809101112131415161718192021222324252627282930313233343536373839404142434445464748495051525354555657585960616263646566676869707172737475767778798081828384858687888990919293949596979899";

/// A line of output with its line feed. Contracts see its bytes.
///
/// It is made from its end to its front, as the digits of a number are found.
#[derive(Drop)]
pub struct TextLine {
    pub(crate) text: [u8; 128],
    pub(crate) start: usize,
}

impl Model for TextLine {
    ghost use Rattle.std.specs.Prelude.{◌≤◌, drop};
    ghost use Rattle.pm_trace.specs.Line.{LineBytes};

    ghost Value = { LineBytes };

    ghost view = { λ line. record { items = drop line.start line.text } };

    ghost invariant = { λ line. line.start ≤ 128 };
}

impl TextLine {
    /// An empty line.
    pub fn new() -> TextLine
        ensures { result.items ≡ [] }
    {
        TextLine {
            text: [0; 128],
            start: 128,
        }
    }

    /// The bytes of the line, at most 128.
    pub fn as_slice(&self) -> &[u8]
        ensures value { result.now ≡ self.now.items }
        ensures fits { length result.now ≤ 128 }
    {
        &self.text[self.start..]
    }

    /// Empties the line.
    pub fn clear(&mut self)
        ensures { self.new.items ≡ [] }
    {
        self.start = 128;
    }
}

/// A text that is part of the program. Contracts see its bytes.
#[derive(Drop)]
pub struct StaticText(&'static [u8]);

impl Model for StaticText {
    ghost use Rattle.std.specs.Prelude.{List, ℕ};

    ghost Value = { List ℕ };

    ghost view = { λ text. text.0.now };
}

impl StaticText {
    /// The bytes of the text.
    fn bytes(&self) -> &'static [u8]
        ensures { result.now ≡ self.now }
    {
        self.0
    }
}

/// A word of a line of output: a number or an address in decimal, a number that may be negative, or a name.
#[derive(Drop)]
pub enum Word {
    Number(u32),
    Address(u64),
    Signed(i32),
    Name(StaticText),
}

/// A name as a word.
pub fn name(text: &'static [u8]) -> Word
    ensures { result ≡ word.Name text.now }
{
    Word::Name(StaticText(text))
}

/// Writes into `line` these words, with one space between them and a line feed at the end. With it they have at most
/// 128 bytes.
#[tactic(auto, using(crate::proofs::LineLemmas::line_is))]
pub fn write_line(line: &mut TextLine, first: Word, rest: &[Word])
    requires room { widths (first ∷ rest.now) ≤ 127 }
    ensures { line.new.items ≡ line_text (first ∷ rest.now) }
{
    let at = put_words(&mut line.text, rest);
    line.start = put_word(&mut line.text, at, &first);
}

/// Writes words, each with a space before it, and the line feed at the very end of a line. Returns the index of the
/// first space.
fn put_words(text: &mut [u8; 128], words: &[Word]) -> usize
    requires room { widths words.now ≤ 127 }
    ensures room { 127 ≤ result + widths words.now }
    ensures within { result ≤ 127 }
    ensures text { drop result text.new ≡ spaced words.now (10 ∷ []) }
{
    match words {
        [] => put_feed(text),
        [word, rest @ ..] => {
            let at = put_words(text, rest);
            let at = put_word(text, at, word);
            put_space(text, at)
        }
    }
}

/// Writes a word so that it ends before `text[at]`. Returns the index of its first byte.
fn put_word(text: &mut [u8; 128], at: usize, word: &Word) -> usize
    requires room { width word.now ≤ at }
    requires within { at ≤ 128 }
    ensures room { at ≤ result + width word.now }
    ensures within { result ≤ at }
    ensures text { drop result text.new ≡ word_text word.now ++ drop at text.old }
{
    let mut buffer = Buffer::new();
    put_text(text, at, text_of(word, &mut buffer))
}

/// Writes bytes so that they end before `text[at]`. Returns the index of the first one.
#[inline(always)]
fn put_text(text: &mut [u8], at: usize, bytes: &[u8]) -> usize
    requires room { length bytes.now ≤ at }
    requires within { at ≤ length text.old }
    ensures room { result + length bytes.now ≡ at }
    ensures text { drop result text.new ≡ bytes.now ++ drop at text.old }
{
    let from = at - bytes.len();
    text[from..at].copy_from_slice(bytes);
    from
}

/// Writes the line feed at the very end of a line. Returns its index.
pub(crate) fn put_feed(text: &mut [u8; 128]) -> usize
    ensures at { result ≡ 127 }
    ensures text { drop result text.new ≡ 10 ∷ [] }
{
    text[127] = b'\n';
    127
}

/// Writes a byte before `text[at]`. Returns its index.
#[inline(always)]
pub(crate) fn put_byte(text: &mut [u8], at: usize, byte: u8) -> usize
    requires room { 1 ≤ at }
    requires within { at ≤ length text.old }
    ensures room { result + 1 ≡ at }
    ensures text { drop result text.new ≡ byte ∷ drop at text.old }
{
    text[at - 1] = byte;
    at - 1
}

/// Writes a space before `text[at]`. Returns its index.
#[inline(always)]
fn put_space(text: &mut [u8], at: usize) -> usize
    requires room { 1 ≤ at }
    requires within { at ≤ length text.old }
    ensures room { result + 1 ≡ at }
    ensures text { drop result text.new ≡ 32 ∷ drop at text.old }
{
    put_byte(text, at, b' ')
}

/// Writes a space and a number so that they end before `text[at]`. Returns the index of the space.
#[inline(always)]
pub(crate) fn put_number(text: &mut [u8], at: usize, n: u32) -> usize
    requires room { 11 ≤ at }
    requires within { at ≤ length text.old }
    ensures room { at ≤ result + 11 }
    ensures within { result ≤ at }
    ensures text { drop result text.new ≡ 32 ∷ (decimal n ++ drop at text.old) }
{
    let at = put_digits(text, at, n);
    put_space(text, at)
}

/// Writes a space and an address so that they end before `text[at]`. Returns the index of the space.
pub(crate) fn put_address(text: &mut [u8], at: usize, address: u64) -> usize
    requires room { 21 ≤ at }
    requires within { at ≤ length text.old }
    ensures room { at ≤ result + 21 }
    ensures within { result ≤ at }
    ensures text { drop result text.new ≡ 32 ∷ (decimal address ++ drop at text.old) }
{
    let at = write_digits(address, text, at);
    put_space(text, at)
}

/// Writes the digits of a number so that they end before `text[at]`. Returns the index of the first one.
#[inline(always)]
pub(crate) fn put_digits(text: &mut [u8], at: usize, n: u32) -> usize
    requires room { 10 ≤ at }
    requires within { at ≤ length text.old }
    ensures room { at ≤ result + 10 }
    ensures within { result ≤ at }
    ensures text { drop result text.new ≡ decimal n ++ drop at text.old }
{
    if n < 10 {
        put_byte(text, at, b'0' + n as u8)
    } else if n < 100 {
        put_pair(text, at, n)
    } else {
        put_many(text, at, n)
    }
}

/// As `put_digits`, for a number of two digits.
#[inline(always)]
fn put_pair(text: &mut [u8], at: usize, n: u32) -> usize
    requires from { 10 ≤ n }
    requires to { n < 100 }
    requires room { 2 ≤ at }
    requires within { at ≤ length text.old }
    ensures room { result + 2 ≡ at }
    ensures text { drop result text.new ≡ decimal n ++ drop at text.old }
{
    let pair = 2 * n as usize;
    let at = put_byte(text, at, PAIRS[pair + 1]);
    put_byte(text, at, PAIRS[pair])
}

/// As `put_digits`, for a number of three digits or more.
#[inline(never)]
fn put_many(text: &mut [u8], at: usize, n: u32) -> usize
    requires room { 10 ≤ at }
    requires within { at ≤ length text.old }
    ensures room { at ≤ result + 10 }
    ensures within { result ≤ at }
    ensures text { drop result text.new ≡ decimal n ++ drop at text.old }
{
    write_digits(n as u64, text, at)
}

/// Writes a name so that it ends before `text[at]`. Returns the index of its first byte.
#[inline(always)]
pub(crate) fn put_name<const N: usize>(text: &mut [u8], at: usize, name: &[u8; N]) -> usize
    requires room { N ≤ at }
    requires within { at ≤ length text.old }
    ensures room { result + N ≡ at }
    ensures text { drop result text.new ≡ name.now ++ drop at text.old }
{
    let from = at - N;
    let mut left = N;
    while left > 0 {
        left -= 1;
        text[from + left] = name[left];
    }
    from
}

/// The bytes of a word. A number's digits are written into `buffer`.
pub(crate) fn text_of<'a>(word: &Word, buffer: &'a mut Buffer) -> &'a [u8]
    ensures text { result.now ≡ word_text word.now }
    ensures short { length result.now ≤ width word.now }
{
    match word {
        Word::Number(n) => buffer.format(*n).as_bytes(),
        Word::Address(address) => buffer.format(*address).as_bytes(),
        Word::Signed(code) => buffer.format(*code).as_bytes(),
        Word::Name(text) => text.bytes(),
    }
}
