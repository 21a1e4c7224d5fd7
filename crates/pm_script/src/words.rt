//! The words of a line, found in one pass.

ghost use Rattle.std.specs.Prelude.{◌≡◌, ◌↔◌, ◌<◌, ◌≤◌, ◌-◌, ◌&&◌, ℕ, true, false, [], ◌∷◌, drop, get_or, length};
ghost use Rattle.std.specs.Prelude.{nat_le, slice_get, take, option_copied, option_map, IfSome, IsTrue, MatchOption, None, Some};
ghost use Rattle.std.specs.List.{list_all};
ghost use Rattle.pm_io.specs.Lines.{is_plain};
ghost use Rattle.pm_io.specs.Words.{is_blank, words, words_from, word_texts};
ghost use Rattle.pm_script.specs.Forms.{arguments_of};
ghost use Rattle.pm_script.specs.ObjectLine.{numbers_of};

use crate::forms::{Argument, Width, argument_of};
use crate::object_line::numbers_from;
use arrayvec::ArrayVec;
use pm_base::Words;
use pm_io::words::is_blank;
use pm_io::{is_plain, without_return};
use std::marker::Model;

/// The places of words: the first of each, and the place after its end.
pub(crate) type Places = ArrayVec<(usize, usize), 9>;

/// The arguments of a line. No form has more than seven.
pub(crate) type Arguments = ArrayVec<Argument, 7>;

/// A line with the places of its first nine words, one more than the most that a line with a meaning has.
/// Contracts see the line.
#[derive(Drop)]
pub(crate) struct LineWords<'a> {
    line: &'a [u8],
    places: &'a Places,
}

impl<'a> Model for LineWords<'a> {
    ghost use Rattle.std.specs.Prelude.{◌≡◌, List, ℕ, take};
    ghost use Rattle.pm_io.specs.Words.{words};

    ghost Value = { List ℕ };

    ghost view = { λ found. found.line.now };

    ghost invariant = { λ found. found.places.now.items ≡ take 9 (words found.line.now) };
}

impl<'a> LineWords<'a> {
    /// A line with the places of its first nine words.
    pub fn of(line: &'a [u8], places: &'a Places) -> LineWords<'a>
        requires { places.now.items ≡ take 9 (words line.now) }
        ensures { result ≡ line.now }
    {
        LineWords { line, places }
    }

    /// Whether `least` to `most` words follow the first word.
    pub fn has_arguments(&self, least: usize, most: usize) -> bool
        requires { most ≤ 7 }
        ensures { IsTrue result ↔ ((least ≤ length (words self.now) - 1) × (length (words self.now) - 1 ≤ most)) }
    {
        let count = self.places.len().saturating_sub(1);
        least <= count && count <= most
    }

    /// The word at place `k`.
    #[tactic(auto, using(crate::proofs::WordsLemmas::within_line))]
    pub fn text_at(&self, k: usize) -> Option<&[u8]>
        requires { k < 9 }
        ensures { option_copied result ≡ slice_get (word_texts self.now) k }
    {
        let (start, end) = self.place_at(k)?;
        Some(&self.line[start..end])
    }

    /// The place of the word at place `k`.
    fn place_at(&self, k: usize) -> Option<(usize, usize)>
        requires { k < 9 }
        ensures { result ≡ slice_get (words self.now) k }
    {
        self.places.get(k).copied()
    }

    /// The arguments after the first word, each by its width, if every one is a number of its width. A word without a
    /// width is none.
    pub fn arguments(&self, widths: &[Width]) -> Option<Arguments>
        requires { length widths.now ≤ 7 }
        ensures { option_map (λ found. found.items) result ≡ arguments_of widths.now (drop 1 (word_texts self.now)) }
    {
        let mut arguments = Arguments::new();
        'widths: for (place, &width) in widths.iter().enumerate() {
            let Some(text) = self.text_at(place + 1) else {
                return Some(arguments);
            };
            arguments.push(argument_of(width, text)?);
        }
        Some(arguments)
    }

    /// The numbers that the words after the first are, if each of them is one that fits 32 bits.
    pub fn numbers(&self) -> Option<Words>
        requires { length self.now ≤ 255 }
        ensures { result ≡ numbers_of (drop 1 (word_texts self.now)) }
    {
        match self.place_at(0) {
            Some((_, end)) => numbers_from(self.line, without_return(self.line), end),
            None => Some(Words::new()),
        }
    }
}

/// Finds the places of the first nine words of a text. The answer is whether all its bytes are plain: if one isn't, the
/// places may be any.
pub(crate) fn first_places(text: &[u8], places: &mut Places) -> bool
    requires { places.old.items ≡ [] }
    ensures plain { result ≡ list_all is_plain text.now }
    ensures places { IsTrue result → places.new.items ≡ take 9 (words_from None 0 text.now) }
{
    let mut at = 0;
    'words: for _ in 0..9_usize {
        let Some(place) = next_word(text, at) else {
            return is_plain_from(text, at);
        };
        places.push(place);
        at = place.1;
    }
    is_plain_from(text, at)
}

/// Whether all bytes of a text from a place on are plain.
fn is_plain_from(text: &[u8], from: usize) -> bool
    requires { from ≤ length text.now }
    ensures { result ≡ list_all is_plain (drop from text.now) }
{
    is_plain(&text[from..])
}

/// The place of the next word of a text from a place on, up to a byte that isn't plain. There is none where the text
/// ends, or a comment or such a byte comes first.
fn next_word(text: &[u8], from: usize) -> Option<(usize, usize)>
    requires { from ≤ length text.now }
    ensures within { IfSome result (λ place. place.1 ≤ length text.now) }
    ensures plain { IfSome result
        (λ place. list_all is_plain (drop place.1 text.now) ≡ list_all is_plain (drop from text.now)) }
    ensures word { list_all is_plain (drop from text.now) ≡ true
        → MatchOption result (words_from None from (drop from text.now) ≡ [])
        (λ place. words_from None from (drop from text.now) ≡ place ∷ words_from None place.1 (drop place.1 text.now)) }
{
    let start = blanks_end(text, from);
    if start == text.len() || text[start] == b'#' || !is_solid(text[start]) {
        return None;
    }
    Some((start, word_end(text, start + 1)))
}

/// The place after the blanks that stand in a text from a place on.
fn blanks_end(text: &[u8], from: usize) -> usize
    requires { from ≤ length text.now }
    ensures within { result ≤ length text.now }
    ensures plain { list_all is_plain (drop result text.now) ≡ list_all is_plain (drop from text.now) }
    ensures words { words_from None result (drop result text.now) ≡ words_from None from (drop from text.now) }
    ensures stops { result < length text.now → is_blank (get_or text.now result 0) ≡ false }
{
    'bytes: for at in from..text.len() {
        if !is_blank(text[at]) {
            return at;
        }
    }
    text.len()
}

/// The place after the end of a word that has begun before a place of a text, up to a byte that isn't plain.
fn word_end(text: &[u8], from: usize) -> usize
    requires { from ≤ length text.now }
    ensures within { result ≤ length text.now }
    ensures plain { list_all is_plain (drop result text.now) ≡ list_all is_plain (drop from text.now) }
    ensures word { (start : ℕ) → list_all is_plain (drop result text.now) ≡ true
        → words_from (Some start) from (drop from text.now)
        ≡ (start, result) ∷ words_from None result (drop result text.now) }
{
    'bytes: for at in from..text.len() {
        if !is_solid(text[at]) {
            return at;
        }
    }
    text.len()
}

/// Whether a byte is plain and no blank.
fn is_solid(byte: u8) -> bool
    ensures { result ≡ (nat_le 33 byte && nat_le byte 126) }
{
    matches!(byte, b'!'..=b'~')
}
