//! The words of a line, the same for every text and script of the project.

ghost use Rattle.std.specs.Prelude.{◌≡◌, slice_get, option_copied};
ghost use Rattle.pm_io.specs.Words.{is_blank, words_from, words, word_texts};

use crate::lines::without_return;

/// The `k`-th word of a line, counted from 0: its first place and the place after its end.
///
/// Words are separated by spaces and tabs. A word that begins with `#` begins a comment to the
/// line's end, which is no word. One carriage return at the line's end is no part of a word. `None`
/// comes exactly if the line has no more than `k` words. It takes no memory.
#[tactic(auto, unfolding(crate::specs::Words::words))]
pub fn word(line: &[u8], k: usize) -> Option<(usize, usize)>
    ensures { result ≡ slice_get (words line.now) k }
{
    word_of(without_return(line), k)
}

/// The bytes of the `k`-th word of a line, counted from 0, as `word` finds it.
#[tactic(auto, using(crate::proofs::WordTexts::word_within, crate::proofs::WordTexts::word_text_at, crate::proofs::WordTexts::no_word_text))]
pub fn word_text(line: &[u8], k: usize) -> Option<&[u8]>
    ensures { option_copied result ≡ slice_get (word_texts line.now) k }
{
    let (start, end) = word(line, k)?;
    Some(&line[start..end])
}

/// `word` of a line without its carriage return: the first place of the `k`-th word and the place after its end.
fn word_of(text: &[u8], k: usize) -> Option<(usize, usize)>
    ensures { result ≡ slice_get (words_from None 0 text.now) k }
{
    let mut start = None;
    let mut left = k;
    'bytes: for (at, &byte) in text.iter().enumerate() {
        match start {
            None if is_blank(byte) => {}
            None if byte == b'#' => return None,
            None => start = Some(at),
            Some(first) if is_blank(byte) => {
                if left == 0 {
                    return Some((first, at));
                }
                left -= 1;
                start = None;
            }
            Some(_) => {}
        }
    }
    match start {
        Some(first) if left == 0 => Some((first, text.len())),
        _ => None,
    }
}

/// Whether a byte parts two words: a space or a tab.
#[tactic(auto, unfolding(crate::specs::Words::is_blank))]
pub fn is_blank(byte: u8) -> bool
    ensures { result ≡ is_blank byte }
{
    byte == b' ' || byte == b'\t'
}
