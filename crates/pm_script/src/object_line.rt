//! The line that attaches words of a configuration object: the one line that has any number of words.

ghost use Rattle.std.specs.Prelude.{◌≡◌, ◌≤◌, None, Some, drop, length, map};
ghost use Rattle.pm_io.specs.Words.{text_between, words_from, word_texts};
ghost use Rattle.pm_script.specs.Meaning.{left};
ghost use Rattle.pm_script.specs.ObjectLine.{attach_event, numbers_of, object_meaning};
ghost use Rattle.pm_script.specs.Sentences.{number_of_word};

use crate::meaning::LineFault;
use crate::words::LineWords;
use pm_base::{Event, Words};
use pm_io::number;
use pm_io::words::is_blank;

/// Leaves what a line means whose first word is `object`: the words after the address are attached at it.
pub(crate) fn read_object(words: &LineWords, event: &mut Event) -> Result<(), LineFault>
    requires { length words.now ≤ 255 }
    ensures { left result event.new ≡ object_meaning (drop 1 (word_texts words.now)) }
{
    match words.numbers() {
        Some(numbers) => attach(&numbers, event),
        None => Err(LineFault::Number),
    }
}

/// The words after the first number are attached at it.
fn attach(numbers: &Words, event: &mut Event) -> Result<(), LineFault>
    ensures { left result event.new ≡ attach_event (Some numbers.now) }
{
    if numbers.len() == 0 {
        return Err(LineFault::Count);
    }
    *event = Event::Attach {
        address: *numbers.get(0),
        words: after_first(numbers),
    };
    Ok(())
}

/// All of these words but the first.
fn after_first(numbers: &Words) -> Words
    ensures { result ≡ drop 1 numbers.now }
{
    let mut words = Words::new();
    for k in 1..numbers.len() {
        words.push(*numbers.get(k));
    }
    words
}

/// The numbers that the words of a line from a place on are, if each of them is one that fits 32 bits. They stand in the
/// text at the front of the line.
pub(crate) fn numbers_from(line: &[u8], text: &[u8], from: usize) -> Option<Words>
    requires front { length text.now ≤ length line.now }
    requires short { length text.now ≤ 255 }
    requires within { from ≤ length text.now }
    ensures { result ≡ numbers_of (map (text_between line.now) (words_from None from (drop from text.now))) }
{
    let mut numbers = Words::new();
    let mut start = None;
    'bytes: for at in from..text.len() {
        let byte = text[at];
        match start {
            None if is_blank(byte) => {}
            None if byte == b'#' => return Some(numbers),
            None => start = Some(at),
            Some(first) if is_blank(byte) => {
                numbers.push(number_of_word(&line[first..at])?);
                start = None;
            }
            Some(_) => {}
        }
    }
    if let Some(first) = start {
        numbers.push(number_of_word(&line[first..text.len()])?);
    }
    Some(numbers)
}

/// The number of a word, if it is one that fits 32 bits.
fn number_of_word(word: &[u8]) -> Option<u32>
    ensures { result ≡ number_of_word word.now }
{
    Some(number(word, u32::MAX.into())? as u32)
}
