//! What a line of a text says.

ghost use Rattle.std.specs.Prelude.{◌≡◌, slice_get, drop};
ghost use Rattle.std.specs.Option.{option_map};
ghost use Rattle.pm_io.specs.Words.{word_texts};
ghost use Rattle.pm_objtext.specs.Reading.{number, numbers, keyword_of, section_of, opening, master_of, slave_of, group_of, preset_of, pair_of, config_of, gpo_of, record_of, keyword_item, words_item, item_of};

use crate::item::{Item, Numbers};
use crate::names::{ALL_KEYWORDS, ALL_SECTIONS, Keyword, keyword_text, section_text};
use pm_io::{is_readable, number, word_text};
use pm_object::{MasterRec, Pair, PreRec, Section, SlaveRec};

/// The number of 32 bits that a word is, if it is one.
fn number_at(word: &[u8]) -> Option<u32>
    ensures { result ≡ number word.now }
{
    number(word, u64::from(u32::MAX)).map(|n| n as u32)
}

/// The words after the first one as numbers, if there are at most 16.
fn numbers_after(line: &[u8]) -> Option<Numbers>
    ensures { option_map (λ numbers. numbers.items) result ≡ numbers (drop 1 (word_texts line.now)) }
{
    let mut numbers = Numbers::new();
    let mut k = 1;
    'words: while let Some(word) = word_text(line, k) {
        if numbers.is_full() {
            return None;
        }
        numbers.push(number_at(word)?);
        k += 1;
    }
    Some(numbers)
}

/// The keyword that a word is, if it is one.
fn keyword_of(word: &[u8]) -> Option<Keyword>
    ensures { result ≡ keyword_of word.now }
{
    ALL_KEYWORDS
        .iter()
        .copied()
        .find(|keyword| keyword_text(*keyword) == word)
}

/// The section that a word names, if it does.
fn section_of(word: &[u8]) -> Option<Section>
    ensures { result ≡ section_of word.now }
{
    ALL_SECTIONS
        .iter()
        .copied()
        .find(|section| section_text(*section) == word)
}

/// The section that a line opens, if it has the name of one and nothing else.
fn opening(line: &[u8]) -> Option<Item>
    ensures { result ≡ opening (slice_get (word_texts line.now) 1) (slice_get (word_texts line.now) 2) }
{
    let name = word_text(line, 1)?;
    if word_text(line, 2).is_some() {
        return None;
    }
    section_of(name).map(Item::Opens)
}

/// A master of these numbers: node, mask, timeout, suspend word, wake word.
fn master_of(numbers: &[u32]) -> Option<Item>
    ensures { result ≡ master_of numbers.now }
{
    let [node, mask, timeout, suspend, wake] = *numbers else {
        return None;
    };
    Some(Item::Master(MasterRec {
        node,
        mask,
        timeout,
        suspend,
        wake,
    }))
}

/// A slave record of these numbers: node, flags, mask.
fn slave_of(numbers: &[u32]) -> Option<Item>
    ensures { result ≡ slave_of numbers.now }
{
    let [node, flags, mask] = *numbers else {
        return None;
    };
    Some(Item::Slave(SlaveRec { node, flags, mask }))
}

/// The mask of a preallocation group.
fn group_of(numbers: &[u32]) -> Option<Item>
    ensures { result ≡ group_of numbers.now }
{
    let [mask] = *numbers else {
        return None;
    };
    Some(Item::Group(mask))
}

/// A preallocation record of these numbers: node, flags, current capabilities, preset.
fn preset_of(numbers: &[u32]) -> Option<Item>
    ensures { result ≡ preset_of numbers.now }
{
    let [node, flags, current, preset] = *numbers else {
        return None;
    };
    Some(Item::Prefer(PreRec {
        node,
        flags,
        current,
        preset,
    }))
}

/// A power, reset or shutdown record of these numbers: node, line or subtype, and mask.
fn pair_of(numbers: &[u32]) -> Option<Pair>
    ensures { result ≡ pair_of numbers.now }
{
    let [key, mask] = *numbers else {
        return None;
    };
    Some(Pair { key, mask })
}

/// A set-configuration record of these numbers: base mask, overlay mask.
fn config_of(numbers: &[u32]) -> Option<Item>
    ensures { result ≡ config_of numbers.now }
{
    let [base, overlay] = *numbers else {
        return None;
    };
    Some(Item::Config(base, overlay))
}

/// The word of a GPO section.
fn gpo_of(numbers: &[u32]) -> Option<Item>
    ensures { result ≡ gpo_of numbers.now }
{
    let [word] = *numbers else {
        return None;
    };
    Some(Item::Gpo(word))
}

/// What a line with this keyword and these numbers says, if it has as many as it takes.
fn record_of(keyword: Keyword, numbers: Numbers) -> Option<Item>
    ensures { result ≡ record_of keyword numbers.items }
{
    let words = numbers.as_slice();
    match keyword {
        Keyword::Header => Some(Item::Header(numbers)),
        Keyword::Section => None,
        Keyword::Master => master_of(words),
        Keyword::Slave => slave_of(words),
        Keyword::Group => group_of(words),
        Keyword::Prefer => preset_of(words),
        Keyword::Power => pair_of(words).map(Item::Power),
        Keyword::Reset => pair_of(words).map(Item::Reset),
        Keyword::Shutdown => pair_of(words).map(Item::Shutdown),
        Keyword::Config => config_of(words),
        Keyword::Gpo => gpo_of(words),
    }
}

/// What a line with this keyword says, if it has the right words.
fn keyword_item(keyword: Keyword, line: &[u8]) -> Option<Item>
    ensures { result ≡ keyword_item keyword (word_texts line.now) }
{
    match keyword {
        Keyword::Section => opening(line),
        _ => record_of(keyword, numbers_after(line)?),
    }
}

/// What a line says; `None` if it is too long, isn't ASCII, or has an unknown word, a wrong
/// count or a bad number.
#[tactic(auto, unfolding(crate::specs::Reading::item_of))]
pub fn item_of(line: &[u8]) -> Option<Item>
    ensures { result ≡ item_of line.now }
{
    if !is_readable(line) {
        return None;
    }
    let Some(first) = word_text(line, 0) else {
        return Some(Item::Empty);
    };
    keyword_item(keyword_of(first)?, line)
}
