//! What a line of a topology's text says.

ghost use Rattle.std.specs.Prelude.{◌≡◌, ◌≤◌, length, drop};
ghost use Rattle.std.specs.Option.{option_map};
ghost use Rattle.pm_io.specs.Numbers.{greatest_number, numbers_in};
ghost use Rattle.pm_io.specs.Words.{word_texts};
ghost use Rattle.pm_topofile.specs.Reading.{number, number_at, node_in, node_at, optional_in, optional_at, flag_at, power_with, proc_with, slave_with, state_with, line_with, owner_with, form_item, keyword_of, has_count, keyword_item, item_of};
ghost use Rattle.pm_topofile.specs.Table.{greatest_caps};

use crate::item::{Item, Members, PowerLine, ProcLine, SlaveLine};
use crate::table::{
    ALL_KEYWORDS, GREATEST, GREATEST_CAPS, GREATEST_FLAG, Keyword, keyword_text, least_words,
    most_words,
};
use pm_base::{Caps, LineId, NodeId};
use pm_io::{is_readable, number, word_text};
use pm_topology::{LineDef, SlaveState};

/// A number that is at most this great.
fn number_in(word: &[u8], most: u32) -> Option<u32>
    ensures { result ≡ number most word.now }
{
    number(word, u64::from(most)).map(|n| n as u32)
}

/// The number that is the `k`-th word of a line, if it is one of at most `most`.
fn number_at(line: &[u8], k: usize, most: u32) -> Option<u32>
    ensures { result ≡ number_at most (word_texts line.now) k }
{
    number_in(word_text(line, k)?, most)
}

/// The node that a word is the number of, if it is a number.
fn node_in(word: &[u8]) -> Option<NodeId>
    ensures { result ≡ node_in word.now }
{
    Some(NodeId(number_in(word, GREATEST)?))
}

/// The node that is the `k`-th word of a line, if it is a number.
fn node_at(line: &[u8], k: usize) -> Option<NodeId>
    ensures { result ≡ node_at (word_texts line.now) k }
{
    node_in(word_text(line, k)?)
}

/// A node by its number, or `none`.
fn optional_in(word: &[u8]) -> Option<Option<NodeId>>
    ensures { result ≡ optional_in word.now }
{
    if word == b"none".as_slice() {
        return Some(None);
    }
    Some(Some(node_in(word)?))
}

/// The node that is the `k`-th word of a line, or none if it is `none`.
fn optional_at(line: &[u8], k: usize) -> Option<Option<NodeId>>
    ensures { result ≡ optional_at (word_texts line.now) k }
{
    optional_in(word_text(line, k)?)
}

/// The flag that is the `k`-th word of a line, if it is 0 or 1.
fn flag_at(line: &[u8], k: usize) -> Option<bool>
    ensures { result ≡ flag_at (word_texts line.now) k }
{
    Some(number_at(line, k, GREATEST_FLAG)? == 1)
}

/// The words after the first two as numbers.
fn members_after(line: &[u8]) -> Option<Members>
    requires { length (word_texts line.now) ≤ 18 }
    ensures { option_map (λ members. members.items) result ≡ numbers_in greatest_number (drop 2 (word_texts line.now)) }
{
    let mut members = Members::new();
    let mut k = 2;
    'words: while let Some(word) = word_text(line, k) {
        members.push(number_in(word, GREATEST)?);
        k += 1;
    }
    Some(members)
}

/// The power node of a line: node, parent or `none`, whether it is held, figure, latency.
fn power_of(line: &[u8]) -> Option<Item>
    ensures { let words = word_texts line.now in
        result ≡ power_with (node_at words 1) (optional_at words 2) (flag_at words 3)
        (number_at greatest_number words 4) (number_at greatest_number words 5) }
{
    Some(Item::Power(PowerLine {
        node: node_at(line, 1)?,
        parent: optional_at(line, 2)?,
        held: flag_at(line, 3)?,
        figure: number_at(line, 4, GREATEST)?,
        latency: number_at(line, 5, GREATEST)?,
    }))
}

/// The processor of a line: node, parent, figure, latency.
fn proc_of(line: &[u8]) -> Option<Item>
    ensures { let words = word_texts line.now in
        result ≡ proc_with (node_at words 1) (node_at words 2) (number_at greatest_number words 3)
        (number_at greatest_number words 4) }
{
    Some(Item::Proc(ProcLine {
        node: node_at(line, 1)?,
        parent: node_at(line, 2)?,
        figure: number_at(line, 3, GREATEST)?,
        latency: number_at(line, 4, GREATEST)?,
    }))
}

/// The slave of a line: node, parent.
fn slave_of(line: &[u8]) -> Option<Item>
    ensures { let words = word_texts line.now in result ≡ slave_with (node_at words 1) (node_at words 2) }
{
    Some(Item::Slave(SlaveLine {
        node: node_at(line, 1)?,
        parent: node_at(line, 2)?,
    }))
}

/// The state of a line: capabilities, latency, whether it needs power, figure.
fn state_of(line: &[u8]) -> Option<Item>
    ensures { let words = word_texts line.now in
        result ≡ state_with (number_at greatest_caps words 1) (number_at greatest_number words 2) (flag_at words 3)
        (number_at greatest_number words 4) }
{
    Some(Item::State(SlaveState {
        caps: Caps(number_at(line, 1, GREATEST_CAPS)?),
        latency: number_at(line, 2, GREATEST)?,
        powered: flag_at(line, 3)?,
        figure: number_at(line, 4, GREATEST)?,
    }))
}

/// The reset line of a line: its number, the target or `none`.
fn line_of(line: &[u8]) -> Option<Item>
    ensures { let words = word_texts line.now in result ≡ line_with (number_at greatest_number words 1) (optional_at words 2) }
{
    Some(Item::Line(LineDef {
        line: LineId(number_at(line, 1, GREATEST)?),
        target: optional_at(line, 2)?,
    }))
}

/// The master of a line with its processors.
fn owner_of(line: &[u8]) -> Option<Item>
    requires { length (word_texts line.now) ≤ 18 }
    ensures { let words = word_texts line.now in result ≡ owner_with (node_at words 1) (numbers_in greatest_number (drop 2 words)) }
{
    Some(Item::Owner(node_at(line, 1)?, members_after(line)?))
}

/// What a line with this keyword says, if each of its words is in its list.
fn form_item(keyword: Keyword, line: &[u8]) -> Option<Item>
    requires { length (word_texts line.now) ≤ 18 }
    ensures { result ≡ form_item keyword (word_texts line.now) }
{
    match keyword {
        Keyword::Power => power_of(line),
        Keyword::Proc => proc_of(line),
        Keyword::Slave => slave_of(line),
        Keyword::State => state_of(line),
        Keyword::Line => line_of(line),
        Keyword::Owner => owner_of(line),
    }
}

/// The keyword that a word is, if it is one.
fn keyword_of(word: &[u8]) -> Option<Keyword>
    ensures { result ≡ keyword_of word.now }
{
    ALL_KEYWORDS
        .iter()
        .copied()
        .find(|keyword| keyword_text(*keyword) == word)
}

/// Whether a line has as many words as its keyword wants.
fn has_count(keyword: Keyword, line: &[u8]) -> bool
    ensures { result ≡ has_count keyword (word_texts line.now) }
{
    word_text(line, least_words(keyword) - 1).is_some()
        && word_text(line, most_words(keyword)).is_none()
}

/// What a line with this keyword says, if it has the right number of words too.
fn keyword_item(keyword: Keyword, line: &[u8]) -> Option<Item>
    ensures { result ≡ keyword_item keyword (word_texts line.now) }
{
    if has_count(keyword, line) {
        form_item(keyword, line)
    } else {
        None
    }
}

/// What a line says; `None` if it is too long, isn't ASCII, or has an unknown word, a wrong count, a bad number
/// or one that is too great.
#[tactic(auto, unfolding(crate::specs::Reading::item_of))]
pub fn item_of(line: &[u8]) -> Option<Item>
    ensures { result ≡ item_of line.now }
{
    if !is_readable(line) {
        return None;
    }
    let Some(first) = word_text(line, 0) else {
        return Some(Item::Empty);
    };
    keyword_item(keyword_of(first)?, line)
}
