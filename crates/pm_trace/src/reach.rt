//! The text of a reach.

ghost use Rattle.std.specs.Prelude.{◌≡◌, ◌++◌, IfOk, OnOk};
ghost use Rattle.std.specs.List.{flat_map};
ghost use Rattle.pm_trace.specs.Line.{after_space, word_text};
ghost use Rattle.pm_trace.specs.Reach.{kind_word, why_word, path_words, member_text, reach_text};

use crate::line::{Word, name, text_of};
use itoa::Buffer;
use pm_base::{NoMemory, NodeId};
use pm_reach::{Member, MemberKind, Reach, Why};
use std::alloc::Global;

/// The text of a reach: a line for each member, with what it is, its number, why it is in the reach, and
/// the path of masters that leads to it.
///
/// # Errors
///
/// `NoMemory` if there is not enough memory.
pub fn reach_text(alloc: Global, reach: &Reach) -> Result<Vec<u8>, NoMemory>
    ensures { IfOk result (λ text. text.items ≡ reach_text reach.now.members) }
{
    let mut text = Vec::new(alloc);
    for member in reach.members.as_slice() {
        put_member(&mut text, member)?;
    }
    Ok(text)
}

/// Appends the line of a member of a reach to a text.
fn put_member(text: &mut Vec<u8>, member: &Member) -> Result<(), NoMemory>
    ensures { OnOk result (text.new.items ≡ text.old.items ++ member_text member.now) }
{
    put_word(text, kind_word(member.kind))?;
    put_spaced(text, Word::Number(member.number))?;
    put_spaced(text, why_word(member.why))?;
    put_path(text, member.path.as_slice())?;
    put(text, b"\n")
}

/// The name of a member's kind in its line.
fn kind_word(kind: MemberKind) -> Word
    ensures { result ≡ kind_word kind }
{
    match kind {
        MemberKind::Master => name(b"master"),
        MemberKind::Slave => name(b"slave"),
        MemberKind::Power => name(b"power"),
        MemberKind::Line => name(b"line"),
    }
}

/// The name of a member's reason in its line.
fn why_word(why: Why) -> Word
    ensures { result ≡ why_word why }
{
    match why {
        Why::Myself => name(b"self"),
        Why::Suspend => name(b"suspend"),
        Why::Wake => name(b"wake"),
        Why::Force => name(b"force"),
        Why::Reset => name(b"reset"),
        Why::Shutdown => name(b"shutdown"),
        Why::Config => name(b"config"),
        Why::Uses => name(b"use"),
        Why::Above => name(b"above"),
    }
}

/// Appends the numbers of the masters of a path to a text, each after a space.
fn put_path(text: &mut Vec<u8>, path: &[NodeId]) -> Result<(), NoMemory>
    ensures { OnOk result (text.new.items ≡ text.old.items ++ flat_map after_space (path_words path.now)) }
{
    for node in path {
        put_spaced(text, Word::Number(node.0))?;
    }
    Ok(())
}

/// Appends a space and a word to a text.
fn put_spaced(text: &mut Vec<u8>, word: Word) -> Result<(), NoMemory>
    ensures { OnOk result (text.new.items ≡ text.old.items ++ after_space word) }
{
    put(text, b" ")?;
    put_word(text, word)
}

/// Appends a word to a text.
fn put_word(text: &mut Vec<u8>, word: Word) -> Result<(), NoMemory>
    ensures { OnOk result (text.new.items ≡ text.old.items ++ word_text word) }
{
    let mut buffer = Buffer::new();
    put(text, text_of(&word, &mut buffer))
}

/// Appends bytes to a text.
fn put(text: &mut Vec<u8>, bytes: &[u8]) -> Result<(), NoMemory>
    ensures { OnOk result (text.new.items ≡ text.old.items ++ bytes.now) }
{
    text.extend_from_slice(bytes).map_err(|_| NoMemory)
}
