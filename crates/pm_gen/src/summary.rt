//! The summary of the run of a script that was made.

ghost use Rattle.std.specs.Prelude.{◌≡◌, ◌==◌, ◌<◌, ◌++◌, ◌∷◌, [], IfOk, IfSome, MatchOption, OnOk, Some, length, nat_le, position};
ghost use Rattle.pm_io.specs.Lines.{lines_of};
ghost use Rattle.pm_gen.specs.Summary.{HasCounted, HasRoom, IsBehindFeed, IsBehindWord, IsNamed, counted, counts_of, spelled, summary, with_line, with_name, with_word};

use itoa::Buffer;
use pm_base::NoMemory;
use pm_io::{Ending, split_line, word_text};
use std::alloc::Global;

/// How many lines a script has beside those of its number.
const OPENING_LINES: u64 = 2;

/// How many lines have each of five names as their second word.
#[derive(Clone, Copy)]
struct Counts {
    sets: u64,
    runs: u64,
    replies: u64,
    drops: u64,
    calls: u64,
}

/// One of the five names.
#[derive(Clone, Copy)]
enum Name {
    Set,
    Run,
    Reply,
    Drop,
    Call,
}

/// The summary of the text of the run of the script of a number: how many lines the script has, and how many lines of the text
/// have `set`, `run`, `reply`, `drop` and `call` as their second word. The one error is want of memory.
pub fn summary_of(alloc: Global, n: u32, text: &[u8]) -> Result<Vec<u8>, NoMemory>
    ensures { IfOk result (λ lines. lines.items ≡ summary n text.now) }
{
    let counts = counts_of(text);
    let mut lines = Vec::new(alloc);
    put_count(&mut lines, b"lines", u64::from(n) + OPENING_LINES)?;
    put_count(&mut lines, b"set", counts.sets)?;
    put_count(&mut lines, b"run", counts.runs)?;
    put_count(&mut lines, b"reply", counts.replies)?;
    put_count(&mut lines, b"drop", counts.drops)?;
    put_count(&mut lines, b"call", counts.calls)?;
    Ok(lines)
}

/// How many lines of a text have each name, in one pass over the text.
fn counts_of(text: &[u8]) -> Counts
    ensures { result ≡ counts_of text.now }
{
    let mut counts = Counts {
        sets: 0,
        runs: 0,
        replies: 0,
        drops: 0,
        calls: 0,
    };
    let mut left = text;
    'lines: while let Some(after) = count_first(&mut counts, left) {
        left = after;
    }
    counts
}

/// Counts the first line of a text, and answers what stands after it. None if no line is left.
fn count_first<'t>(counts: &mut Counts, text: &'t [u8]) -> Option<&'t [u8]>
    requires room { HasRoom counts.old }
    ensures counted { MatchOption result ((counts.new ≡ counts.old) × (lines_of text.now ≡ []))
        (λ after. HasCounted counts.old counts.new text.now after.now) }
    ensures shorter { IfSome result (λ after. length after.now < length text.now) }
{
    match named_line(text) {
        Some((name, after)) => {
            count_name(counts, name);
            Some(after)
        }
        None => count_split(counts, text),
    }
}

/// Counts the first line of a text, whatever it is, and answers what stands after it. None if no line is left.
#[inline(never)]
fn count_split<'t>(counts: &mut Counts, text: &'t [u8]) -> Option<&'t [u8]>
    requires room { HasRoom counts.old }
    ensures counted { MatchOption result ((counts.new ≡ counts.old) × (lines_of text.now ≡ []))
        (λ after. HasCounted counts.old counts.new text.now after.now) }
    ensures shorter { IfSome result (λ after. length after.now < length text.now) }
{
    let (line, after) = split_line(text, Ending::Whole)?;
    count_line(counts, line);
    Some(after)
}

/// The name that the first line of a text has, and what stands after that line: where the line has one of the five names
/// behind a word and a space, a space behind the name, and a line feed. (Most lines of a run are so.)
fn named_line(text: &[u8]) -> Option<(Name, &[u8])>
    ensures named { IfSome result (λ found. IsNamed found.0 text.now found.1.now) }
    ensures shorter { IfSome result (λ found. length found.1.now < length text.now) }
{
    let behind = behind_word(text)?;
    let (name, rest) = name_at(behind)?;
    let after = behind_feed(rest)?;
    Some((name, after))
}

/// What stands behind the word at the front of a text and a space.
fn behind_word(text: &[u8]) -> Option<&[u8]>
    ensures { IfSome result (λ behind. IsBehindWord text.now behind.now) }
{
    let end = word_end(text)?;
    if end > 0 && text[end] == b' ' {
        Some(&text[end + 1..])
    } else {
        None
    }
}

/// The place of the first byte that is at most `#`, which no byte of a word is.
fn word_end(text: &[u8]) -> Option<usize>
    ensures { result ≡ position (λ byte. nat_le byte 35) text.now }
{
    text.iter().position(|byte| *byte <= b'#')
}

/// The name at the front of a text, and what stands behind it and a space.
fn name_at(text: &[u8]) -> Option<(Name, &[u8])>
    ensures { IfSome result (λ found. text.now ≡ spelled found.0 ++ 32 ∷ found.1.now) }
{
    match text {
        [b'r', b'e', b'p', b'l', b'y', b' ', rest @ ..] => Some((Name::Reply, rest)),
        [b's', b'e', b't', b' ', rest @ ..] => Some((Name::Set, rest)),
        [b'd', b'r', b'o', b'p', b' ', rest @ ..] => Some((Name::Drop, rest)),
        [b'r', b'u', b'n', b' ', rest @ ..] => Some((Name::Run, rest)),
        [b'c', b'a', b'l', b'l', b' ', rest @ ..] => Some((Name::Call, rest)),
        _ => None,
    }
}

/// What stands behind the first line feed of a text.
fn behind_feed(text: &[u8]) -> Option<&[u8]>
    ensures { IfSome result (λ behind. IsBehindFeed text.now behind.now) }
{
    let feed = first_feed(text)?;
    Some(&text[feed + 1..])
}

/// The place of the first line feed.
fn first_feed(text: &[u8]) -> Option<usize>
    ensures { result ≡ position (λ byte. byte == 10) text.now }
{
    text.iter().position(|byte| *byte == b'\n')
}

/// Counts one more line, by its second word.
fn count_line(counts: &mut Counts, line: &[u8])
    requires room { HasRoom counts.old }
    ensures { counts.new ≡ with_line counts.old line.now }
{
    match word_text(line, 1) {
        Some(word) => count_word(counts, word),
        None => {}
    }
}

/// Counts one more line, of whose words this is the second.
fn count_word(counts: &mut Counts, word: &[u8])
    requires room { HasRoom counts.old }
    ensures { counts.new ≡ with_word counts.old (Some word.now) }
{
    match word {
        b"set" => count_name(counts, Name::Set),
        b"run" => count_name(counts, Name::Run),
        b"reply" => count_name(counts, Name::Reply),
        b"drop" => count_name(counts, Name::Drop),
        b"call" => count_name(counts, Name::Call),
        _ => {}
    }
}

/// Counts one more line, which has this name.
fn count_name(counts: &mut Counts, name: Name)
    requires room { HasRoom counts.old }
    ensures { counts.new ≡ with_name counts.old name }
{
    match name {
        Name::Set => counts.sets += 1,
        Name::Run => counts.runs += 1,
        Name::Reply => counts.replies += 1,
        Name::Drop => counts.drops += 1,
        Name::Call => counts.calls += 1,
    }
}

/// Puts a name with a count at the end.
fn put_count(lines: &mut Vec<u8>, name: &[u8], count: u64) -> Result<(), NoMemory>
    ensures { OnOk result (lines.new.items ≡ lines.old.items ++ counted name.now count) }
{
    let mut buffer = Buffer::new();
    put(lines, name)?;
    put(lines, b" ")?;
    put(lines, buffer.format(count).as_bytes())?;
    put(lines, b"\n")
}

/// Puts bytes at the end.
fn put(lines: &mut Vec<u8>, more: &[u8]) -> Result<(), NoMemory>
    ensures { OnOk result (lines.new.items ≡ lines.old.items ++ more.now) }
{
    lines.extend_from_slice(more).map_err(|_| NoMemory)
}
