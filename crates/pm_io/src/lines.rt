//! The lines of a text and the bytes that may stand in one, the same for every text and script of
//! the project.

ghost use Rattle.std.specs.Prelude.{◌≡◌, ◌==◌, ◌&&◌, ◌∷◌, [], ◌<◌, nat_le, length, position, MatchOption, IfSome};
ghost use Rattle.std.specs.List.{list_all};
ghost use Rattle.pm_io.specs.Lines.{lines, least_length, without_return, is_plain, is_readable};

/// The number of bytes from which on a line is too long, its line feed not counted.
pub const TOO_LONG: usize = 256;

/// How a text ends.
#[derive(Clone, Copy, Debug, PartialEq, Eq)]
pub enum Ending {
    /// All of its input was read. What comes after the last line feed is a line, unless it is
    /// empty.
    Whole,
    /// It breaks off, by a failed read or at a limit. What comes after the last line feed is no
    /// line, unless it is too long for one already.
    Cut,
}

/// The first line of a text, without its line feed, and the text that is left after it. None where
/// no line is left.
pub fn split_line(text: &[u8], ending: Ending) -> Option<(&[u8], &[u8])>
    ensures lines { MatchOption result (lines ending text.now ≡ [])
        (λ split. lines ending text.now ≡ split.0.now ∷ lines ending split.1.now) }
    ensures shorter { IfSome result (λ split. length split.1.now < length text.now) }
{
    match first_feed(text) {
        Some(at) => Some((&text[..at], &text[at + 1..])),
        None if text.len() < least_length(ending) => None,
        None => Some((text, &[])),
    }
}

/// The place of the first line feed.
fn first_feed(text: &[u8]) -> Option<usize>
    ensures { result ≡ position (λ byte. byte == 10) text.now }
{
    text.iter().position(|byte| *byte == b'\n')
}

/// How many bytes a last part without a line feed has at least, where it is a line.
fn least_length(ending: Ending) -> usize
    ensures { result ≡ least_length ending }
{
    match ending {
        Ending::Whole => 1,
        Ending::Cut => TOO_LONG,
    }
}

/// A line without the one carriage return at its end.
pub fn without_return(line: &[u8]) -> &[u8]
    ensures { result.now ≡ without_return line.now }
{
    match line {
        [text @ .., b'\r'] => text,
        _ => line,
    }
}

/// Whether all bytes are tabs or printable ASCII.
pub fn is_plain(text: &[u8]) -> bool
    ensures { result ≡ list_all is_plain text.now }
{
    is_printable(text) || text.iter().all(|byte| matches!(byte, b'\t' | b' '..=b'~'))
}

/// Whether a line is short enough and plain, so that its words can be read.
pub fn is_readable(line: &[u8]) -> bool
    ensures { result ≡ is_readable line.now }
{
    line.len() < TOO_LONG && is_plain(without_return(line))
}

/// Whether all bytes are printable ASCII.
fn is_printable(text: &[u8]) -> bool
    ensures { result ≡ list_all (λ byte. nat_le 32 byte && nat_le byte 126) text.now }
{
    text.iter().all(|byte| matches!(byte, b' '..=b'~'))
}
