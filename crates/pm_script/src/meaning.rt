//! What a line of a script means.

ghost use Rattle.std.specs.Prelude.{◌≡◌, ◌≤◌, drop, length};
ghost use Rattle.pm_io.specs.Words.{word_texts};
ghost use Rattle.pm_script.specs.Forms.{row_of};
ghost use Rattle.pm_script.specs.Meaning.{form_meaning, left, meaning, other_meaning, words_meaning};

use crate::forms::{LineForm, form_of, leave_event};
use crate::object_line::read_object;
use crate::words::{LineWords, Places, first_places};
use pm_base::Event;
use pm_io::{TOO_LONG, without_return};

/// Why a line of a script has no meaning. If a line has several faults, the first of `Long`,
/// `NotAscii`, `Unknown`, `Count` and `Number` is answered.
#[derive(Clone, Copy, Debug, PartialEq, Eq)]
pub enum LineFault {
    /// The first word names no kind of line.
    Unknown = 1,
    /// A word is no number, or doesn't fit 32 bits, or 64 bits if it is an address or an argument of a power call.
    Number = 2,
    /// There are too few or too many words.
    Count = 3,
    /// The line has more than 255 bytes, its line feed not counted.
    Long = 4,
    /// A byte is neither a tab nor printable ASCII.
    NotAscii = 5,
}

/// What a line without its line feed means. A line with no word is `Event::Pass`; the line
/// `ipi M API` with 0 to 5 arguments is a message of master M; in `boot P ADDRESS` a boot loader starts
/// processor P at an address of 64 bits; in `wfi P` processor P waits for an interrupt; in `irq S` slave S
/// raises its interrupt; in `gic P` there is an interrupt at processor P itself; in `tick N` N units of
/// time pass; in `post M API` with 0 to 5 arguments master M puts a message into its box; in `serve` the messages in all
/// boxes are served; in `smc P FUNCTION` with 0 to 3 arguments of 64 bits processor P makes a power call; in
/// `task KEY INTERVAL` the timed task under KEY is started at INTERVAL; in `cancel KEY` it is taken out; in
/// `object ADDRESS` with 0 or more words these words of a configuration object are attached at an address of 32 bits;
/// from `break N` on node N of the device fails; and from `mend N` on it works again.
pub fn parse_line(line: &[u8]) -> Result<Event, LineFault>
    ensures { result ≡ meaning line.now }
{
    let mut event = Event::Pass;
    read_line(line, &mut event)?;
    Ok(event)
}

/// Leaves in `event` what a line without its line feed means, by the rules of `parse_line`. An event is large, and a
/// reader of many lines needs no more than this one.
///
/// # Errors
///
/// The first fault of a line that has no meaning. Then `event` may be any.
pub fn read_line(line: &[u8], event: &mut Event) -> Result<(), LineFault>
    ensures { left result event.new ≡ meaning line.now }
{
    if line.len() >= TOO_LONG {
        return Err(LineFault::Long);
    }
    read_any(line, event)
}

/// Leaves what a line means by all of its words.
#[inline(never)]
fn read_any(line: &[u8], event: &mut Event) -> Result<(), LineFault>
    requires { length line.now ≤ 255 }
    ensures { left result event.new ≡ meaning line.now }
{
    let text = without_return(line);
    let mut places = Places::new();
    if !first_places(text, &mut places) {
        return Err(LineFault::NotAscii);
    }
    read_words(&LineWords::of(line, &places), event)
}

/// Leaves what a line with these words means. Its first word says which form it has.
fn read_words(words: &LineWords, event: &mut Event) -> Result<(), LineFault>
    requires { length words.now ≤ 255 }
    ensures { left result event.new ≡ words_meaning (word_texts words.now) }
{
    match words.text_at(0) {
        None => {
            leave_nothing(event);
            Ok(())
        }
        Some(keyword) => match form_of(keyword) {
            None => read_other(keyword, words, event),
            Some(form) => read_form(form, words, event),
        },
    }
}

/// Leaves the event in which nothing happens, if it isn't there already.
pub(crate) fn leave_nothing(event: &mut Event)
    ensures { event.new ≡ Event.Pass }
{
    match event {
        Event::Pass => {}
        _ => *event = Event::Pass,
    }
}

/// Leaves what a line with these words means, the first of which is no form's.
fn read_other(keyword: &[u8], words: &LineWords, event: &mut Event) -> Result<(), LineFault>
    requires { length words.now ≤ 255 }
    ensures { left result event.new ≡ other_meaning keyword.now (drop 1 (word_texts words.now)) }
{
    if keyword == b"object".as_slice() {
        read_object(words, event)
    } else {
        Err(LineFault::Unknown)
    }
}

/// Leaves what a line of this form means.
fn read_form(form: LineForm, words: &LineWords, event: &mut Event) -> Result<(), LineFault>
    requires { length form.3.now ≤ 7 }
    ensures { left result event.new ≡ form_meaning (row_of form) (drop 1 (word_texts words.now)) }
{
    let LineForm(_, kind, least, widths) = form;
    if !words.has_arguments(least, widths.len()) {
        return Err(LineFault::Count);
    }
    match words.arguments(widths) {
        None => Err(LineFault::Number),
        Some(arguments) => {
            leave_event(kind, &arguments, event);
            Ok(())
        }
    }
}
