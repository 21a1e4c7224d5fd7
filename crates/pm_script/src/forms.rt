//! The forms of a script's lines: one table, and the event that a line's arguments make.
//!
//! A further form is a `Kind`, its row of `FORMS`, and its case of `event_of`. So it is in `specs/Forms.antt`: a row of
//! `line_forms`, and a case of `event_of`. A form with more than seven arguments needs more room in `words.rt`, and an
//! argument of another width is one more `Width` and `Argument`.

ghost use Rattle.std.specs.Prelude.{◌≡◌, ◌≤◌, length, option_map, IfSome};
ghost use Rattle.pm_script.specs.Forms.{address_at, argument_of, call_arguments, event_of, first_with, message_of, number_at, row_of, row_with};

use pm_base::{Event, Message, NodeId};
use pm_io::number;

/// What an argument of a line is: a number of 32 bits, or an address or another argument of 64 bits.
#[derive(Clone, Copy)]
pub(crate) enum Width {
    Number,
    Address,
}

/// An argument that was read.
#[derive(Clone, Copy)]
pub(crate) enum Argument {
    Number(u32),
    Address(u64),
}

impl Default for Argument {
    /// The number 0, which a missing argument is.
    fn default() -> Argument {
        Argument::Number(0)
    }
}

/// What a line of a script says.
#[derive(Clone, Copy)]
pub(crate) enum Kind {
    Ipi,
    Boot,
    Wfi,
    Irq,
    Gic,
    Tick,
    Post,
    Serve,
    Smc,
    Task,
    Cancel,
    Break,
    Mend,
}

/// The form of a line: its first word, what it says, how many arguments it has at least, and what each argument is. It
/// has at most as many arguments as are listed.
#[derive(Clone, Copy)]
pub(crate) struct LineForm(pub &'static [u8], pub Kind, pub usize, pub &'static [Width]);

/// The table of the forms of a script's lines.
static FORMS: [LineForm; 13] = [
    LineForm(b"ipi", Kind::Ipi, 2, &[Width::Number; 7]),
    LineForm(b"boot", Kind::Boot, 2, &[Width::Number, Width::Address]),
    LineForm(b"wfi", Kind::Wfi, 1, &[Width::Number]),
    LineForm(b"irq", Kind::Irq, 1, &[Width::Number]),
    LineForm(b"gic", Kind::Gic, 1, &[Width::Number]),
    LineForm(b"tick", Kind::Tick, 1, &[Width::Number]),
    LineForm(b"post", Kind::Post, 2, &[Width::Number; 7]),
    LineForm(b"serve", Kind::Serve, 0, &[]),
    LineForm(
        b"smc",
        Kind::Smc,
        2,
        &[
            Width::Number,
            Width::Number,
            Width::Address,
            Width::Address,
            Width::Address,
        ],
    ),
    LineForm(b"task", Kind::Task, 2, &[Width::Number; 2]),
    LineForm(b"cancel", Kind::Cancel, 1, &[Width::Number]),
    LineForm(b"break", Kind::Break, 1, &[Width::Number]),
    LineForm(b"mend", Kind::Mend, 1, &[Width::Number]),
];

/// The form of a line with this first word.
pub(crate) fn form_of(word: &[u8]) -> Option<LineForm>
    ensures row { option_map row_of result ≡ row_with word.now }
    ensures short { IfSome result (λ form. length form.3.now ≤ 7) }
{
    first_with(&FORMS, word)
}

/// The first of these forms with this keyword.
#[tactic(auto, unfolding(crate::specs::Forms::first_with))]
fn first_with(forms: &[LineForm], keyword: &[u8]) -> Option<LineForm>
    ensures { result ≡ first_with keyword.now forms.now }
{
    forms
        .iter()
        .copied()
        .find(|LineForm(word, ..)| *word == keyword)
}

/// The argument that a word is, if it is a number of this width.
pub(crate) fn argument_of(width: Width, word: &[u8]) -> Option<Argument>
    ensures { result ≡ argument_of width word.now }
{
    match width {
        Width::Number => Some(Argument::Number(number(word, u32::MAX.into())? as u32)),
        Width::Address => Some(Argument::Address(number(word, u64::MAX)?)),
    }
}

/// The number at a place of a line's arguments. A missing one is 0.
fn number_at(arguments: &[Argument], k: usize) -> u32
    ensures { result ≡ number_at arguments.now k }
{
    match arguments.get(k) {
        Some(Argument::Number(number)) => *number,
        Some(Argument::Address(_)) | None => 0,
    }
}

/// The address at a place of a line's arguments. A missing one is 0.
fn address_at(arguments: &[Argument], k: usize) -> u64
    ensures { result ≡ address_at arguments.now k }
{
    match arguments.get(k) {
        Some(Argument::Address(address)) => *address,
        Some(Argument::Number(_)) | None => 0,
    }
}

/// The message whose words follow the number of its sender in a line's arguments.
fn message_of(arguments: &[Argument]) -> Message
    ensures { result ≡ message_of arguments.now }
{
    let number = |k| number_at(arguments, k);
    Message {
        api: number(1),
        args: [number(2), number(3), number(4), number(5), number(6)],
    }
}

/// The arguments of a call, which follow its processor and its function.
fn call_arguments(arguments: &[Argument]) -> [u64; 3]
    ensures { result ≡ call_arguments arguments.now }
{
    let argument = |k| address_at(arguments, k);
    [argument(2), argument(3), argument(4)]
}

/// Leaves the event that a line's arguments make. Most lines are messages: if a message was left before, its words
/// are written over.
pub(crate) fn leave_event(kind: Kind, arguments: &[Argument], event: &mut Event)
    ensures { event.new ≡ event_of kind arguments.now }
{
    match (kind, event) {
        (Kind::Ipi, Event::Ipi { master, message }) => {
            *master = NodeId(number_at(arguments, 0));
            *message = message_of(arguments);
        }
        (_, event) => *event = event_of(kind, arguments),
    }
}

/// The event that a line's arguments make.
fn event_of(kind: Kind, arguments: &[Argument]) -> Event
    ensures { result ≡ event_of kind arguments.now }
{
    let number = |k| number_at(arguments, k);
    let node = NodeId(number(0));
    match kind {
        Kind::Ipi => Event::Ipi {
            master: node,
            message: message_of(arguments),
        },
        Kind::Boot => Event::Boot {
            proc: node,
            address: address_at(arguments, 1),
        },
        Kind::Wfi => Event::Wfi { proc: node },
        Kind::Irq => Event::Irq { slave: node },
        Kind::Gic => Event::Gic { proc: node },
        Kind::Tick => Event::Tick { count: number(0) },
        Kind::Post => Event::Post {
            master: node,
            message: message_of(arguments),
        },
        Kind::Serve => Event::Serve,
        Kind::Smc => Event::Smc {
            proc: node,
            function: number(1),
            args: call_arguments(arguments),
        },
        Kind::Task => Event::Task {
            key: number(0),
            interval: number(1),
        },
        Kind::Cancel => Event::Cancel { key: number(0) },
        Kind::Break => Event::Break { node: node },
        Kind::Mend => Event::Mend { node: node },
    }
}
