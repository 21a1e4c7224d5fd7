//! The forms of the program's words, as data: what each reads, and its work. Besides, the works that write one piece.

ghost use Rattle.std.specs.Prelude.{◌≡◌, IfNone, IfOk, is_some, map, string_bytes};
ghost use Rattle.pm_base.specs.declared.names.Unit.{Unit};
ghost use Rattle.pm_io.specs.World.{world};
ghost use Rattle.pm_io.specs.Readings.{Meanwhile};
ghost use Rattle.pm_chip.specs.Chip.{chip};
ghost use Rattle.pm_board.specs.Standing.{standing};
ghost use Rattle.pm_top.specs.Done.{Worked};
ghost use Rattle.pm_top.specs.Fit.{IsSafeRun};
ghost use Rattle.pm_top.specs.Form.{IsPiece, beside, form_of, over_chip, over_named, piece_node, request_of, request_of_five, request_of_four, request_of_one, request_of_three, request_of_two};
ghost use Rattle.pm_top.specs.Reads.{WorkReads};
ghost use Rattle.pm_top.specs.Within.{IsSubject, Writes};
ghost use Rattle.pm_top.specs.Words.{word};

use crate::making::make_over;
use crate::reaching::text_of_reach;
use crate::reading::Subject;
use crate::replaying::replay_over;
use crate::writing::write_whole;
use pm_base::{Exit, NoMemory};
use pm_board::Board;
use pm_device::Device;
use pm_io::{Inputs, Sink};
use pm_isolate::compare;
use pm_modules::Responder;
use pm_object::encode;
use pm_objtext::print;
use pm_tasks::Handler;
use pm_topofile::print_topology;
use pm_trace::{Fault, refuse};
use std::alloc::Global;

/// The kind of the word after the first.
#[derive(Clone, Copy, Debug, PartialEq, Eq)]
pub enum Source {
    /// The name of a configuration object.
    Object,
    /// The name of an object's text.
    Text,
    /// The number of lines of a generated script; the object is the laboratory's.
    Number,
    /// There is no such word; the object is the laboratory's, which nothing reads.
    Nothing,
}

/// The work of a form, on what it reads.
#[derive(Clone, Copy, Debug, PartialEq, Eq)]
pub enum Work {
    /// Run the script over the object.
    Replay,
    /// Compare the run of the script with the run without the messages of the master.
    Isolate,
    /// Run a generated script over the object, and write the summary of its run.
    Make,
    /// Write one piece, and nothing else.
    Write(Piece),
}

/// The one piece that some forms write.
#[derive(Clone, Copy, Debug, PartialEq, Eq)]
pub enum Piece {
    /// The reach of the master.
    Reach,
    /// The text of the object.
    ObjectText,
    /// The bytes of the object.
    ObjectBytes,
    /// The text of the topology.
    TopologyText,
}

/// What the words ask for: a work, and the place of the word that names a topology; None for the chip's.
#[derive(Clone, Copy, Debug, PartialEq, Eq)]
pub struct Request {
    pub work: Work,
    pub topology: Option<usize>,
}

/// A form of the words: its inputs, in the order in which they are read, and its work.
#[derive(Clone, Copy, Debug)]
pub struct Form {
    /// The kind of the word at place 1.
    pub source: Source,
    /// The place of the word that names the text of a topology, if there is one.
    pub topology: Option<usize>,
    /// The place of the word that is the number of a master of the object, if there is one.
    pub node: Option<usize>,
    /// The place of the word that names a script, if there is one.
    pub script: Option<usize>,
    pub work: Work,
}

/// The form of a request: `replay OBJ SCRIPT`, `reach OBJ NODE` or `isolate OBJ SCRIPT NODE`, each with an optional
/// `TOPO`; `print OBJ`, `build TEXT`, `make N` or `table`.
pub(crate) fn form_of(request: Request) -> Form
    ensures { result ≡ form_of request.work request.topology }
{
    let (source, node, script) = match request.work {
        Work::Replay => (Source::Object, None, Some(2)),
        Work::Isolate => (Source::Object, Some(3), Some(2)),
        Work::Make => (Source::Number, None, None),
        Work::Write(Piece::Reach) => (Source::Object, Some(2), None),
        Work::Write(Piece::ObjectText) => (Source::Object, None, None),
        Work::Write(Piece::ObjectBytes) => (Source::Text, None, None),
        Work::Write(Piece::TopologyText) => (Source::Nothing, None, None),
    };
    Form {
        source,
        topology: beside(source, request.topology),
        node,
        script,
        work: request.work,
    }
}

/// The place of the topology's name; None unless the form reads an object, since only such a form may name a
/// topology.
fn beside(source: Source, topology: Option<usize>) -> Option<usize>
    ensures { result ≡ beside source topology }
{
    match source {
        Source::Object => topology,
        Source::Text | Source::Number | Source::Nothing => None,
    }
}

/// The request of the words, by the first word and their number; None if they have no form.
pub(crate) fn request_of(words: &[String]) -> Option<Request>
    ensures { result ≡ request_of (map string_bytes words.now) }
{
    match words {
        [command] => request_of_one(command.as_str()),
        [command, _] => request_of_two(command.as_str()),
        [command, _, _] => request_of_three(command.as_str()),
        [command, _, _, _] => request_of_four(command.as_str()),
        [command, _, _, _, _] => request_of_five(command.as_str()),
        _ => None,
    }
}

/// A request for a work over the chip's topology.
fn over_chip(work: Work) -> Option<Request>
    ensures { result ≡ over_chip work }
{
    Some(Request {
        work,
        topology: None,
    })
}

/// A request for a work over the topology that the word at a place names.
fn over_named(work: Work, place: usize) -> Option<Request>
    ensures { result ≡ over_named work place }
{
    Some(Request {
        work,
        topology: Some(place),
    })
}

/// The request of one word, if it has a form.
fn request_of_one(first: &str) -> Option<Request>
    ensures { result ≡ request_of_one first.now }
{
    match first {
        "table" => over_chip(Work::Write(Piece::TopologyText)),
        _ => None,
    }
}

/// The request of two words, by the first, if they have a form.
fn request_of_two(first: &str) -> Option<Request>
    ensures { result ≡ request_of_two first.now }
{
    match first {
        "print" => over_chip(Work::Write(Piece::ObjectText)),
        "build" => over_chip(Work::Write(Piece::ObjectBytes)),
        "make" => over_chip(Work::Make),
        _ => None,
    }
}

/// The request of three words, by the first, if they have a form.
fn request_of_three(first: &str) -> Option<Request>
    ensures { result ≡ request_of_three first.now }
{
    match first {
        "replay" => over_chip(Work::Replay),
        "reach" => over_chip(Work::Write(Piece::Reach)),
        _ => None,
    }
}

/// The request of four words, by the first, if they have a form.
fn request_of_four(first: &str) -> Option<Request>
    ensures { result ≡ request_of_four first.now }
{
    match first {
        "isolate" => over_chip(Work::Isolate),
        "replay" => over_named(Work::Replay, 3),
        "reach" => over_named(Work::Write(Piece::Reach), 3),
        _ => None,
    }
}

/// The request of five words, by the first, if they have a form.
fn request_of_five(first: &str) -> Option<Request>
    ensures { result ≡ request_of_five first.now }
{
    match first {
        "isolate" => over_named(Work::Isolate, 4),
        _ => None,
    }
}

/// The word at a place, or an empty one if there is none.
pub(crate) fn word(words: &[String], place: usize) -> &str
    ensures { result.now ≡ word place (map string_bytes words.now) }
{
    match words.get(place) {
        Some(word) => word.as_str(),
        None => "",
    }
}

/// The text or the bytes of a piece, from its subject, which has to have a master if the piece needs one.
fn piece_of(alloc: Global, piece: Piece, subject: &Subject) -> Result<Vec<u8>, NoMemory>
    requires sound { IsSubject subject.now }
    requires complete { is_some subject.now.master ≡ is_some (piece_node piece) }
    ensures { IfOk result (λ text. IsPiece piece subject.now text.items) }
{
    match piece {
        Piece::Reach => text_of_reach(
            alloc,
            &subject.object,
            &subject.topology,
            subject.master.unwrap(),
        ),
        Piece::ObjectText => print(alloc, &subject.object),
        Piece::ObjectBytes => encode(alloc, &subject.object),
        Piece::TopologyText => print_topology(alloc, &subject.topology),
    }
}

/// Writes a piece of its subject, and returns the exit.
fn write_piece<O: Sink>(alloc: Global, piece: Piece, subject: &Subject, out: &mut O) -> Exit
    requires sound { IsSubject subject.now }
    requires complete { is_some subject.now.master ≡ is_some (piece_node piece) }
    ensures { Writes O.Sink (IsPiece piece subject.now) out.old out.new result }
{
    match piece_of(alloc, piece, subject) {
        Ok(text) => write_whole(text.as_slice(), out),
        Err(NoMemory) => refuse(Fault::Memory, out),
    }
}

/// Does a work on its subject, with the script of this name if it needs one, and returns the exit.
pub(crate) fn do_work<I: Inputs, O: Sink, D: Device, H: Responder, T: Handler>(
    alloc: Global,
    request: Request,
    subject: Subject,
    inputs: &mut I,
    script: &str,
    out: &mut O,
    dev: &mut D,
    board: &mut Board<H, T>,
) -> Exit
    requires sound { IsSubject subject }
    requires complete { is_some subject.master ≡ is_some (form_of request.work request.topology).node }
    requires built_in { IfNone (form_of request.work request.topology).topology (subject.topology ≡ chip) }
    requires idle { D.values_observable → (unit : Unit) → (D.state dev.old).value unit ≡ 0 }
    ensures safe { IsSafeRun D.Device request.topology dev.old dev.new }
    ensures worked { Worked I.Inputs O.Sink D.Device request.work request.topology subject
        (standing H.Responder T.Handler board.old.modules.now board.old.tasks)
        (standing H.Responder T.Handler board.old.modules.now board.new.tasks)
        script.now (world inputs.old out.old dev.old) (world inputs.new out.new dev.new) result }
    ensures begun { Meanwhile (I.state inputs.old) (I.state inputs.new)
        (WorkReads (form_of request.work request.topology).script script.now result) }
{
    match request.work {
        Work::Replay => replay_over(
            alloc,
            request.topology,
            subject.object,
            subject.topology,
            inputs,
            script,
            out,
            dev,
            board,
        ),
        Work::Isolate => compare(
            alloc,
            subject.object,
            subject.topology,
            subject.master.unwrap(),
            inputs,
            script,
            out,
        ),
        Work::Make => make_over(
            alloc,
            subject.object,
            subject.topology,
            subject.lines,
            out,
            dev,
            board,
        ),
        Work::Write(piece) => {
            let exit = write_piece(alloc, piece, &subject, out);
            drop(subject);
            exit
        }
    }
}
