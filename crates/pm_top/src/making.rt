//! The form `make N`: a script of N lines is generated and run over the laboratory's object, and a summary of the run
//! is written.

ghost use Rattle.std.specs.Prelude.{◌≡◌, ◌⊎◌, ◌≤◌, ◌+◌, ◌*◌, [], None, length, IfOk, MatchResult};
ghost use Rattle.pm_base.specs.declared.names.Unit.{Unit};
ghost use Rattle.pm_gen.specs.Laboratory.{laboratory};
ghost use Rattle.pm_gen.specs.Script.{HasMeaning, made};
ghost use Rattle.pm_object.specs.Grammar.{IsObject};
ghost use Rattle.pm_topology.specs.WellFormed.{IsWellFormed};
ghost use Rattle.pm_board.specs.Standing.{standing};
ghost use Rattle.pm_replay.specs.Safe.{IsSafe};
ghost use Rattle.pm_top.specs.Asked.{laboratory_for, line_limit, lines_asked, lines_by};
ghost use Rattle.pm_top.specs.Making.{IsSummary, Makes, MayBeDriven};

use crate::works::Source;
use crate::writing::write_whole;
use pm_base::{Exit, NoMemory};
use pm_board::Board;
use pm_device::Device;
use pm_gen::{lab_object, make, summary_of};
use pm_io::{MemSink, OneInput, Sink, number};
use pm_modules::Responder;
use pm_object::Object;
use pm_replay::replay;
use pm_tasks::Handler;
use pm_topology::Topology;
use pm_trace::{Fault, refuse};
use std::alloc::Global;

/// The most lines of a generated script, besides its first lines.
const LINE_LIMIT: u64 = 200_000;

/// The laboratory's object, if the word is a number of lines; else the fault Number.
pub(crate) fn laboratory_for(alloc: Global, word: &str) -> Result<Object, Fault>
    ensures exact { (result ≡ Err Fault.Memory) ⊎ (laboratory_for word.now ≡ result) }
    ensures formed { IfOk result IsObject }
{
    if lines_asked(word).is_none() {
        return Err(Fault::Number);
    }
    laboratory(alloc)
}

/// The laboratory's object.
pub(crate) fn laboratory(alloc: Global) -> Result<Object, Fault>
    ensures exact { (result ≡ Err Fault.Memory) ⊎ (Ok laboratory ≡ result) }
    ensures formed { IfOk result IsObject }
{
    match lab_object(alloc) {
        Ok(object) => Ok(object),
        Err(NoMemory) => Err(Fault::Memory),
    }
}

/// The number of lines of a generated script; 0 if the form generates none.
pub(crate) fn lines_by(source: Source, word: &str) -> u32
    ensures { result ≡ lines_by source word.now }
{
    match source {
        Source::Object | Source::Text | Source::Nothing => 0,
        Source::Number => lines_asked(word).unwrap_or(0),
    }
}

/// The number of lines that a word asks for, 1 to 200,000; None for any other word.
fn lines_asked(word: &str) -> Option<u32>
    ensures { result ≡ lines_asked word.now }
{
    match number(word.as_bytes(), LINE_LIMIT)? {
        0 => None,
        lines => Some(lines as u32),
    }
}

/// Generates a script of so many lines, runs it over an object and a topology, and writes the summary of the run.
pub(crate) fn make_over<O: Sink, D: Device, H: Responder, T: Handler>(
    alloc: Global,
    object: Object,
    topology: Topology,
    lines: u32,
    out: &mut O,
    dev: &mut D,
    board: &mut Board<H, T>,
) -> Exit
    requires object { IsObject object }
    requires formed { IsWellFormed topology }
    requires few { lines ≤ line_limit }
    requires idle { D.values_observable → (unit : Unit) → (D.state dev.old).value unit ≡ 0 }
    ensures safe { IsSafe D.Device topology dev.old dev.new }
    ensures made { Makes O.Sink D.Device object topology
        (standing H.Responder T.Handler board.old.modules.now board.old.tasks)
        (standing H.Responder T.Handler board.old.modules.now board.new.tasks)
        lines out.old out.new dev.old dev.new result }
{
    match run_made(alloc, object, topology, lines, dev, board) {
        Ok(summary) => write_whole(summary.as_slice(), out),
        Err(NoMemory) => refuse(Fault::Memory, out),
    }
}

/// A generated script of so many lines as an input in memory, and an empty sink in memory for the text of its run.
fn script_and_sink(alloc: Global, lines: u32) -> Result<(OneInput, MemSink), NoMemory>
    ensures script { IfOk result (λ both. both.0 ≡ record { bytes = made lines; place = None; calls = [] }) }
    ensures meant { IfOk result (λ _. HasMeaning (made lines)) }
    ensures short { IfOk result (λ _. length (made lines) ≤ 18 * (lines + 1)) }
    ensures sink { IfOk result (λ both. both.1 ≡ record { bytes = []; room = None; faults = 0 }) }
{
    let script = make(alloc, lines)?;
    let text = MemSink::new(alloc, None)?;
    Ok((OneInput::of(script), text))
}

/// Runs a generated script of so many lines over an object and a topology, and returns the summary of the run. Its
/// text is kept in memory, so that `NoMemory` may come late. Nothing else fails: each generated line can be read, and
/// the input and the sink are in memory.
fn run_made<D: Device, H: Responder, T: Handler>(
    alloc: Global,
    object: Object,
    topology: Topology,
    lines: u32,
    dev: &mut D,
    board: &mut Board<H, T>,
) -> Result<Vec<u8>, NoMemory>
    requires object { IsObject object }
    requires formed { IsWellFormed topology }
    requires few { lines ≤ line_limit }
    requires idle { D.values_observable → (unit : Unit) → (D.state dev.old).value unit ≡ 0 }
    ensures safe { IsSafe D.Device topology dev.old dev.new }
    ensures made { MatchResult result
        (λ summary. IsSummary D.Device object topology
        (standing H.Responder T.Handler board.old.modules.now board.old.tasks)
        (standing H.Responder T.Handler board.old.modules.now board.new.tasks) lines dev.old dev.new summary.items)
        (λ _. MayBeDriven D.Device object topology
        (standing H.Responder T.Handler board.old.modules.now board.old.tasks)
        (standing H.Responder T.Handler board.old.modules.now board.new.tasks) lines dev.old dev.new) }
{
    match script_and_sink(alloc, lines) {
        Ok((mut inputs, mut text)) => match replay(
            alloc,
            object,
            topology,
            &mut inputs,
            "script",
            &mut text,
            dev,
            board.modules,
            &mut board.tasks,
        ) {
            Exit::Done => summary_of(alloc, lines, text.bytes()),
            Exit::Memory | Exit::WriteFault => Err(NoMemory),
            _ => unreachable!(),
        },
        Err(NoMemory) => {
            drop(object);
            drop(topology);
            Err(NoMemory)
        }
    }
}
