//! The form `replay OBJ SCRIPT`: a script is run over an object and a topology.

ghost use Rattle.std.specs.Prelude.{◌≡◌, IfNone};
ghost use Rattle.pm_base.specs.declared.names.Unit.{Unit};
ghost use Rattle.pm_io.specs.World.{world};
ghost use Rattle.pm_io.specs.Readings.{Meanwhile};
ghost use Rattle.pm_object.specs.Grammar.{IsObject};
ghost use Rattle.pm_chip.specs.Chip.{chip};
ghost use Rattle.pm_topology.specs.WellFormed.{IsWellFormed};
ghost use Rattle.pm_board.specs.Standing.{standing};
ghost use Rattle.pm_top.specs.Done.{Replays};
ghost use Rattle.pm_top.specs.Fit.{IsSafeRun};
ghost use Rattle.pm_trace.specs.Scripts.{ReadsScript, script_named};

use pm_base::{Exit, NoMemory};
use pm_board::Board;
use pm_device::{Device, chain_shows};
use pm_io::{Inputs, Sink};
use pm_modules::Responder;
use pm_object::Object;
use pm_replay::replay;
use pm_tasks::Handler;
use pm_topology::Topology;
use pm_trace::{Fault, refuse};
use std::alloc::Global;

/// Runs a script over an object and a topology. If a word names the topology, the device is fitted to it first; else
/// it is the chip's, as the device's is.
pub(crate) fn replay_over<I: Inputs, O: Sink, D: Device, H: Responder, T: Handler>(
    alloc: Global,
    named: Option<usize>,
    object: Object,
    topology: Topology,
    inputs: &mut I,
    script: &str,
    out: &mut O,
    dev: &mut D,
    board: &mut Board<H, T>,
) -> Exit
    requires object { IsObject object }
    requires formed { IsWellFormed topology }
    requires built_in { IfNone named (topology ≡ chip) }
    requires idle { D.values_observable → (unit : Unit) → (D.state dev.old).value unit ≡ 0 }
    ensures did { Replays I.Inputs O.Sink D.Device named object topology
        (standing H.Responder T.Handler board.old.modules.now board.old.tasks)
        (standing H.Responder T.Handler board.old.modules.now board.new.tasks)
        script.now (world inputs.old out.old dev.old) (world inputs.new out.new dev.new) result }
    ensures safe { IsSafeRun D.Device named dev.old dev.new }
    ensures begun { Meanwhile (I.state inputs.old) (I.state inputs.new) (ReadsScript result (script_named script.now)) }
{
    match named {
        Some(place) => replay_fitted(
            alloc, place, object, topology, inputs, script, out, dev, board,
        ),
        None => replay(
            alloc,
            object,
            topology,
            inputs,
            script,
            out,
            dev,
            board.modules,
            &mut board.tasks,
        ),
    }
}

/// Fits the device to a topology, and runs a script over it.
fn replay_fitted<I: Inputs, O: Sink, D: Device, H: Responder, T: Handler>(
    alloc: Global,
    place: usize,
    object: Object,
    topology: Topology,
    inputs: &mut I,
    script: &str,
    out: &mut O,
    dev: &mut D,
    board: &mut Board<H, T>,
) -> Exit
    requires object { IsObject object }
    requires formed { IsWellFormed topology }
    requires idle { D.values_observable → (unit : Unit) → (D.state dev.old).value unit ≡ 0 }
    ensures did { Replays I.Inputs O.Sink D.Device (Some place) object topology
        (standing H.Responder T.Handler board.old.modules.now board.old.tasks)
        (standing H.Responder T.Handler board.old.modules.now board.new.tasks)
        script.now (world inputs.old out.old dev.old) (world inputs.new out.new dev.new) result }
    ensures safe { IsSafeRun D.Device (Some place) dev.old dev.new }
    ensures begun { Meanwhile (I.state inputs.old) (I.state inputs.new) (ReadsScript result (script_named script.now)) }
{
    chain_shows::<D>();
    match dev.fit(alloc, &topology) {
        Ok(()) => replay(
            alloc,
            object,
            topology,
            inputs,
            script,
            out,
            dev,
            board.modules,
            &mut board.tasks,
        ),
        Err(NoMemory) => {
            drop(object);
            drop(topology);
            refuse(Fault::Memory, out)
        }
    }
}
