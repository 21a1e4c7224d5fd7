//! The topology of a form: that of a named text, or the chip's.

ghost use Rattle.std.specs.Prelude.{◌≡◌, ◌⊎◌, ◌∷◌, [], IfOk, map, string_bytes};
ghost use Rattle.pm_io.specs.Calls.{named};
ghost use Rattle.pm_io.specs.Readings.{Meanwhile};
ghost use Rattle.pm_chip.specs.Chip.{chip};
ghost use Rattle.pm_topology.specs.WellFormed.{IsSupported};
ghost use Rattle.pm_topofile.specs.Meaning.{meaning};
ghost use Rattle.pm_top.specs.Asked.{topology_limit, topology_or_fault};
ghost use Rattle.pm_top.specs.Reads.{ReadsFor, topology_named};
ghost use Rattle.pm_top.specs.Within.{ReadsText, ReadsTopology};

use crate::works::word;
use pm_base::NoMemory;
use pm_chip::zynqmp;
use pm_io::{Inputs, StopReason, gather};
use pm_topofile::{TopologyError, read_topology};
use pm_topology::Topology;
use pm_trace::Fault;
use std::alloc::Global;

/// The most bytes that are read of a topology's text.
const TOPOLOGY_LIMIT: u32 = 1_048_576;

/// The topology that the text named by the word at `place` says; without a place the chip's. Fails with Read,
/// TopologyText, Topology or Memory.
pub(crate) fn topology_for<I: Inputs>(
    alloc: Global,
    place: Option<usize>,
    inputs: &mut I,
    words: &[String],
) -> Result<Topology, Fault>
    ensures read { (result ≡ Err Fault.Memory)
        ⊎ ReadsTopology I.observable place (map string_bytes words.now)
        (I.state inputs.old) (I.state inputs.new) result }
    ensures begun { Meanwhile (I.state inputs.old) (I.state inputs.new)
        (ReadsFor result (topology_named place (map string_bytes words.now))) }
    ensures supported { IfOk result IsSupported }
{
    match place {
        Some(k) => read_named(alloc, inputs, word(words, k)),
        None => built_in(alloc),
    }
}

/// The chip's topology.
fn built_in(alloc: Global) -> Result<Topology, Fault>
    ensures exact { (result ≡ Err Fault.Memory) ⊎ (result ≡ Ok chip) }
    ensures supported { IfOk result IsSupported }
{
    match zynqmp(alloc) {
        Ok(topology) => Ok(topology),
        Err(NoMemory) => Err(Fault::Memory),
    }
}

/// Reads the topology that a name of the inputs holds as text. Fails with Read, TopologyText, Topology or Memory.
fn read_named<I: Inputs>(alloc: Global, inputs: &mut I, name: &str) -> Result<Topology, Fault>
    ensures read { (result ≡ Err Fault.Memory)
        ⊎ ReadsText I.observable name.now (I.state inputs.old) (I.state inputs.new) result }
    ensures begun { Meanwhile (I.state inputs.old) (I.state inputs.new)
        (ReadsFor result (named name.now topology_limit ∷ [])) }
    ensures supported { IfOk result IsSupported }
{
    let Ok(prefix) = gather(alloc, inputs, name, TOPOLOGY_LIMIT) else {
        return Err(Fault::Memory);
    };
    match prefix.stop() {
        StopReason::Failure | StopReason::Unbegun => Err(Fault::Read),
        StopReason::End | StopReason::Limit => topology_from(alloc, prefix.bytes()),
    }
}

/// The topology that this text says. Fails with TopologyText, Topology or Memory.
fn topology_from(alloc: Global, text: &[u8]) -> Result<Topology, Fault>
    ensures exact { (result ≡ Err Fault.Memory) ⊎ (topology_or_fault (meaning text.now) ≡ result) }
    ensures supported { IfOk result IsSupported }
{
    match read_topology(alloc, text) {
        Ok(topology) => Ok(topology),
        Err(TopologyError::Bad(fault)) => Err(Fault::TopologyText(fault)),
        Err(TopologyError::Rule(fault)) => Err(Fault::Topology(fault)),
        Err(TopologyError::Memory(_)) => Err(Fault::Memory),
    }
}
