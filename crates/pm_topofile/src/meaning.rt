//! The topology that a text means.

ghost use Rattle.std.specs.Prelude.{◌≤◌, length, IfOk, Ok};
ghost use Rattle.pm_io.specs.Lines.{lines_of};
ghost use Rattle.pm_topology.specs.WellFormed.{IsSupported};
ghost use Rattle.pm_topology.specs.declared.topology.Topology.{Topology};
ghost use Rattle.pm_topofile.specs.Answers.{Gives};
ghost use Rattle.pm_topofile.specs.Meaning.{lines_taken, meaning};
ghost use Rattle.pm_topofile.specs.Means.{Means};
ghost use Rattle.pm_topofile.specs.Taking.{nothing};

use crate::draft::Draft;
use crate::fault::{TopoTextCause, TopoTextFault, TopologyError};
use pm_io::{Ending, split_line};
use pm_topology::Topology;
use std::alloc::Global;

/// The greatest number of bytes of a text.
const MOST_BYTES: usize = 1_048_576;

/// What all lines say, apart from the test of the text's length: one loop.
fn read_lines(alloc: Global, text: &[u8]) -> Result<Topology, TopologyError>
    requires { length text.now ≤ 1048576 }
    ensures { Gives result (lines_taken 1 nothing (lines_of text.now)) }
{
    let mut draft = Draft::new(alloc);
    let mut left = text;
    'lines: while let Some((line, after)) = split_line(left, Ending::Whole) {
        draft.read(alloc, line)?;
        left = after;
    }
    Ok(draft.finish(alloc)?)
}

/// The topology of a text, apart from `read_topology` so that one proof alone unfolds what a text means.
#[tactic(auto, unfolding(crate::specs::Meaning::meaning))]
fn read_text(alloc: Global, text: &[u8]) -> Result<Topology, TopologyError>
    ensures { Gives result (meaning text.now) }
{
    if text.len() > MOST_BYTES {
        return Err(TopologyError::Bad(TopoTextFault {
            line: 0,
            cause: TopoTextCause::Size,
        }));
    }
    let topology = read_lines(alloc, text)?;
    topology.check()?;
    Ok(topology)
}

/// The topology that a text means. Spaces, tabs, comments and empty lines between its words and lines make no
/// difference, nor does the way in which a number is written.
///
/// # Errors
///
/// `Bad` with line 0 and cause `Size` comes exactly if the text has more than 1,048,576 bytes, else `Bad` with the
/// first line that is wrong and the first of its causes, exactly if a line is wrong. `Rule` comes exactly if
/// each line is right and the topology breaks a rule, with the first fault of its check. The other error is want of
/// memory.
pub fn read_topology(alloc: Global, text: &[u8]) -> Result<Topology, TopologyError>
    // The text means what is read.
    ensures found { IfOk result (λ t. Means text.now t) }
    // What the text means is read.
    ensures only { (t : Topology) → Means text.now t → Gives result (Ok t) }
    // The answer is the topology that the text means, or its first fault.
    ensures exact { Gives result (meaning text.now) }
    // It keeps all rules, and its capabilities are known ones.
    ensures supported { IfOk result IsSupported }
{
    read_text(alloc, text)
}
