//! The reset lines of a book, and what the calls read of one.

ghost use Rattle.std.specs.Prelude.{◌≡◌, slice_get};
ghost use Rattle.pm_calls.specs.ResetLines.{can_reset, line_status, line_view, owned_by, owned_node, owned_of, reset_at};
ghost use Rattle.pm_state.specs.Values.{line_place};

use pm_base::{LineId, NodeId};
use pm_state::Tables;
use pm_topology::{Kind, LineDef};

/// A processor, by its place, and the place of the configured master that has it.
#[derive(Clone, Copy, Debug, PartialEq, Eq)]
pub struct OwnedProc {
    pub owner: usize,
    pub proc: usize,
}

/// What a master sees of a reset line: its place, if the chip has it; whether the object permits the master to reset
/// it; and the processor that it resets, if a configured master has that.
#[derive(Clone, Copy, Debug, PartialEq, Eq)]
pub struct LineView {
    pub place: Option<usize>,
    pub permitted: bool,
    pub target: Option<OwnedProc>,
}

/// The reset line at a place, if there is one.
fn line_at(lines: &[LineDef], place: usize) -> Option<LineDef>
    ensures { result ≡ slice_get lines.now place }
{
    lines.get(place).copied()
}

/// The place of a reset line, if the chip has it.
fn line_place(tables: &Tables, line: LineId) -> Option<usize>
    ensures { result ≡ line_place line tables.now.fixed }
{
    tables.topology().line_place(line)
}

/// What the calls read of a reset line.
pub(crate) fn line_view(tables: &Tables, master: usize, line: LineId) -> LineView
    ensures { result ≡ line_view master line tables.now }
{
    let place = line_place(tables, line);
    LineView {
        place,
        permitted: can_reset(tables, master, place),
        target: reset_at(tables, place),
    }
}

/// Whether the object permits a master to reset the line at a place; false without a place.
fn can_reset(tables: &Tables, master: usize, place: Option<usize>) -> bool
    ensures { result ≡ can_reset master place tables.now }
{
    match place {
        Some(line) => tables.grants().permits_reset(master, line),
        None => false,
    }
}

/// The processor that the line at a place resets, if it resets one that a configured master has.
fn reset_at(tables: &Tables, place: Option<usize>) -> Option<OwnedProc>
    ensures { result ≡ reset_at place tables.now.fixed }
{
    let line = line_at(tables.topology().lines.as_slice(), place?)?;
    owned_node(tables, line.target)
}

/// The processor that a target is, with its owner; None if the target is no processor that a configured master has.
fn owned_node(tables: &Tables, target: Option<NodeId>) -> Option<OwnedProc>
    ensures { result ≡ owned_node target tables.now.fixed }
{
    owned_of(tables, tables.kind(target?))
}

/// The processor of a node of this kind, with its owner; None if it isn't one that a configured master has.
fn owned_of(tables: &Tables, kind: Kind) -> Option<OwnedProc>
    ensures { result ≡ owned_of kind tables.now.fixed }
{
    match kind {
        Kind::Proc(p) => owned_by(tables.owner(p), p),
        Kind::Slave(_) | Kind::Power(_) | Kind::Unknown => None,
    }
}

/// The value of a reset line, 0 or 1; None if the chip has no such line.
pub(crate) fn line_status(tables: &Tables, line: LineId) -> Option<u32>
    ensures { result ≡ line_status line tables.now }
{
    let place = line_place(tables, line)?;
    Some(tables.resets().value(place))
}

/// A processor with its owner; None if it has no owner.
fn owned_by(owner: Option<usize>, p: usize) -> Option<OwnedProc>
    ensures { result ≡ owned_by owner p }
{
    let owner = owner?;
    Some(OwnedProc { owner, proc: p })
}
