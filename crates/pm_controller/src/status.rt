//! What a configured master is told of a node.

ghost use Rattle.std.specs.Prelude.{◌≡◌, IfSome};
ghost use Rattle.pm_state.specs.Values.{master_place};
ghost use Rattle.pm_controller.specs.Status.{Tells, required_in, status_of};

use pm_base::{Caps, NodeId};
use pm_core::Book;
use pm_rows::Row;
use pm_topology::Kind;

/// The three words that GET_NODE_STATUS (UG1200) tells a master of a node: its operating point, which is the state of a slave,
/// the number of the mode of a processor (0 off, 1 active, 2 asleep, 3 suspending), and 1 of a power node that is up; and of
/// a slave the capabilities that the master requires of it now, and who uses it (0 nobody, 1 only the master, 2 only others,
/// 3 both). Of any other node these two are 0.
#[derive(Clone, Copy, Debug, PartialEq, Eq)]
pub struct NodeStatus {
    pub state: u32,
    pub requirement: Caps,
    pub usage: u32,
}

/// What a master is told of a node. `None` if the chip has no such node, or the master isn't configured.
pub(crate) fn status_of(book: &Book, master: NodeId, node: NodeId) -> Option<NodeStatus>
    ensures status { result ≡ status_of master node book.now }
    ensures told { IfSome result (Tells (master_place master book.now) node book.now) }
{
    let _place = master_place(book, master)?;
    let state = book.point(node);
    match book.topology().kind(node) {
        Kind::Unknown => None,
        Kind::Slave(_) => Some(NodeStatus {
            state,
            requirement: required_in(book.row(master, node)),
            usage: book.usage(master, node)?,
        }),
        Kind::Proc(_) | Kind::Power(_) => Some(NodeStatus {
            state,
            requirement: Caps(0),
            usage: 0,
        }),
    }
}

/// The place of a configured master.
fn master_place(book: &Book, master: NodeId) -> Option<usize>
    ensures { result ≡ master_place master book.now }
{
    book.loaded()
        .masters
        .as_slice()
        .iter()
        .position(|other| other.node == master.0)
}

/// The capabilities that a row requires now.
fn required_in(row: Option<Row>) -> Caps
    ensures { result ≡ required_in row }
{
    match row {
        Some(row) => { if row.used { row.now } else { Caps(0) } }
        None => Caps(0),
    }
}
