//! What a book says of its masters, processors and rows by the numbers of nodes.

ghost use Rattle.std.specs.Prelude.{◌≡◌};
ghost use Rattle.pm_state.specs.Nodes.{named_master, mode, master_mode, row};
ghost use Rattle.pm_state.specs.Nodes;

use crate::tables::Tables;
use pm_base::{Mode, NodeId};
use pm_object::MasterRec;
use pm_perms::owner_of;
use pm_procs::Proc;
use pm_rows::Row;
use pm_topology::Kind;

/// The number of the master at a place; 0 if there is none.
pub fn master_node(masters: &[MasterRec], place: usize) -> NodeId
    ensures { result ≡ Nodes.master_node masters.now place }
{
    masters
        .get(place)
        .map_or(NodeId(0), |master| NodeId(master.node))
}

impl Tables {
    /// The master that a node names: the configured master of that number, and else the one that has
    /// that processor.
    pub fn named_master(&self, node: NodeId) -> Option<usize>
        ensures { result ≡ named_master self.now.fixed node }
    {
        match self.master_place(node) {
            Some(m) => Some(m),
            None => owner_of(&self.object, self.topology(), node),
        }
    }

    /// The row of a master on a slave, where the object permits the pair.
    pub fn row(&self, master: NodeId, slave: NodeId) -> Option<Row>
        ensures { result ≡ row master slave self.now }
    {
        let master = self.master_place(master)?;
        let slave = self.slave_place(slave)?;
        self.rows.entry_at(master, slave).map(|entry| entry.row)
    }

    /// The mode of a processor, and Off for any other node.
    pub fn mode(&self, node: NodeId) -> Mode
        ensures { result ≡ mode node self.now }
    {
        match self.kind(node) {
            Kind::Proc(p) => self.procs.mode(p),
            Kind::Slave(_) | Kind::Power(_) | Kind::Unknown => Mode::Off,
        }
    }

    /// The mode of a configured master, and Off for any other node.
    pub fn master_mode(&self, master: NodeId) -> Mode
        ensures { result ≡ master_mode master self.now }
    {
        match self.master_place(master) {
            Some(m) => self.mode_of_master(m),
            None => Mode::Off,
        }
    }
}
