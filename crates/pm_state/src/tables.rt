//! The tables of a book: all of it but what is kept of its values and logged along a step.

ghost use Rattle.std.specs.Prelude.{◌≡◌, length};
ghost use Rattle.pm_topology.specs.WellFormed.{IsWellFormed};
ghost use Rattle.pm_topology.specs.Places.{kind_of};
ghost use Rattle.pm_procs.specs.Pending.{pending_at};
ghost use Rattle.pm_state.specs.State.{grants_in};
ghost use Rattle.pm_state.specs.Values.{slave_place, master_place};

use crate::chip::Chip;
use crate::policies::Policy;
use pm_base::{BoundedList, List, NodeId};
use pm_grants::Grants;
use pm_notify::Notify;
use pm_object::{Attached, Object};
use pm_procs::{Pending, Procs};
use pm_resets::Resets;
use pm_rows::{RowSeed, Rows};
use pm_topology::{Kind, Topology};
use std::marker::Model;

/// The object that was loaded, what is attached, which of the objects of the run is in force, the parts of the chip, a
/// row for each permitted pair of a master and a slave, the processors, the reset lines, whether the book is halted,
/// and the notes of each master. Beside these stand the objects of the run, what each of them permits, and room for the
/// seeds of rows that are made anew. The values of the units are kept apart from these tables, and are brought up to
/// date after they changed.
#[derive(Drop)]
pub struct Tables {
    pub(crate) object: Object,
    pub(crate) attached: List<Attached>,
    pub(crate) objects: List<Object>,
    pub(crate) policies: List<Policy>,
    pub(crate) force: usize,
    pub(crate) seeds: BoundedList<RowSeed>,
    pub(crate) topology: Chip,
    pub(crate) rows: Rows,
    pub(crate) procs: Procs,
    pub(crate) notify: Notify,
    pub(crate) resets: Resets,
    pub(crate) halted: bool,
}

impl Model for Tables {
    ghost use Rattle.pm_topology.specs.WellFormed.{IsWellFormed};
    ghost use Rattle.std.specs.Prelude.{◌≡◌, slice_get, unwrap_or};
    ghost use Rattle.pm_state.specs.Kept.{KeepsObjects};
    ghost use Rattle.pm_state.specs.Members.{members_of};
    ghost use Rattle.pm_state.specs.State.{State};

    ghost Value = { State };

    ghost view = { λ tables. record {
      fixed = record { object = tables.object; topology = tables.topology; attached = tables.attached };
      now = record {
        force = unwrap_or (slice_get tables.objects tables.force) tables.object;
        core = record {
          rows = tables.rows;
          procs = tables.procs.procs;
          lines = tables.resets;
          halted = tables.halted;
        };
        talk = record { pending = tables.procs.pending; notes = tables.notify };
      };
    } };

    ghost invariant = { λ tables. IsWellFormed tables.topology
        × (tables.procs.members ≡ members_of tables.object tables.topology)
        × KeepsObjects tables.object tables.attached tables.topology tables.objects tables.policies tables.force
        tables.seeds.room tables.rows.slaves tables.rows.room };
}

impl Tables {
    /// What the object in force permits on the chip, by places.
    pub fn grants(&self) -> &Grants
        ensures { result.now ≡ grants_in self.now }
    {
        &self.policies.get(self.force).grants
    }

    /// The parts of the chip.
    pub fn topology(&self) -> &Topology
        ensures topology { result.now ≡ self.now.fixed.topology }
    {
        self.topology.topology()
    }

    /// What holds in all tables: their chip has passed its check.
    pub fn stays_well_formed(&self)
        ensures { IsWellFormed self.now.fixed.topology }
    {
        let _chip = &self.topology;
    }

    /// Doesn't compile once a field is missing from its pattern. So whoever adds a field has to name it here, and to
    /// see that it is no second copy of the rows: they are in `rows` alone.
    pub fn name_fields(&self) {
        let Tables {
            object: _,
            attached: _,
            objects: _,
            policies: _,
            force: _,
            seeds: _,
            topology: _,
            rows,
            procs: _,
            notify: _,
            resets: _,
            halted: _,
        } = self;
        rows.name_fields();
    }

    /// The number of configured masters.
    pub fn masters(&self) -> usize
        ensures { result ≡ length self.now.fixed.object.masters }
    {
        self.object.masters.len()
    }

    /// The request to suspend that is pending on the master at a place.
    pub fn pending(&self, m: usize) -> Option<Pending>
        ensures { result ≡ pending_at m self.now.now.talk.pending }
    {
        self.procs.pending(m)
    }

    /// What a node is: a slave, processor or power node, with its place, or nothing.
    pub fn kind(&self, node: NodeId) -> Kind
        ensures { result ≡ kind_of self.now.fixed.topology node }
    {
        self.topology.kind(node)
    }

    /// The place of a slave, if the chip has it.
    pub fn slave_place(&self, node: NodeId) -> Option<usize>
        ensures { result ≡ slave_place node self.now }
    {
        self.topology.slave_place(node)
    }

    /// The place of a configured master, if the number is that of one.
    pub fn master_place(&self, node: NodeId) -> Option<usize>
        ensures { result ≡ master_place node self.now }
    {
        self.object
            .masters
            .as_slice()
            .iter()
            .position(|master| master.node == node.0)
    }

    /// The rows of the permitted pairs.
    pub fn rows(&self) -> &Rows
        ensures { result.now ≡ self.now.now.core.rows }
    {
        &self.rows
    }

    /// The processors, what is pending on the masters, and which processors each master has.
    pub fn procs(&self) -> &Procs
        ensures procs { result.now.procs ≡ self.now.now.core.procs }
        ensures pending { result.now.pending ≡ self.now.now.talk.pending }
    {
        &self.procs
    }

    /// The reset lines.
    pub fn resets(&self) -> &Resets
        ensures { result.now ≡ self.now.now.core.lines }
    {
        &self.resets
    }

    /// The notes of each master.
    pub fn notify(&self) -> &Notify
        ensures { result.now ≡ self.now.now.talk.notes }
    {
        &self.notify
    }

    /// Whether the book is halted.
    pub fn is_halted(&self) -> bool
        ensures { result ≡ self.now.now.core.halted }
    {
        self.halted
    }
}
