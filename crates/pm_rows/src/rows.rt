//! The rows of the book: one for each pair of a master and a slave that the object permits.

ghost use Rattle.std.specs.Prelude.{◌≡◌, ◌+◌, ◌-◌, ◌<◌, ◌≤◌, ◌^◌, IsTrue, min, length, slice_get, Some, IfOk};
ghost use Rattle.std.specs.List.{list_all};
ghost use Rattle.pm_rows.specs.declared.row.Change.TheVariants.{Request, Release, Set, Limit, Arm};
ghost use Rattle.pm_rows.specs.Cost.{IsCheap, change_cost};
ghost use Rattle.pm_rows.specs.Counted.{is_placed_seed};
ghost use Rattle.pm_rows.specs.Links.{IsNextOf};
ghost use Rattle.pm_rows.specs.Rows.{mode_of, loaded_rows, remade, row_changed, settled, slave_dropped, all_cleared, entry_at, row_at, rival_of, users_of, usage_of};
ghost use Rattle.pm_rows.specs.Shift.{shifted};
ghost use Rattle.pm_rows.specs.Wanted.{wanted_of};

use crate::filling::fill;
use crate::modes::{loaded_modes, mode_in, set_mode};
use crate::passes::Pass;
use crate::passing::pass_over;
use crate::row::{Change, Entry, Row, RowSeed};
use crate::seeking::{Sought, found, users};
use crate::table::Table;
use crate::turning::shift_all;
use crate::wanted::Wanted;
use pm_base::{Caps, Mode, NoMemory, NodeId, Steps};
use std::alloc::Global;
use std::marker::Model;
use std::sync::ledger::Ledger;

/// Whether the slave of each of these pairs is one of so many: the condition of rows that are loaded or made anew.
pub fn are_placed(slaves: usize, seeds: &[RowSeed]) -> bool
    ensures { result ≡ list_all (is_placed_seed slaves) seeds.now }
{
    seeds.iter().all(|seed| seed.slave < slaves)
}

/// The rows, each with its pair, and the mode that they know of each master. Contracts see them as the
/// record of these. What is counted of the rows of each slave is kept with every change.
#[derive(Drop)]
pub struct Rows {
    pub(crate) table: Table,
    pub(crate) known: Vec<Mode>,
}

impl Model for Rows {
    ghost use Rattle.std.specs.Prelude.{map};
    ghost use Rattle.pm_rows.specs.Counted.{AreTallied, counted};
    ghost use Rattle.pm_rows.specs.Rows.{Rows};

    ghost Value = { Rows };

    ghost view = { λ rows. record {
      entries = rows.table.entries;
      known = rows.known.items;
      slaves = rows.table.slaves;
      room = rows.table.room;
    } };

    ghost invariant = { λ rows. AreTallied (map (counted rows.known.items) rows.table.entries) rows.table.tally };
}

impl Rows {
    /// A row for each permitted pair, as it is at load, with room for so many pairs. The master at place `boot` is
    /// active, and the others of these `masters` are off. No later call takes memory.
    ///
    /// # Errors
    ///
    /// `NoMemory` if there is not enough memory. Room for 2^31 pairs and more is taken to be too much.
    pub fn load<L: Ledger>(
        alloc: Global,
        masters: usize,
        slaves: usize,
        boot: usize,
        pairs: usize,
        seeds: &[RowSeed],
        steps: &mut Steps<L>,
    ) -> Result<Rows, NoMemory>
        requires room { length seeds.now ≤ pairs }
        requires placed { IsTrue (list_all (is_placed_seed slaves) seeds.now) }
        ensures { IfOk result (λ rows. rows ≡ loaded_rows masters slaves boot pairs seeds.now) }
    {
        if pairs >= 1 << 31 {
            return Err(NoMemory);
        }
        let mut table = Table::blank(alloc, masters, slaves, pairs)?;
        table.refit(seeds);
        let known = loaded_modes(alloc, masters, boot)?;
        fill(&mut table, &known, seeds, steps);
        Ok(Rows { table, known })
    }

    /// Doesn't compile once a field is missing from its pattern. So whoever adds a field has to name it here, and to
    /// see that it is no second copy of the rows: they are in `table` alone.
    pub fn name_fields(&self) {
        let Rows { table, known: _ } = self;
        table.name_fields();
    }

    /// The mode that the rows know of a master, and off for a master that isn't there.
    pub fn mode(&self, master: usize) -> Mode
        ensures { result ≡ mode_of master self.now }
    {
        mode_in(&self.known, master)
    }

    /// The number of masters of which the rows know the mode.
    pub fn masters(&self) -> usize
        ensures { result ≡ length self.now.known }
    {
        self.known.len()
    }

    /// The number of rows.
    pub fn len(&self) -> usize
        ensures { result ≡ length self.now.entries }
    {
        self.table.len()
    }

    /// The row at a place with its pair.
    pub fn entry(&self, k: usize) -> Entry
        requires { k < length self.now.entries }
        ensures { slice_get self.now.entries k ≡ Some result }
    {
        self.table.peek(k)
    }

    /// A place from this one on before which no row of a master stands: that of its next row, or the number of rows, unless
    /// the row before this place is another's. So a walk over the rows of a master looks at no other.
    pub fn next_of(&self, master: usize, from: usize) -> usize
        ensures { IsNextOf master from result self.now.entries }
    {
        self.table.next_of(master, from)
    }

    /// The row of a pair with its pair, which is there if the pair is permitted.
    pub fn entry_at(&self, master: usize, slave: usize) -> Option<Entry>
        ensures { result ≡ entry_at master slave self.now }
    {
        found(&self.table, Sought::At(master, slave))
    }

    /// The row of a pair, which is there if the pair is permitted.
    pub fn row(&self, master: usize, slave: usize) -> Option<Row>
        ensures { result ≡ row_at master slave self.now }
    {
        self.entry_at(master, slave).map(|entry| entry.row)
    }

    /// The place of another master that uses this slave, if the slave can't be shared.
    pub fn rival(&self, master: usize, slave: usize) -> Option<usize>
        ensures { result ≡ rival_of master slave self.now }
    {
        found(&self.table, Sought::Rival(master, slave)).map(|entry| entry.seed.master)
    }

    /// Changes the row of a pair, if it is there, and no other. Each row that is read and each count that
    /// changes is a step.
    #[inline(always)]
    pub fn change<L: Ledger>(
        &mut self,
        master: usize,
        slave: usize,
        by: Change,
        steps: &mut Steps<L>,
    )
        ensures rows { self.new ≡ row_changed master slave by self.old }
        ensures counted { steps.new ≡ steps.old + change_cost master slave by self.old }
        ensures cost { IsCheap master slave self.old steps.old steps.new }
    {
        pass_over(
            &mut self.table,
            &self.known,
            Pass::One(master, slave, by),
            steps,
        );
    }

    /// The slave is used by the master from now on, with these capabilities and no limit on its latency
    /// (UG1200, PM_REQUEST_NODE).
    pub fn request<L: Ledger>(
        &mut self,
        master: usize,
        slave: usize,
        caps: Caps,
        steps: &mut Steps<L>,
    )
        ensures rows { self.new ≡ row_changed master slave (Request caps) self.old }
        ensures counted { steps.new ≡ steps.old + change_cost master slave (Request caps) self.old }
        ensures cost { IsCheap master slave self.old steps.old steps.new }
    {
        self.change(master, slave, Change::Request(caps), steps);
    }

    /// The slave isn't used by the master any more. Its arming and its hold stay (UG1200,
    /// PM_RELEASE_NODE).
    pub fn release<L: Ledger>(&mut self, master: usize, slave: usize, steps: &mut Steps<L>)
        ensures rows { self.new ≡ row_changed master slave Release self.old }
        ensures counted { steps.new ≡ steps.old + change_cost master slave Release self.old }
        ensures cost { IsCheap master slave self.old steps.old steps.new }
    {
        self.change(master, slave, Change::Release, steps);
    }

    /// The master requires these capabilities of the slave: at once while it is active, and from its
    /// sleep on while it is suspending (UG1200, PM_SET_REQUIREMENT).
    pub fn set<L: Ledger>(&mut self, master: usize, slave: usize, caps: Caps, steps: &mut Steps<L>)
        ensures rows { self.new ≡ row_changed master slave (Set (mode_of master self.old) caps) self.old }
        ensures counted { steps.new ≡ steps.old + change_cost master slave (Set (mode_of master self.old) caps) self.old }
        ensures cost { IsCheap master slave self.old steps.old steps.new }
    {
        let mode = self.mode(master);
        self.change(master, slave, Change::Set(mode, caps), steps);
    }

    /// The master allows this latency of the slave at most (UG1200, PM_SET_MAX_LATENCY).
    pub fn limit<L: Ledger>(
        &mut self,
        master: usize,
        slave: usize,
        latency: u32,
        steps: &mut Steps<L>,
    )
        ensures rows { self.new ≡ row_changed master slave (Limit latency) self.old }
        ensures counted { steps.new ≡ steps.old + change_cost master slave (Limit latency) self.old }
        ensures cost { IsCheap master slave self.old steps.old steps.new }
    {
        self.change(master, slave, Change::Limit(latency), steps);
    }

    /// The slave's interrupt wakes this processor of the master, or none (UG1200, PM_SET_WAKEUP_SOURCE).
    pub fn arm<L: Ledger>(
        &mut self,
        master: usize,
        slave: usize,
        target: Option<NodeId>,
        steps: &mut Steps<L>,
    )
        ensures rows { self.new ≡ row_changed master slave (Arm target) self.old }
        ensures counted { steps.new ≡ steps.old + change_cost master slave (Arm target) self.old }
        ensures cost { IsCheap master slave self.old steps.old steps.new }
    {
        self.change(master, slave, Change::Arm(target), steps);
    }

    /// Drops each hold of a master (UG1200, PM_INIT_FINALIZE).
    pub fn settle<L: Ledger>(&mut self, master: usize, steps: &mut Steps<L>)
        ensures { self.new ≡ settled master self.old }
    {
        pass_over(&mut self.table, &self.known, Pass::Settle(master), steps);
    }

    /// The master's mode is `to` from now on, and its rows change as that change of its mode asks.
    pub fn shift<L: Ledger>(&mut self, master: usize, to: Mode, steps: &mut Steps<L>)
        ensures { self.new ≡ shifted master to self.old }
    {
        let from = mode_in(&self.known, master);
        shift_all(&mut self.table, &self.known, master, from, to, steps);
        set_mode(&mut self.known, master, to);
    }

    /// Clears all rows on a slave but for their presets.
    pub fn drop_slave<L: Ledger>(&mut self, slave: usize, steps: &mut Steps<L>)
        ensures { self.new ≡ slave_dropped slave self.old }
    {
        pass_over(&mut self.table, &self.known, Pass::DropSlave(slave), steps);
    }

    /// Clears all rows but for their presets.
    pub fn clear<L: Ledger>(&mut self, steps: &mut Steps<L>)
        ensures { self.new ≡ all_cleared self.old }
    {
        pass_over(&mut self.table, &self.known, Pass::Clear, steps);
    }

    /// All rows are made anew: one for each seed. The modes that are known stay. No memory is taken.
    pub fn reload<L: Ledger>(&mut self, seeds: &[RowSeed], steps: &mut Steps<L>)
        requires room { length seeds.now ≤ self.old.room }
        requires placed { IsTrue (list_all (is_placed_seed self.old.slaves) seeds.now) }
        ensures { self.new ≡ remade seeds.now self.old }
    {
        pass_over(&mut self.table, &self.known, Pass::Clear, steps);
        self.table.refit(seeds);
        fill(&mut self.table, &self.known, seeds, steps);
    }

    /// The requirements in force on a slave.
    pub fn wanted(&self, slave: usize) -> Wanted
        ensures { result ≡ wanted_of slave self.now }
    {
        self.table.wanted(slave, &self.known)
    }

    /// How many masters use a slave. The count stands still at the end of its type.
    pub fn users(&self, slave: usize) -> u32
        ensures { result ≡ min (users_of slave self.now) (2 ^ 32 - 1) }
    {
        self.table.users(slave)
    }

    /// Who uses a slave, as a master is told it: 0 nobody, 1 only that master, 2 only others, 3 both
    /// (UG1200, node status).
    pub fn usage(&self, master: usize, slave: usize) -> u32
        ensures { result ≡ usage_of master slave self.now }
    {
        match users(&self.table, master, slave) {
            (false, false) => 0,
            (true, false) => 1,
            (false, true) => 2,
            (true, true) => 3,
        }
    }
}
