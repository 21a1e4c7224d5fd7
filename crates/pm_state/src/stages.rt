//! The stages of a step: changes of the book, after which the rows follow the masters whose mode changed.

ghost use Rattle.std.specs.Prelude.{◌≡◌, ◌∷◌, [], length, replicate};
ghost use Rattle.pm_base.specs.declared.names.Mode.TheVariants.{Off};
ghost use Rattle.pm_rows.specs.Modes.{loaded_modes};
ghost use Rattle.pm_state.specs.Members.{mode_of_master, owner_at, owns, first_own};
ghost use Rattle.pm_state.specs.Prims.{changed, with_proc, At_row, Enforce, Halt, Put_proc, Reload, Settle, Put_line};
ghost use Rattle.pm_state.specs.Changes.{with_proc as proc_written, written_by, written_stage};
ghost use Rattle.pm_state.specs.Stages.{after_stage, follow, follow_at, followed};

use crate::changes::Changes;
use crate::counters::{change, clear, reload, settle, shift};
use crate::load::{active_at_load, start};
use crate::members::owner_at;
use crate::seeds::{put_anew, put_at_load};
use crate::tables::Tables;
use pm_base::Mode;
use pm_procs::{Proc, same_mode};
use pm_rows::{Change, Rows, is_start};

/// Each master is off.
fn put_all_off(rows: &mut Rows)
    ensures known { rows.new.known ≡ replicate (length rows.old.known) Off }
    ensures slaves { rows.new.slaves ≡ rows.old.slaves }
    ensures room { rows.new.room ≡ rows.old.room }
{
    for m in 0..rows.masters() {
        shift(rows, m, Mode::Off);
    }
}

/// The rows know the modes of the masters at load, where the one at place `first` is active.
fn know_load(rows: &mut Rows, first: usize)
    ensures known { rows.new.known ≡ loaded_modes (length rows.old.known) first }
    ensures slaves { rows.new.slaves ≡ rows.old.slaves }
    ensures room { rows.new.room ≡ rows.old.room }
{
    put_all_off(rows);
    shift(rows, first, Mode::Active);
}

impl Tables {
    /// The place of the configured master that has the processor at a place.
    pub fn owner(&self, p: usize) -> Option<usize>
        ensures { result ≡ owner_at self.now.fixed.object self.now.fixed.topology p }
    {
        owner_at(&self.object, self.topology(), p)
    }

    /// Whether the processor at place `p` is that of the master at place `m`.
    pub fn owns(&self, m: usize, p: usize) -> bool
        ensures { result ≡ owns self.now.fixed.object self.now.fixed.topology m p }
    {
        self.owner(p) == Some(m)
    }

    /// The mode of the master at a place, by its processors.
    pub fn mode_of_master(&self, m: usize) -> Mode
        ensures { result ≡ mode_of_master self.now.fixed self.now.now.core m }
    {
        self.procs.master_mode(m)
    }

    /// A processor of a master goes to a mode, with a resume address.
    pub fn put_proc(&mut self, m: usize, p: usize, mode: Mode, address: u64, changes: &mut Changes)
        ensures book { self.new ≡ changed (Put_proc m p mode address ∷ []) self.old }
        ensures written { changes.new ≡ written_by (Put_proc m p mode address ∷ []) self.old changes.old }
    {
        if self.owns(m, p) {
            self.set_proc(p, mode, address, changes);
        }
    }

    /// The processor at a place goes to a mode, with a resume address, whichever master has it.
    pub(crate) fn set_proc(&mut self, p: usize, mode: Mode, address: u64, changes: &mut Changes)
        ensures book { self.new ≡ with_proc p mode address self.old }
        ensures written { changes.new ≡ proc_written p changes.old }
    {
        changes.proc(p);
        self.procs.set(p, Proc { mode, address }.gone(mode));
    }

    /// The rows of the master at a place shift where the mode that they know isn't the one that its
    /// processors give.
    fn follow_master(&mut self, m: usize, changes: &mut Changes)
        ensures book { self.new ≡ changed (follow_at self.old.fixed self.old.now.core m) self.old }
        ensures written { changes.new
            ≡ written_by (follow_at self.old.fixed self.old.now.core m) self.old changes.old }
    {
        let mode = self.mode_of_master(m);
        let known = self.rows.mode(m);
        if !same_mode(known, mode) {
            changes.rows(Some(m), is_start(known, mode), &self.rows);
            changes.master(m, known);
            shift(&mut self.rows, m, mode);
        }
    }

    /// The rows of each master follow it, in object order.
    pub fn follow(&mut self, changes: &mut Changes)
        ensures book { self.new ≡ followed self.old }
        ensures written { changes.new ≡ written_by (follow self.old) self.old changes.old }
    {
        for m in 0..self.object.masters.len() {
            self.follow_master(m, changes);
        }
    }

    /// The stage that changes the row of a pair.
    pub fn row_stage(&mut self, master: usize, slave: usize, by: Change, changes: &mut Changes)
        ensures book { self.new ≡ after_stage (At_row master slave by ∷ []) self.old }
        ensures written { changes.new ≡ written_stage (At_row master slave by ∷ []) self.old changes.old }
    {
        changes.slave(slave);
        change(&mut self.rows, master, slave, by);
        self.follow(changes);
    }

    /// The stage in which a master drops its holds.
    pub fn settle_stage(&mut self, master: usize, changes: &mut Changes)
        ensures book { self.new ≡ after_stage (Settle master ∷ []) self.old }
        ensures written { changes.new ≡ written_stage (Settle master ∷ []) self.old changes.old }
    {
        changes.rows(Some(master), false, &self.rows);
        settle(&mut self.rows, master);
        self.follow(changes);
    }

    /// The reset line at a place is asserted or released.
    pub fn put_line(&mut self, place: usize, asserted: bool, changes: &mut Changes)
        ensures book { self.new ≡ changed (Put_line place asserted ∷ []) self.old }
        ensures written { changes.new ≡ written_by (Put_line place asserted ∷ []) self.old changes.old }
    {
        changes.line(place);
        self.resets.put(place, asserted);
    }

    /// The book is halted, and each of its rows is cleared but for its preset.
    pub fn halt(&mut self, changes: &mut Changes)
        ensures book { self.new ≡ changed (Halt ∷ []) self.old }
        ensures written { changes.new ≡ written_by (Halt ∷ []) self.old changes.old }
    {
        changes.rows(None, false, &self.rows);
        clear(&mut self.rows);
        self.halted = true;
    }

    /// The rows, the processors and the reset lines are as at load with the object in force, and the book isn't
    /// halted.
    pub fn reload(&mut self, changes: &mut Changes)
        ensures book { self.new ≡ changed (Reload ∷ []) self.old }
        ensures written { changes.new ≡ written_by (Reload ∷ []) self.old changes.old }
    {
        changes.all_but_slaves(&self.rows);
        changes.rows(None, false, &self.rows);
        let boot = self.first_proc(0);
        let first = active_at_load(boot, self.object.masters.len());
        put_at_load(
            &mut self.seeds,
            first,
            self.policies.get(self.force).pairs.as_slice(),
        );
        know_load(&mut self.rows, first);
        reload(&mut self.rows, self.seeds.as_slice());
        changes.rows(None, false, &self.rows);
        self.procs.put_all_off();
        start(&mut self.procs, boot);
        self.resets.restart();
        self.halted = false;
    }

    /// The object at place `k` of the run is in force, and all rows are made anew of it. Nothing changes if there is
    /// none.
    pub fn enforce(&mut self, k: usize, changes: &mut Changes)
        ensures book { self.new ≡ changed (Enforce k ∷ []) self.old }
        ensures written { changes.new ≡ written_by (Enforce k ∷ []) self.old changes.old }
    {
        if k < self.objects.len() {
            changes.rows(None, false, &self.rows);
            put_anew(
                &mut self.seeds,
                &self.rows,
                self.policies.get(k).pairs.as_slice(),
            );
            reload(&mut self.rows, self.seeds.as_slice());
            changes.rows(None, false, &self.rows);
            self.force = k;
        }
    }

    /// The stage in which the object at place `k` of the run is put in force.
    pub fn enforce_stage(&mut self, k: usize, changes: &mut Changes)
        ensures book { self.new ≡ after_stage (Enforce k ∷ []) self.old }
        ensures written { changes.new ≡ written_stage (Enforce k ∷ []) self.old changes.old }
    {
        self.enforce(k, changes);
        self.follow(changes);
    }

    /// The place of the first processor of the master at a place.
    pub fn first_proc(&self, m: usize) -> Option<usize>
        ensures { result ≡ first_own self.now.fixed m }
    {
        self.procs.members(m).first().copied()
    }

    /// The stage in which a processor of a master goes to a mode, with a resume address.
    pub fn proc_stage(
        &mut self,
        m: usize,
        p: usize,
        mode: Mode,
        address: u64,
        changes: &mut Changes,
    )
        ensures book { self.new ≡ after_stage (Put_proc m p mode address ∷ []) self.old }
        ensures written { changes.new ≡ written_stage (Put_proc m p mode address ∷ []) self.old changes.old }
    {
        self.put_proc(m, p, mode, address, changes);
        self.follow(changes);
    }
}
