//! What a call takes down: processors, and the rows on slaves.

ghost use Rattle.std.specs.Prelude.{◌≡◌, ◌<◌, ◌∷◌, [], Some, length};
ghost use Rattle.std.specs.List.{flat_map};
ghost use Rattle.pm_topology.specs.Places.{kind_of};
ghost use Rattle.pm_state.specs.Below.{procs_below, slaves_below};
ghost use Rattle.pm_state.specs.Changes.{written_by};
ghost use Rattle.pm_state.specs.Members.{owner_at};
ghost use Rattle.pm_state.specs.Prims.{Clear, changed};
ghost use Rattle.pm_state.specs.Scope as spec;
ghost use Rattle.pm_state.specs.declared.scope.Scope.TheVariants.{Under};

use crate::changes::Changes;
use crate::counters::drop_slave;
use crate::tables::Tables;
use pm_base::{List, Mode, NodeId};
use pm_topology::{Kind, kinds_are_exact};

/// The processors that a call takes off: the forced node or what is below it, those of the master at a
/// place, or all.
#[derive(Clone, Copy, Debug, PartialEq, Eq)]
pub enum Scope {
    Under(NodeId),
    Own(usize),
    All,
}

impl Tables {
    /// The kind of a forced node.
    fn forced_kind(&self, forced: NodeId) -> Kind
        ensures kind { result ≡ kind_of self.now.fixed.topology forced }
        ensures placed { spec.IsPlaced self.now.fixed.topology result }
    {
        kinds_are_exact();
        self.topology.kind(forced)
    }

    /// The places of the slaves below the power node at place `w`.
    fn slaves_below(&self, w: usize) -> &List<usize>
        requires { w < length self.now.fixed.topology.powers }
        ensures { result.now ≡ slaves_below self.now.fixed.topology w }
    {
        self.topology.slaves_below(w)
    }

    /// The places of the processors below the power node at place `w`.
    fn procs_below(&self, w: usize) -> &List<usize>
        requires { w < length self.now.fixed.topology.powers }
        ensures { result.now ≡ procs_below self.now.fixed.topology w }
    {
        self.topology.procs_below(w)
    }

    /// The processors of a scope go off.
    pub fn take_off(&mut self, scope: Scope, changes: &mut Changes)
        ensures book { self.new ≡ changed (spec.offs self.old.fixed scope) self.old }
        ensures written { changes.new ≡ written_by (spec.offs self.old.fixed scope) self.old changes.old }
    {
        match scope {
            Scope::Under(forced) => self.force_off(forced, changes),
            Scope::Own(m) => self.put_masters_off(Some(m), changes),
            Scope::All => self.put_masters_off(None, changes),
        }
    }

    /// A forced processor goes off, or those below a forced power node do.
    fn force_off(&mut self, forced: NodeId, changes: &mut Changes)
        ensures book { self.new ≡ changed (spec.offs self.old.fixed (Under forced)) self.old }
        ensures written { changes.new
            ≡ written_by (spec.offs self.old.fixed (Under forced)) self.old changes.old }
    {
        match self.forced_kind(forced) {
            Kind::Proc(p) => self.put_off(p, changes),
            Kind::Power(w) => self.put_off_below(w, changes),
            Kind::Slave(_) | Kind::Unknown => {}
        }
    }

    /// The processors below the power node at place `w` go off.
    fn put_off_below(&mut self, w: usize, changes: &mut Changes)
        requires { w < length self.old.fixed.topology.powers }
        ensures book { self.new
            ≡ changed (flat_map (spec.off self.old.fixed) (procs_below self.old.fixed.topology w)) self.old }
        ensures written { changes.new
            ≡ written_by (flat_map (spec.off self.old.fixed) (procs_below self.old.fixed.topology w))
            self.old changes.old }
    {
        for k in 0..self.procs_below(w).len() {
            let p = *self.procs_below(w).get(k);
            self.put_off(p, changes);
        }
    }

    /// The processors of the master at a place go off, or those of all masters.
    fn put_masters_off(&mut self, of: Option<usize>, changes: &mut Changes)
        ensures book { self.new ≡ changed (spec.offs self.old.fixed (spec.of_masters of)) self.old }
        ensures written { changes.new
            ≡ written_by (spec.offs self.old.fixed (spec.of_masters of)) self.old changes.old }
    {
        for p in 0..self.topology().procs.len() {
            self.put_off_of(of, p, changes);
        }
    }

    /// The processor at place `p` goes off if it is one of the master's, or of any where none is named.
    fn put_off_of(&mut self, of: Option<usize>, p: usize, changes: &mut Changes)
        ensures book { self.new ≡ changed (spec.off_of self.old.fixed of p) self.old }
        ensures written { changes.new ≡ written_by (spec.off_of self.old.fixed of p) self.old changes.old }
    {
        match of {
            Some(m) => self.put_own_off(m, p, changes),
            None => self.put_off(p, changes),
        }
    }

    /// The processor at place `p` goes off if the master at place `m` has it.
    fn put_own_off(&mut self, m: usize, p: usize, changes: &mut Changes)
        ensures book { self.new ≡ changed (spec.off_of self.old.fixed (Some m) p) self.old }
        ensures written { changes.new
            ≡ written_by (spec.off_of self.old.fixed (Some m) p) self.old changes.old }
    {
        if self.owns(m, p) {
            self.set_proc(p, Mode::Off, 0, changes);
        }
    }

    /// The processor at place `p` goes off, if a configured master has it.
    fn put_off(&mut self, p: usize, changes: &mut Changes)
        ensures book { self.new ≡ changed (spec.off self.old.fixed p) self.old }
        ensures written { changes.new ≡ written_by (spec.off self.old.fixed p) self.old changes.old }
    {
        if self.owner(p).is_some() {
            self.set_proc(p, Mode::Off, 0, changes);
        }
    }

    /// The rows on the slaves below a forced node are cleared but for their presets.
    pub fn clear_below(&mut self, forced: NodeId, changes: &mut Changes)
        ensures book { self.new ≡ changed (spec.clears self.old.fixed forced) self.old }
        ensures written { changes.new ≡ written_by (spec.clears self.old.fixed forced) self.old changes.old }
    {
        match self.forced_kind(forced) {
            Kind::Power(w) => self.clear_slaves(w, changes),
            Kind::Proc(_) | Kind::Slave(_) | Kind::Unknown => {}
        }
    }

    /// The rows on the slaves below the power node at place `w` are cleared but for their presets.
    fn clear_slaves(&mut self, w: usize, changes: &mut Changes)
        requires { w < length self.old.fixed.topology.powers }
        ensures book { self.new
            ≡ changed (flat_map spec.clear (slaves_below self.old.fixed.topology w)) self.old }
        ensures written { changes.new
            ≡ written_by (flat_map spec.clear (slaves_below self.old.fixed.topology w)) self.old changes.old }
    {
        for k in 0..self.slaves_below(w).len() {
            let s = *self.slaves_below(w).get(k);
            self.clear_slave(s, changes);
        }
    }

    /// The rows on the slave at place `s` are cleared but for their presets.
    fn clear_slave(&mut self, s: usize, changes: &mut Changes)
        ensures book { self.new ≡ changed (Clear s ∷ []) self.old }
        ensures written { changes.new ≡ written_by (Clear s ∷ []) self.old changes.old }
    {
        changes.slave(s);
        drop_slave(&mut self.rows, s);
    }
}
