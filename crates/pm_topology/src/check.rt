//! Whether a topology keeps the rules.

ghost use Rattle.std.specs.Prelude.{◌≡◌, ◌-◌, ◌≤◌, ◌&&◌, ◌==◌, ◌↔◌, None, Err, IsOk, MatchResult, length, not};
ghost use Rattle.std.specs.List.{list_any, list_all};
ghost use Rattle.pm_topology.specs.declared.faults.TopoFault.{TopoFault};
ghost use Rattle.pm_topology.specs.Rules.{IsFirstBroken};
ghost use Rattle.pm_topology.specs.WellFormed.{IsWellFormed};
ghost use Rattle.pm_topology.specs.FirstFault.{covers, first_fault, first_fault_from, has_bad_members, has_power, has_proc, has_slave, is_bad_member, is_bad_target, is_full, is_late, last_is_full, line_cause, master_cause, missing_master, power_cause, proc_cause, slave_cause};

use crate::faults::{TopoCause, TopoFault};
use crate::masters::{has_all_masters, has_master, has_twice, may_have, overlaps};
use crate::topology::{LineDef, MasterDef, PowerDef, ProcDef, SlaveDef, SlaveState, Topology};
use bitflags::Flags;
use pm_base::{LineId, NodeId, is_master_number};

/// The limits of the lists of a topology, and of the states of a slave.
const MAX_POWERS: usize = 64;

const MAX_PROCS: usize = 64;

const MAX_SLAVES: usize = 512;

const MAX_LINES: usize = 1024;

const MAX_MASTERS: usize = 4;

const MAX_STATES: usize = 4;

impl Topology {
    /// Whether the topology keeps the rules: the power nodes first, then the processors, the
    /// slaves, the reset lines and the masters, and at last whether each master has its entry.
    ///
    /// # Errors
    ///
    /// The fault is the first entry that breaks a rule, and of its causes the first in this order: `TooMany`,
    /// `Repeated`, `ParentLate`, `NoStates`, `LastNotFull`, `BadTarget`, `BadMember`, `Overlap`. `NoMaster`
    /// comes where every entry is good.
    pub fn check(&self) -> Result<(), TopoFault>
        ensures well_formed { IsOk result ↔ IsWellFormed self.now }
        // The entries before the fault's own break no rule, and its own breaks none before the one that is told.
        ensures broken { (fault : TopoFault) → result ≡ Err fault → IsFirstBroken self.now fault }
        ensures first { MatchResult result (λ _. first_fault self.now ≡ None)
            (λ fault. first_fault self.now ≡ Some fault) }
    {
        self.first_broken()
    }

    /// The first entry that breaks a rule, with the first of its rules.
    fn first_broken(&self) -> Result<(), TopoFault>
        ensures { MatchResult result (λ _. first_fault self.now ≡ None) (λ fault. first_fault self.now ≡ Some fault) }
    {
        self.check_powers()?;
        self.check_procs()?;
        self.check_slaves()?;
        self.check_lines()?;
        self.check_masters()?;
        self.check_missing()
    }

    /// The first power node that breaks a rule, with the first rule that it breaks.
    fn check_powers(&self) -> Result<(), TopoFault>
        ensures { let first = first_fault_from (power_cause self.now) 0 self.now.powers in
            MatchResult result (λ _. first ≡ None) (λ fault. first ≡ Some fault) }
    {
        for (place, power) in self.powers.as_slice().iter().enumerate() {
            if let Some(cause) = self.power_cause(place, power) {
                return Err(TopoFault { cause, place });
            }
        }
        Ok(())
    }

    /// The first processor that breaks a rule, with the first rule that it breaks.
    fn check_procs(&self) -> Result<(), TopoFault>
        ensures { let first = first_fault_from (proc_cause self.now) 0 self.now.procs in
            MatchResult result (λ _. first ≡ None) (λ fault. first ≡ Some fault) }
    {
        for (place, proc) in self.procs.as_slice().iter().enumerate() {
            if let Some(cause) = self.proc_cause(place, proc) {
                return Err(TopoFault { cause, place });
            }
        }
        Ok(())
    }

    /// The first slave that breaks a rule, with the first rule that it breaks.
    fn check_slaves(&self) -> Result<(), TopoFault>
        ensures { let first = first_fault_from (slave_cause self.now) 0 self.now.slaves in
            MatchResult result (λ _. first ≡ None) (λ fault. first ≡ Some fault) }
    {
        for (place, slave) in self.slaves.as_slice().iter().enumerate() {
            if let Some(cause) = self.slave_cause(place, slave) {
                return Err(TopoFault { cause, place });
            }
        }
        Ok(())
    }

    /// The first reset line that breaks a rule, with the first rule that it breaks.
    fn check_lines(&self) -> Result<(), TopoFault>
        ensures { let first = first_fault_from (line_cause self.now) 0 self.now.lines in
            MatchResult result (λ _. first ≡ None) (λ fault. first ≡ Some fault) }
    {
        for (place, line) in self.lines.as_slice().iter().enumerate() {
            if let Some(cause) = self.line_cause(place, line) {
                return Err(TopoFault { cause, place });
            }
        }
        Ok(())
    }

    /// The first master that breaks a rule, with the first rule that it breaks.
    fn check_masters(&self) -> Result<(), TopoFault>
        ensures { let first = first_fault_from (master_cause self.now) 0 self.now.masters in
            MatchResult result (λ _. first ≡ None) (λ fault. first ≡ Some fault) }
    {
        for (place, master) in self.masters.as_slice().iter().enumerate() {
            if let Some(cause) = self.master_cause(place, master) {
                return Err(TopoFault { cause, place });
            }
        }
        Ok(())
    }

    /// Whether each master has its entry.
    fn check_missing(&self) -> Result<(), TopoFault>
        ensures { let missing = missing_master self.now.masters in
            MatchResult result (λ _. missing ≡ None) (λ fault. missing ≡ Some fault) }
    {
        if has_all_masters(self.masters.as_slice()) {
            Ok(())
        } else {
            Err(TopoFault {
                cause: TopoCause::NoMaster,
                place: self.masters.len(),
            })
        }
    }

    /// The first rule that a power node breaks.
    fn power_cause(&self, place: usize, power: &PowerDef) -> Option<TopoCause>
        requires { place ≤ length self.now.powers }
        ensures { result ≡ power_cause self.now place power.now }
    {
        if place >= MAX_POWERS {
            Some(TopoCause::TooMany)
        } else if has_power(&self.powers.as_slice()[..place], power.node) {
            Some(TopoCause::Repeated)
        } else if is_late(place, power.parent) {
            Some(TopoCause::ParentLate)
        } else {
            None
        }
    }

    /// The first rule that a processor breaks.
    fn proc_cause(&self, place: usize, proc: &ProcDef) -> Option<TopoCause>
        requires { place ≤ length self.now.procs }
        ensures { result ≡ proc_cause self.now place proc.now }
    {
        if place >= MAX_PROCS {
            Some(TopoCause::TooMany)
        } else if has_power(self.powers.as_slice(), proc.node)
            || has_proc(&self.procs.as_slice()[..place], proc.node)
        {
            Some(TopoCause::Repeated)
        } else if proc.parent >= self.powers.len() {
            Some(TopoCause::ParentLate)
        } else {
            None
        }
    }

    /// The first rule that a slave breaks.
    fn slave_cause(&self, place: usize, slave: &SlaveDef) -> Option<TopoCause>
        requires { place ≤ length self.now.slaves }
        ensures { result ≡ slave_cause self.now place slave.now }
    {
        if place >= MAX_SLAVES || slave.states.len() > MAX_STATES {
            Some(TopoCause::TooMany)
        } else if has_power(self.powers.as_slice(), slave.node)
            || has_proc(self.procs.as_slice(), slave.node)
            || has_slave(&self.slaves.as_slice()[..place], slave.node)
        {
            Some(TopoCause::Repeated)
        } else if slave.parent >= self.powers.len() {
            Some(TopoCause::ParentLate)
        } else if slave.states.len() == 0 {
            Some(TopoCause::NoStates)
        } else if !last_is_full(slave.states.as_slice()) {
            Some(TopoCause::LastNotFull)
        } else {
            None
        }
    }

    /// The first rule that a reset line breaks.
    fn line_cause(&self, place: usize, line: &LineDef) -> Option<TopoCause>
        requires { place ≤ length self.now.lines }
        ensures { result ≡ line_cause self.now place line.now }
    {
        if place >= MAX_LINES {
            Some(TopoCause::TooMany)
        } else if has_line(&self.lines.as_slice()[..place], line.line) {
            Some(TopoCause::Repeated)
        } else if self.is_bad_target(line.target) {
            Some(TopoCause::BadTarget)
        } else {
            None
        }
    }

    /// The first rule that a master breaks.
    fn master_cause(&self, place: usize, master: &MasterDef) -> Option<TopoCause>
        requires { place ≤ length self.now.masters }
        ensures { result ≡ master_cause self.now place master.now }
    {
        if place >= MAX_MASTERS {
            Some(TopoCause::TooMany)
        } else if has_master(&self.masters.as_slice()[..place], master.node) {
            Some(TopoCause::Repeated)
        } else if self.has_bad_members(master) {
            Some(TopoCause::BadMember)
        } else if overlaps(master, &self.masters.as_slice()[..place]) {
            Some(TopoCause::Overlap)
        } else {
            None
        }
    }

    /// Whether a reset line's target is no processor and no slave.
    fn is_bad_target(&self, target: Option<NodeId>) -> bool
        ensures { result ≡ is_bad_target self.now target }
    {
        match target {
            Some(node) => {
                !(has_proc(self.procs.as_slice(), node) || has_slave(self.slaves.as_slice(), node))
            }
            None => false,
        }
    }

    /// Whether a master isn't one, has no processors, or names something that is no processor, that it may
    /// not have, or twice.
    fn has_bad_members(&self, master: &MasterDef) -> bool
        ensures { result ≡ has_bad_members self.now master.now }
    {
        let procs = master.procs.as_slice();
        !is_master_number(master.node)
            || procs.is_empty()
            || self.has_stranger(master.node, procs)
            || has_twice(procs)
    }

    /// Whether one of these nodes is no processor, or none that the master may have.
    fn has_stranger(&self, master: NodeId, nodes: &[NodeId]) -> bool
        ensures { result ≡ list_any (is_bad_member self.now master.0) nodes.now }
    {
        nodes.iter().any(|node| self.is_stranger(master, *node))
    }

    /// Whether a master may not have a processor: it isn't there, or its number is another master's.
    fn is_stranger(&self, master: NodeId, node: NodeId) -> bool
        ensures { result ≡ is_bad_member self.now master.0 node }
    {
        !has_proc(self.procs.as_slice(), node) || !may_have(master, node)
    }
}

/// Whether a power node has this number.
pub(crate) fn has_power(powers: &[PowerDef], node: NodeId) -> bool
    ensures { result ≡ has_power node.0 powers.now }
{
    powers.iter().any(|power| power.node == node)
}

/// Whether a processor has this number.
pub(crate) fn has_proc(procs: &[ProcDef], node: NodeId) -> bool
    ensures { result ≡ has_proc node.0 procs.now }
{
    procs.iter().any(|proc| proc.node == node)
}

/// Whether a slave has this number.
pub(crate) fn has_slave(slaves: &[SlaveDef], node: NodeId) -> bool
    ensures { result ≡ has_slave node.0 slaves.now }
{
    slaves.iter().any(|slave| slave.node == node)
}

/// Whether there is a reset line of this number.
pub(crate) fn has_line(lines: &[LineDef], line: LineId) -> bool
    ensures { result ≡ list_any (λ e. e.line.0 == line.0) lines.now }
{
    lines.iter().any(|entry| entry.line == line)
}

/// Whether a power node's parent doesn't stand earlier.
fn is_late(place: usize, parent: Option<usize>) -> bool
    ensures { result ≡ is_late place parent }
{
    match parent {
        Some(parent) => parent >= place,
        None => false,
    }
}

/// Whether the last state has every capability of the others and latency 0.
fn last_is_full(states: &[SlaveState]) -> bool
    ensures { result ≡ last_is_full states.now }
{
    match states.last() {
        Some(last) => is_full(states, last),
        None => false,
    }
}

/// Whether a last state has no latency, and each capability of the others.
fn is_full(states: &[SlaveState], last: &SlaveState) -> bool
    ensures { result ≡ is_full states.now last.now }
{
    last.latency == 0 && covers_all(states, last)
}

/// Whether a state has every capability of these.
fn covers_all(states: &[SlaveState], last: &SlaveState) -> bool
    ensures { result ≡ list_all (covers last.now) states.now }
{
    states.iter().all(|state| last.caps.contains(state.caps))
}
