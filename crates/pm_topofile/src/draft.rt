//! A topology while its text is read, line by line.

ghost use Rattle.std.specs.Prelude.{◌≡◌, ◌+◌, ◌<◌, ◌^◌, ◌++◌, ◌∷◌, [], OnOk, IfOk};
ghost use Rattle.pm_topofile.specs.Answers.{GivesInto};
ghost use Rattle.pm_topofile.specs.Draft.{so_far};
ghost use Rattle.pm_topofile.specs.Meaning.{at_line, line_taken};
ghost use Rattle.pm_topofile.specs.declared.item.Item.TheVariants.{Power, Proc, Slave};
ghost use Rattle.pm_topology.specs.Places.{power_place};
ghost use Rattle.pm_topofile.specs.Taking.{nothing, before_masters, before_lines, before_slaves, before_procs, stands, optional_place, placed, taken};
ghost use Rattle.pm_topofile.specs.declared.fault.TopologyError.TheVariants.{Bad};

use crate::fault::{TopoTextCause, TopoTextFault, TopologyError};
use crate::item::{Item, PowerLine, ProcLine, SlaveLine};
use crate::last::{add_members, add_state};
use crate::reading::item_of;
use pm_base::{List, NoMemory, NodeId};
use pm_topology::{LineDef, MasterDef, PowerDef, ProcDef, SlaveDef, Topology};
use std::alloc::Global;

/// What the lines so far say. `line` is the number of the line that comes next. The last slave and the last master
/// can still grow.
#[derive(Drop)]
pub struct Draft {
    pub line: u32,
    pub powers: List<PowerDef>,
    pub procs: List<ProcDef>,
    pub slaves: Vec<SlaveDef>,
    pub lines: List<LineDef>,
    pub masters: Vec<MasterDef>,
}

impl Draft {
    /// Nothing yet.
    pub fn new(alloc: Global) -> Self
        ensures first { result.line ≡ 1 }
        ensures none { so_far result ≡ nothing }
    {
        Draft {
            line: 1,
            powers: List::new(alloc),
            procs: List::new(alloc),
            slaves: Vec::new(alloc),
            lines: List::new(alloc),
            masters: Vec::new(alloc),
        }
    }

    /// Whether no `owner` line was read: a `line` line may come.
    fn is_before_masters(&self) -> bool
        ensures { result ≡ before_masters (so_far self.now) }
    {
        self.masters.is_empty()
    }

    /// Whether no `line` line, nor a later kind, was read: a `slave` or `state` line may come.
    fn is_before_lines(&self) -> bool
        ensures { result ≡ before_lines (so_far self.now) }
    {
        self.lines.is_empty() && self.is_before_masters()
    }

    /// Whether no `slave` line, nor a later kind, was read: a `proc` line may come.
    fn is_before_slaves(&self) -> bool
        ensures { result ≡ before_slaves (so_far self.now) }
    {
        self.slaves.is_empty() && self.is_before_lines()
    }

    /// Whether no `proc` line, nor a later kind, was read: a `power` line may come.
    fn is_before_procs(&self) -> bool
        ensures { result ≡ before_procs (so_far self.now) }
    {
        self.procs.is_empty() && self.is_before_slaves()
    }

    /// Whether a line stands in its place: no entry of a later kind comes before it, and a state follows a slave.
    fn stands(&self, item: &Item) -> bool
        ensures { result ≡ stands item.now (so_far self.now) }
    {
        match item {
            Item::Empty | Item::Owner(_, _) => true,
            Item::Power(_) => self.is_before_procs(),
            Item::Proc(_) => self.is_before_slaves(),
            Item::Slave(_) => self.is_before_lines(),
            Item::State(_) => !self.slaves.is_empty() && self.is_before_lines(),
            Item::Line(_) => self.is_before_masters(),
        }
    }

    /// The place of the power node of a number.
    fn place_of(&self, node: NodeId) -> Option<usize>
        ensures { result ≡ power_place self.now.powers node.0 }
    {
        self.powers
            .as_slice()
            .iter()
            .position(|power| power.node == node)
    }

    /// The place of a power node that an earlier line has, or none if none is named.
    fn optional_place(&self, node: Option<NodeId>) -> Option<Option<usize>>
        ensures { result ≡ optional_place node self.now.powers }
    {
        match node {
            None => Some(None),
            Some(node) => Some(Some(self.place_of(node)?)),
        }
    }

    /// The fault of the line that is read.
    fn fault(&self, cause: TopoTextCause) -> TopologyError
        ensures { result ≡ Bad (record { line = self.now.line; cause = cause }) }
    {
        TopologyError::Bad(TopoTextFault {
            line: self.line,
            cause,
        })
    }

    /// Takes a power node. Its parent has to be an earlier one.
    fn take_power(&mut self, power: PowerLine) -> Result<(), TopologyError>
        ensures next { GivesInto (so_far self.new) result
            (at_line self.old.line (placed (Power power) (so_far self.old))) }
        ensures line { OnOk result (self.new.line ≡ self.old.line) }
    {
        let Some(parent) = self.optional_place(power.parent) else {
            return Err(self.fault(TopoTextCause::Parent));
        };
        self.powers.push(PowerDef {
            node: power.node,
            parent,
            held: power.held,
            figure: power.figure,
            latency: power.latency,
        })?;
        Ok(())
    }

    /// Takes a processor. Its parent has to be a power node.
    fn take_proc(&mut self, proc: ProcLine) -> Result<(), TopologyError>
        ensures next { GivesInto (so_far self.new) result
            (at_line self.old.line (placed (Proc proc) (so_far self.old))) }
        ensures line { OnOk result (self.new.line ≡ self.old.line) }
    {
        let Some(parent) = self.place_of(proc.parent) else {
            return Err(self.fault(TopoTextCause::Parent));
        };
        self.procs.push(ProcDef {
            node: proc.node,
            parent,
            figure: proc.figure,
            latency: proc.latency,
        })?;
        Ok(())
    }

    /// Takes a slave without states, which follow. Its parent has to be a power node.
    fn take_slave(&mut self, alloc: Global, slave: SlaveLine) -> Result<(), TopologyError>
        ensures next { GivesInto (so_far self.new) result
            (at_line self.old.line (placed (Slave slave) (so_far self.old))) }
        ensures line { OnOk result (self.new.line ≡ self.old.line) }
    {
        let Some(parent) = self.place_of(slave.parent) else {
            return Err(self.fault(TopoTextCause::Parent));
        };
        push_slave(
            &mut self.slaves,
            SlaveDef {
                node: slave.node,
                parent,
                states: List::new(alloc),
            },
        )?;
        Ok(())
    }

    /// Takes a line that stands in its place.
    fn place(&mut self, alloc: Global, item: Item) -> Result<(), TopologyError>
        ensures next { GivesInto (so_far self.new) result (at_line self.old.line (placed item (so_far self.old))) }
        ensures line { OnOk result (self.new.line ≡ self.old.line) }
    {
        match item {
            Item::Empty => {}
            Item::Power(power) => self.take_power(power)?,
            Item::Proc(proc) => self.take_proc(proc)?,
            Item::Slave(slave) => self.take_slave(alloc, slave)?,
            Item::State(state) => add_state(&mut self.slaves, state)?,
            Item::Line(line) => self.lines.push(line)?,
            Item::Owner(node, procs) => {
                add_members(alloc, &mut self.masters, node, procs.as_slice())?;
            }
        }
        Ok(())
    }

    /// Takes a line of right form.
    #[tactic(auto, unfolding(crate::specs::Taking::taken))]
    fn take(&mut self, alloc: Global, item: Item) -> Result<(), TopologyError>
        ensures next { GivesInto (so_far self.new) result (at_line self.old.line (taken item (so_far self.old))) }
        ensures line { OnOk result (self.new.line ≡ self.old.line) }
    {
        if !self.stands(&item) {
            return Err(self.fault(TopoTextCause::Place));
        }
        self.place(alloc, item)
    }

    /// Takes a line. If it is refused, the answer names the line's number.
    #[tactic(auto, unfolding(crate::specs::Meaning::line_taken))]
    pub fn read(&mut self, alloc: Global, line: &[u8]) -> Result<(), TopologyError>
        requires early { self.old.line + 1 < 2 ^ 32 }
        ensures next { GivesInto (so_far self.new) result (line_taken self.old.line line.now (so_far self.old)) }
        ensures line { OnOk result (self.new.line ≡ self.old.line + 1) }
    {
        let Some(item) = item_of(line) else {
            return Err(self.fault(TopoTextCause::Form));
        };
        self.take(alloc, item)?;
        self.line += 1;
        Ok(())
    }

    /// The topology, if the text ends here.
    pub fn finish(self, alloc: Global) -> Result<Topology, NoMemory>
        ensures { IfOk result (λ t. t ≡ so_far self) }
    {
        let slaves = list_of(alloc, self.slaves)?;
        let masters = list_of(alloc, self.masters)?;
        Ok(Topology {
            slaves,
            procs: self.procs,
            powers: self.powers,
            lines: self.lines,
            masters,
        })
    }
}

/// Puts a slave at the end.
fn push_slave(slaves: &mut Vec<SlaveDef>, slave: SlaveDef) -> Result<(), NoMemory>
    ensures { OnOk result (slaves.new.items ≡ slaves.old.items ++ slave ∷ []) }
{
    slaves.push(slave).map_err(|_| NoMemory)
}

/// These items as a list of the topology.
fn list_of<T: Drop>(alloc: Global, items: Vec<T>) -> Result<List<T>, NoMemory>
    ensures { IfOk result (λ list. list ≡ items.items) }
{
    let mut list = List::new(alloc);
    for item in items {
        list.push(item)?;
    }
    Ok(list)
}
