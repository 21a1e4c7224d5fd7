//! The preallocation groups of an object while its text is read.

ghost use Rattle.std.specs.Prelude.{◌≡◌, ◌==◌, ◌++◌, ◌∷◌, [], false, length, IfOk, OnOk};
ghost use Rattle.std.specs.List.{list_any};
ghost use Rattle.pm_objtext.specs.Groups.{last_recs, with_preset};

use crate::table::Table;
use pm_base::{List, NoMemory};
use pm_object::{PreGroup, PreRec};
use std::alloc::Global;
use std::marker::Model;

/// A group so far, whose records stand in a table.
#[derive(Drop)]
pub struct Group {
    mask: u32,
    recs: Table<PreRec>,
}

impl Model for Group {
    ghost use Rattle.pm_object.specs.declared.object.PreGroup.{PreGroup};

    ghost Value = { PreGroup };

    ghost view = { λ group. record { mask = group.mask; recs = group.recs } };
}

impl Group {
    /// A group for masters of a mask, without a record.
    fn new(alloc: Global, mask: u32) -> Self
        ensures { result ≡ record { mask = mask; recs = [] } }
    {
        Group {
            mask,
            recs: Table::new(alloc),
        }
    }

    /// Whether a record of the group has a node.
    fn has_node(&self, node: u32) -> bool
        ensures { result ≡ list_any (λ rec. rec.node == node) self.now.recs }
    {
        self.recs.has(node)
    }

    /// Puts a record at the end.
    fn add(&mut self, rec: PreRec) -> Result<(), NoMemory>
        requires { list_any (λ other. other.node == rec.node) self.old.recs ≡ false }
        ensures { OnOk result (self.new ≡ record self.old { recs = self.old.recs ++ rec ∷ [] }) }
    {
        self.recs.push(rec)
    }

    /// The group of the object.
    fn into_group(self, alloc: Global) -> Result<PreGroup, NoMemory>
        ensures { IfOk result (λ group. group ≡ self) }
    {
        Ok(PreGroup {
            mask: self.mask,
            recs: self.recs.into_list(alloc)?,
        })
    }
}

/// The groups so far, in order. The last one takes further records.
#[derive(Drop)]
pub struct Groups {
    items: Vec<Group>,
}

impl Model for Groups {
    ghost use Rattle.std.specs.Prelude.{List as Sequence};
    ghost use Rattle.pm_object.specs.declared.object.PreGroup.{PreGroup};

    ghost Value = { Sequence PreGroup };

    ghost view = { λ groups. groups.items.items };
}

impl Groups {
    /// No group.
    pub fn new(alloc: Global) -> Self
        ensures { result ≡ [] }
    {
        Groups {
            items: Vec::new(alloc),
        }
    }

    /// Whether there is no group.
    pub fn is_empty(&self) -> bool
        ensures { result ≡ (length self.now == 0) }
    {
        self.items.is_empty()
    }

    /// Whether the last group has a record of this node.
    pub fn has_node(&self, node: u32) -> bool
        ensures { result ≡ list_any (λ rec. rec.node == node) (last_recs self.now) }
    {
        match self.items.as_slice() {
            [] => false,
            [.., group] => group.has_node(node),
        }
    }

    /// Begins a group.
    pub fn begin(&mut self, alloc: Global, mask: u32) -> Result<(), NoMemory>
        ensures { OnOk result (self.new ≡ self.old ++ record { mask = mask; recs = [] } ∷ []) }
    {
        self.items
            .push(Group::new(alloc, mask))
            .map_err(|_| NoMemory)
    }

    /// Puts a record of a new node at the end of the last group.
    pub fn add(&mut self, rec: PreRec) -> Result<(), NoMemory>
        requires { list_any (λ other. other.node == rec.node) (last_recs self.old) ≡ false }
        ensures { OnOk result (self.new ≡ with_preset rec self.old) }
    {
        if let Some(mut group) = self.items.pop() {
            group.add(rec)?;
            self.items.push(group).map_err(|_| NoMemory)?;
        }
        Ok(())
    }

    /// The groups as a list.
    pub fn into_list(self, alloc: Global) -> Result<List<PreGroup>, NoMemory>
        ensures { IfOk result (λ list. list ≡ self) }
    {
        list_of(alloc, self.items)
    }
}

/// The groups of the object.
fn list_of(alloc: Global, groups: Vec<Group>) -> Result<List<PreGroup>, NoMemory>
    ensures { IfOk result (λ list. list ≡ groups.items) }
{
    let mut list = List::new(alloc);
    for group in groups {
        list.push(group.into_group(alloc)?)?;
    }
    Ok(list)
}
