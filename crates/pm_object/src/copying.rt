//! Copies of an object.

ghost use Rattle.std.specs.Prelude.{◌≡◌, ◌++◌, [], IfOk, OnOk};
ghost use Rattle.pm_object.specs.Bodies.{unset};

use crate::object::{Object, PreGroup};
use pm_base::{List, NoMemory, with};
use std::alloc::Global;

/// Puts copies of items at the end.
fn append<T: Copy>(items: &[T], copied: &mut List<T>) -> Result<(), NoMemory>
    ensures { OnOk result (copied.new ≡ copied.old ++ items.now) }
{
    for item in items {
        copied.push(*item)?;
    }
    Ok(())
}

/// A copy of a preallocation group.
fn copy_group(alloc: Global, group: &PreGroup) -> Result<PreGroup, NoMemory>
    ensures { IfOk result (λ copied. copied ≡ group.now) }
{
    let mut recs = List::new(alloc);
    append(group.recs.as_slice(), &mut recs)?;
    Ok(PreGroup {
        mask: group.mask,
        recs,
    })
}

/// Puts copies of groups at the end.
fn append_groups(
    alloc: Global,
    groups: &[PreGroup],
    copied: &mut List<PreGroup>,
) -> Result<(), NoMemory>
    ensures { OnOk result (copied.new ≡ copied.old ++ groups.now) }
{
    for group in groups {
        copied.push(copy_group(alloc, group)?)?;
    }
    Ok(())
}

impl Object {
    /// An equal object in memory of its own.
    pub fn copy(&self, alloc: Global) -> Result<Object, NoMemory>
        ensures { IfOk result (λ copied. copied ≡ self.now) }
    {
        let mut copied = Object::unset(alloc, List::new(alloc));
        let filled = copied.fill(alloc, self);
        let (copied, ()) = with(copied, filled)?;
        Ok(copied)
    }

    /// Makes an object that says nothing equal to another one.
    fn fill(&mut self, alloc: Global, other: &Object) -> Result<(), NoMemory>
        requires { self.old ≡ unset [] }
        ensures { OnOk result (self.new ≡ other.now) }
    {
        append(other.extra.as_slice(), &mut self.extra)?;
        append(other.order.as_slice(), &mut self.order)?;
        append(other.masters.as_slice(), &mut self.masters)?;
        append(other.slaves.as_slice(), &mut self.slaves)?;
        append_groups(alloc, other.groups.as_slice(), &mut self.groups)?;
        append(other.power.as_slice(), &mut self.power)?;
        append(other.reset.as_slice(), &mut self.reset)?;
        append(other.shutdown.as_slice(), &mut self.shutdown)?;
        self.base_mask = other.base_mask;
        self.overlay_mask = other.overlay_mask;
        self.gpo = other.gpo;
        Ok(())
    }
}
