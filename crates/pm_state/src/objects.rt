//! The objects of a run, and what stands at an address.

ghost use Rattle.std.specs.Prelude.{◌≡◌, ◌+◌, ◌^◌, ◌<◌, ◌≤◌, ◌++◌, if◌then◌else◌, IfOk, OnOk, option_to_list};
ghost use Rattle.pm_object.specs.Attached.{usable};
ghost use Rattle.pm_state.specs.Objects as spec;
ghost use Rattle.pm_state.specs.Objects.{found_at, found_from};
ghost use Rattle.pm_state.specs.State.{in_force, objects_in, objects_of, usable_among};

use crate::tables::Tables;
use pm_base::{List, NoMemory};
use pm_object::{Attached, Content, Object, ObjectFault};
use std::alloc::Global;

/// What stands at an address: nothing, words that are no object, an object that can't be put in force in place of the
/// loaded one, or one that can, by its place among the objects of the run.
#[derive(Clone, Copy, Debug, PartialEq, Eq)]
pub enum Found {
    Nothing,
    Unreadable(ObjectFault),
    Unusable,
    Usable(usize),
}

/// A copy of an attached object that can be put in force.
fn copy_usable(
    alloc: Global,
    object: &Object,
    attached: &Attached,
) -> Result<Option<Object>, NoMemory>
    ensures { IfOk result (λ copied. copied ≡ usable object.now attached.now) }
{
    match attached.usable(object) {
        Some(usable) => Ok(Some(usable.copy(alloc)?)),
        None => Ok(None),
    }
}

/// Puts an object at the end, if there is one.
fn push_if(objects: &mut List<Object>, object: Option<Object>) -> Result<(), NoMemory>
    ensures { OnOk result (objects.new ≡ objects.old ++ option_to_list object) }
{
    match object {
        Some(object) => objects.push(object),
        None => Ok(()),
    }
}

/// Puts copies of those of these that can be put in force at the end.
fn push_usable(
    alloc: Global,
    objects: &mut List<Object>,
    object: &Object,
    attached: &[Attached],
) -> Result<(), NoMemory>
    ensures { OnOk result (objects.new ≡ objects.old ++ usable_among object.now attached.now) }
{
    for one in attached {
        push_if(objects, copy_usable(alloc, object, one)?)?;
    }
    Ok(())
}

/// Copies of the objects of a run: the loaded one, and each attached one that can be put in force.
pub(crate) fn objects_in(
    alloc: Global,
    object: &Object,
    attached: &[Attached],
) -> Result<List<Object>, NoMemory>
    ensures { IfOk result (λ objects. objects ≡ objects_in object.now attached.now) }
{
    let mut objects = List::new(alloc);
    objects.push(object.copy(alloc)?)?;
    push_usable(alloc, &mut objects, object, attached)?;
    Ok(objects)
}

/// Whether what is attached can be put in force in place of the loaded object.
fn is_usable(object: &Object, attached: &Attached) -> bool
    ensures { result ≡ spec.is_usable object.now attached.now }
{
    attached.usable(object).is_some()
}

/// What a content is, by whether it can be put in force: it is then the object at place `k` of the run.
fn found_as(k: usize, content: &Content, is_usable: bool) -> Found
    ensures { result ≡ spec.found_as k content.now is_usable }
{
    match content {
        Content::Bad(fault) => Found::Unreadable(*fault),
        Content::Object(_) => {
            if is_usable {
                Found::Usable(k)
            } else {
                Found::Unusable
            }
        }
    }
}

/// The place after that of an object, if it is one that can be put in force.
fn place_after(k: usize, is_usable: bool) -> usize
    requires { k < 2 ^ 62 }
    ensures place { result ≡ (if is_usable then k + 1 else k) }
    ensures bound { result ≤ k + 1 }
{
    if is_usable { k + 1 } else { k }
}

/// What stands at an address among these.
fn found_in(object: &Object, address: u32, attached: &[Attached]) -> Found
    ensures { result ≡ found_from object.now address 1 attached.now }
{
    let mut k = 1;
    for one in attached {
        let usable = is_usable(object, one);
        if one.address == address {
            return found_as(k, &one.content, usable);
        }
        k = place_after(k, usable);
    }
    Found::Nothing
}

impl Tables {
    /// The configuration object that was loaded.
    pub fn object(&self) -> &Object
        ensures { result.now ≡ self.now.fixed.object }
    {
        &self.object
    }

    /// The objects of the run: the loaded one, and each attached one that can be put in force.
    pub fn objects(&self) -> &List<Object>
        ensures { result.now ≡ objects_of self.now.fixed }
    {
        &self.objects
    }

    /// The configuration object in force.
    pub fn in_force(&self) -> &Object
        ensures { result.now ≡ in_force self.now }
    {
        self.objects.get(self.force)
    }

    /// What stands at an address.
    pub fn found(&self, address: u32) -> Found
        ensures { result ≡ found_at address self.now.fixed }
    {
        found_in(&self.object, address, self.attached.as_slice())
    }
}
