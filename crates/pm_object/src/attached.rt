//! The objects that the first lines of a script attach, each at an address.

ghost use Rattle.std.specs.Prelude.{◌≡◌, ◌<◌, IfOk, Some, length, slice_get};
ghost use Rattle.std.specs.Option.{option_copied};
ghost use Rattle.pm_object.specs.Attached.{have_same_masters, is_same_master, usable};

use crate::object::{MasterRec, Object, ObjectFault};
use pm_base::NoMemory;
use std::alloc::Global;

/// What the words at an address are: an object, or the first thing that is wrong with them.
#[derive(Debug, Drop)]
pub enum Content {
    Object(Object),
    Bad(ObjectFault),
}

/// What is attached at an address.
#[derive(Debug, Drop)]
pub struct Attached {
    pub address: u32,
    pub content: Content,
}

impl Content {
    /// An equal content in memory of its own.
    pub fn copy(&self, alloc: Global) -> Result<Content, NoMemory>
        ensures { IfOk result (λ copied. copied ≡ self.now) }
    {
        match self {
            Content::Object(object) => Ok(Content::Object(object.copy(alloc)?)),
            Content::Bad(fault) => Ok(Content::Bad(*fault)),
        }
    }
}

impl Attached {
    /// An equal one in memory of its own.
    ///
    /// # Errors
    ///
    /// `NoMemory` if there is not enough memory.
    pub fn copy(&self, alloc: Global) -> Result<Attached, NoMemory>
        ensures { IfOk result (λ copied. copied ≡ self.now) }
    {
        Ok(Attached {
            address: self.address,
            content: self.content.copy(alloc)?,
        })
    }

    /// The object that is attached, if it can be put in force in place of the loaded one: the words at the address
    /// are an object, and its masters have the nodes and the masks of the loaded one's, in the same order.
    pub fn usable(&self, loaded: &Object) -> Option<&Object>
        ensures { option_copied result ≡ usable loaded.now self.now }
    {
        match &self.content {
            Content::Object(object) => {
                if have_same_masters(loaded.masters.as_slice(), object.masters.as_slice()) {
                    Some(object)
                } else {
                    None
                }
            }
            Content::Bad(_) => None,
        }
    }
}

/// Whether two masters have the same node and the same mask.
fn is_same_master(a: MasterRec, b: MasterRec) -> bool
    ensures { result ≡ is_same_master a b }
{
    a.node == b.node && a.mask == b.mask
}

/// The master at a place.
fn master_at(masters: &[MasterRec], k: usize) -> MasterRec
    requires { k < length masters.now }
    ensures { slice_get masters.now k ≡ Some result }
{
    masters[k]
}

/// Whether these masters have the nodes and the masks of those, in the same order.
fn have_same_masters(a: &[MasterRec], b: &[MasterRec]) -> bool
    ensures { result ≡ have_same_masters a.now b.now }
{
    if a.len() != b.len() {
        return false;
    }
    for k in 0..a.len() {
        let one = master_at(a, k);
        let other = master_at(b, k);
        if !is_same_master(one, other) {
            return false;
        }
    }
    true
}
