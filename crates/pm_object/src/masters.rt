//! The section of the masters.

ghost use Rattle.std.specs.Prelude.{◌≡◌, ◌==◌, [], bit_and, not};
ghost use Rattle.std.specs.List.{list_any};
ghost use Rattle.pm_base.specs.Masters.{is_master_number, splits_lockstep};
ghost use Rattle.pm_object.specs.Reading.{GivesAt, is_bad_mask, is_bad_node, master, master_mask, master_node, masters, records};

use crate::object::{DecodeError, MasterRec, ObjectCause};
use crate::records::{Keyed, Record, has_key, read_records};
use crate::words::{Words, fault};
use pm_base::{List, NodeId, is_master_number, splits_lockstep};
use std::alloc::Global;

/// Whether an earlier master is the lock-step pair and this one a half of it, or the other way round.
fn has_split(earlier: &[MasterRec], node: u32) -> bool
    ensures { result ≡ list_any (λ m. splits_lockstep m.node node) earlier.now }
{
    earlier.iter().any(|master| splits_lockstep(NodeId(master.node), NodeId(node)))
}

/// Whether an earlier master has a bit of this mask.
fn has_bit(earlier: &[MasterRec], mask: u32) -> bool
    ensures { result ≡ list_any (λ m. not (bit_and m.mask mask == 0)) earlier.now }
{
    earlier.iter().any(|master| master.mask & mask != 0)
}

/// Whether a node is no master's, or is one of the pair in lockstep together with it.
pub fn is_bad_node(earlier: &[MasterRec], node: u32) -> bool
    ensures { result ≡ is_bad_node earlier.now node }
{
    !is_master_number(NodeId(node)) || has_split(earlier, node)
}

/// Whether a mask hasn't exactly one bit, or has an earlier master's.
pub fn is_bad_mask(earlier: &[MasterRec], mask: u32) -> bool
    ensures { result ≡ is_bad_mask earlier.now mask }
{
    mask.count_ones() != 1 || has_bit(earlier, mask)
}

/// Reads the node of a master. BadMaster if it can't be one beside the earlier ones, RepeatedNode if one of them has
/// it.
#[tactic(auto, unfolding(crate::specs::Reading::master_node))]
fn read_node(earlier: &[MasterRec], words: &mut Words) -> Result<u32, DecodeError>
    ensures { GivesAt words.new result (master_node earlier.now words.old) }
{
    let place = words.place();
    let node = words.next()?;
    if is_bad_node(earlier, node) {
        return Err(fault(ObjectCause::BadMaster, place));
    }
    if has_key(earlier, node) {
        return Err(fault(ObjectCause::RepeatedNode, place));
    }
    Ok(node)
}

/// Reads the mask of a master. MaskRepeated if it isn't one bit that no earlier master has.
#[tactic(auto, unfolding(crate::specs::Reading::master_mask))]
fn read_mask(earlier: &[MasterRec], words: &mut Words) -> Result<u32, DecodeError>
    ensures { GivesAt words.new result (master_mask earlier.now words.old) }
{
    let place = words.place();
    let mask = words.next()?;
    if is_bad_mask(earlier, mask) {
        return Err(fault(ObjectCause::MaskRepeated, place));
    }
    Ok(mask)
}

impl Keyed for MasterRec {
    ghost key_of = { λ m. m.node };

    /// The master's node, which no other master has.
    fn key(&self) -> u32 {
        self.node
    }
}

impl Record for MasterRec {
    ghost one = { master };

    /// Reads a master: node, mask, timeout, whom it may suspend, whom it may wake.
    #[tactic(auto, unfolding(crate::specs::Reading::master))]
    fn read(
        _alloc: Global,
        earlier: &[MasterRec],
        words: &mut Words,
    ) -> Result<MasterRec, DecodeError> {
        let node = read_node(earlier, words)?;
        let mask = read_mask(earlier, words)?;
        let timeout = words.next()?;
        let suspend = words.next()?;
        let wake = words.next()?;
        Ok(MasterRec {
            node,
            mask,
            timeout,
            suspend,
            wake,
        })
    }
}

/// Reads the masters. There is at least one, their nodes differ and go together, and each has one
/// bit of its own.
#[tactic(auto, unfolding(crate::specs::Reading::masters))]
pub fn read_masters(alloc: Global, words: &mut Words) -> Result<List<MasterRec>, DecodeError>
    ensures { GivesAt words.new result (masters words.old) }
{
    let place = words.place();
    let count = words.next()?;
    if count == 0 {
        return Err(fault(ObjectCause::NoMasters, place));
    }
    read_records(alloc, count, words)
}
