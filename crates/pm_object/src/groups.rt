//! The records of the preallocations.

ghost use Rattle.pm_object.specs.Reading.{group, preset};

use crate::object::{DecodeError, PreGroup, PreRec};
use crate::records::{Keyed, Record, read_key, read_list};
use crate::words::Words;
use std::alloc::Global;

impl Keyed for PreRec {
    ghost key_of = { λ r. r.node };

    /// The slave's node, which no other record of the group has.
    fn key(&self) -> u32 {
        self.node
    }
}

impl Record for PreRec {
    ghost one = { preset };

    /// Reads a record of a preallocation: node, flags, current capabilities, preset.
    #[tactic(auto, unfolding(crate::specs::Reading::preset))]
    fn read(_alloc: Global, earlier: &[PreRec], words: &mut Words) -> Result<PreRec, DecodeError> {
        let node = read_key(earlier, words)?;
        let flags = words.next()?;
        let current = words.next()?;
        let preset = words.next()?;
        Ok(PreRec {
            node,
            flags,
            current,
            preset,
        })
    }
}

impl Record for PreGroup {
    ghost one = { group };

    /// The nodes in a group differ; other groups may have the same ones.
    #[tactic(auto, unfolding(crate::specs::Reading::group))]
    fn read(
        alloc: Global,
        _earlier: &[PreGroup],
        words: &mut Words,
    ) -> Result<PreGroup, DecodeError> {
        let mask = words.next()?;
        let recs = read_list(alloc, words)?;
        Ok(PreGroup { mask, recs })
    }
}
