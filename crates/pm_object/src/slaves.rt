//! The records of the slaves.

ghost use Rattle.pm_object.specs.Reading.{slave};

use crate::object::{DecodeError, SlaveRec};
use crate::records::{Keyed, Record, read_key};
use crate::words::Words;
use std::alloc::Global;

impl Keyed for SlaveRec {
    ghost key_of = { λ s. s.node };

    /// The slave's node, which no other slave record has.
    fn key(&self) -> u32 {
        self.node
    }
}

impl Record for SlaveRec {
    ghost one = { slave };

    /// Reads a slave record: node, flags, mask.
    #[tactic(auto, unfolding(crate::specs::Reading::slave))]
    fn read(
        _alloc: Global,
        earlier: &[SlaveRec],
        words: &mut Words,
    ) -> Result<SlaveRec, DecodeError> {
        let node = read_key(earlier, words)?;
        let flags = words.next()?;
        let mask = words.next()?;
        Ok(SlaveRec { node, flags, mask })
    }
}
