//! The records that are a key and a mask: of power nodes, reset lines and shutdown subtypes.

ghost use Rattle.pm_object.specs.Reading.{pair};

use crate::object::{DecodeError, Pair};
use crate::records::{Keyed, Record, read_key};
use crate::words::Words;
use std::alloc::Global;

impl Keyed for Pair {
    ghost key_of = { λ p. p.key };

    /// The node, line or subtype, which no other record of the section has.
    fn key(&self) -> u32 {
        self.key
    }
}

impl Record for Pair {
    ghost one = { pair };

    /// Reads a power, reset or shutdown record: node, line or subtype, and mask.
    #[tactic(auto, unfolding(crate::specs::Reading::pair))]
    fn read(_alloc: Global, earlier: &[Pair], words: &mut Words) -> Result<Pair, DecodeError> {
        let key = read_key(earlier, words)?;
        let mask = words.next()?;
        Ok(Pair { key, mask })
    }
}
