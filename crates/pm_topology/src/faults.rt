//! What is wrong with a table of the chip.

use thiserror::Error;

/// What an entry of a topology breaks. The causes are numbered from 1.
#[derive(Clone, Copy, Debug, PartialEq, Eq, Error)]
pub enum TopoCause {
    /// A number that an earlier entry has. Power nodes, processors and slaves share one space of
    /// numbers, reset lines and masters have one each.
    #[error("a number that an earlier entry has")]
    Repeated = 1,
    /// A power node whose parent isn't earlier, or a processor or slave whose parent isn't one.
    #[error("a parent that isn't an earlier power node")]
    ParentLate = 2,
    /// A slave with no state.
    #[error("a slave with no state")]
    NoStates = 3,
    /// A last state that lacks a capability of an earlier one, or has a latency other than 0.
    #[error("a last state that isn't full")]
    LastNotFull = 4,
    /// An entry past the limit of its list, or a slave with more than 4 states.
    #[error("more than the limit")]
    TooMany = 5,
    /// A target of a reset line that is no processor and no slave.
    #[error("a target that is no processor and no slave")]
    BadTarget = 6,
    /// An entry whose number isn't one of a master's, without a processor, or with a member that is no
    /// processor, that this master may not have, or that is named twice.
    #[error("a master that is none, without processors, or with a member that it can't have")]
    BadMember = 7,
    /// A number of a master without an entry. The place is the one after the last entry.
    #[error("a master without an entry")]
    NoMaster = 8,
    /// A processor that an earlier entry has too, where the two aren't the RPU in lock-step and one of
    /// its halves.
    #[error("a processor of two masters")]
    Overlap = 9,
}

/// The first fault of a topology. `place` is the entry's place in its list, counted from 0.
#[derive(Clone, Copy, Debug, PartialEq, Eq, Error)]
#[error("{cause} at place {place}")]
pub struct TopoFault {
    pub cause: TopoCause,
    pub place: usize,
}
