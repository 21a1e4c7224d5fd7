//! What a line of an object's text says.

use arrayvec::ArrayVec;
use pm_object::{MasterRec, Pair, PreRec, Section, SlaveRec};

/// The numbers of a line. A line has at most 16.
pub type Numbers = ArrayVec<u32, 16>;

/// What a line says.
#[derive(Debug, Drop)]
pub enum Item {
    /// Nothing: it is empty or holds only a comment.
    Empty,
    /// Further header words.
    Header(Numbers),
    /// A section begins.
    Opens(Section),
    Master(MasterRec),
    Slave(SlaveRec),
    /// A preallocation group begins, of the masters in this mask.
    Group(u32),
    /// What the masters of the group that began last start with on a slave.
    Prefer(PreRec),
    Power(Pair),
    Reset(Pair),
    Shutdown(Pair),
    /// The masks of the masters that may configure: base and overlay.
    Config(u32, u32),
    /// The word of the section on general outputs.
    Gpo(u32),
}
