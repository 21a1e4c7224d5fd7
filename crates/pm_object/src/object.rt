//! What a configuration object holds, and what can be wrong with one.

ghost use Rattle.std.specs.Prelude.{◌≡◌};
ghost use Rattle.pm_object.specs.Causes.{cause_number};
ghost use Rattle.pm_object.specs.declared.object.DecodeError.TheVariants.{Memory};

use pm_base::{List, NoMemory};
use thiserror::Error;

/// A master: its node, its one bit in all masks, the timeout of a request to suspend it in units of
/// `tick`, and the masks of the masters that it may suspend and wake.
#[derive(Clone, Copy, Debug, PartialEq, Eq)]
pub struct MasterRec {
    pub node: u32,
    pub mask: u32,
    pub timeout: u32,
    pub suspend: u32,
    pub wake: u32,
}

/// A slave and the masters that may use it. Bit 0 of the flags: several may use it at a time.
#[derive(Clone, Copy, Debug, PartialEq, Eq)]
pub struct SlaveRec {
    pub node: u32,
    pub flags: u32,
    pub mask: u32,
}

/// What masters start with on a slave. Bit 1 of the flags: `current` is in use from the load on.
#[derive(Clone, Copy, Debug, PartialEq, Eq)]
pub struct PreRec {
    pub node: u32,
    pub flags: u32,
    pub current: u32,
    pub preset: u32,
}

/// The preallocations of the masters in a mask.
#[derive(Debug, Drop)]
pub struct PreGroup {
    pub mask: u32,
    pub recs: List<PreRec>,
}

/// A power node, a reset line or a shutdown subtype, and the masters that may act on it.
#[derive(Clone, Copy, Debug, PartialEq, Eq)]
pub struct Pair {
    pub key: u32,
    pub mask: u32,
}

/// The sections, whose identifiers are 0x101 to 0x108 in this order.
#[derive(Clone, Copy, Debug, PartialEq, Eq)]
pub enum Section {
    Masters,
    Slaves,
    Prealloc,
    Power,
    Reset,
    Shutdown,
    Config,
    Gpo,
}

/// The most words of an object.
pub const MOST_WORDS: u32 = 4096;

/// A configuration object. `extra` are the header words after the first two, `order` is the order
/// in which the sections stand. A section that isn't in `order` is empty or 0.
#[derive(Debug, Drop)]
pub struct Object {
    pub extra: List<u32>,
    pub order: List<Section>,
    pub masters: List<MasterRec>,
    pub slaves: List<SlaveRec>,
    pub groups: List<PreGroup>,
    pub power: List<Pair>,
    pub reset: List<Pair>,
    pub shutdown: List<Pair>,
    pub base_mask: u32,
    pub overlay_mask: u32,
    pub gpo: u32,
}

/// What is wrong with an object. The numbers are those of the program's fault line.
#[derive(Clone, Copy, Debug, PartialEq, Eq)]
pub enum ObjectCause {
    /// The number of bytes is no multiple of 4.
    Length = 1,
    /// More than 16,384 bytes.
    TooLong = 2,
    /// A word that is needed isn't there.
    Truncated = 3,
    /// The header has less than two words after its first.
    HeaderShort = 4,
    /// The type isn't 1.
    BadType = 5,
    /// An identifier that names no section.
    UnknownSection = 6,
    /// A section that came before.
    RepeatedSection = 7,
    /// No section, a first section that isn't the masters', or no master in it.
    NoMasters = 8,
    /// A master's node that isn't 1, 6, 7 or 8, or 6 together with 7 or 8.
    BadMaster = 9,
    /// A master's mask that hasn't exactly one bit, or has an earlier master's bit.
    MaskRepeated = 10,
    /// A node, line or subtype that an earlier record of its section or group has.
    RepeatedNode = 11,
    /// A word after the last section.
    Trailing = 12,
}

impl ObjectCause {
    /// The number of the cause.
    pub fn number(self) -> u32
        ensures { result ≡ cause_number self }
    {
        self as u32
    }
}

/// The first thing that is wrong with an object, and where: a number of words from its front.
#[derive(Clone, Copy, Debug, PartialEq, Eq)]
pub struct ObjectFault {
    pub cause: ObjectCause,
    pub offset: u32,
}

/// Why an object was not read.
#[derive(Clone, Copy, Debug, PartialEq, Eq, Error)]
pub enum DecodeError {
    #[error("bad object")]
    Bad(ObjectFault),
    #[error(transparent)]
    Memory(NoMemory),
}

impl From<NoMemory> for DecodeError {
    ghost from_gives = { λ x e. e ≡ Memory x };

    /// Want of memory is handed on.
    fn from(e: NoMemory) -> DecodeError {
        DecodeError::Memory(e)
    }
}
