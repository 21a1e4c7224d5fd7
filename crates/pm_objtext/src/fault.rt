//! What can be wrong with the text of an object.

ghost use Rattle.std.specs.Prelude.{◌≡◌};
ghost use Rattle.pm_objtext.specs.declared.fault.BuildError.TheVariants.{Memory};

use pm_base::NoMemory;
use thiserror::Error;

/// What is wrong with a line. The numbers are those of the program's fault line. Of the causes of
/// one line the first counts.
#[derive(Clone, Copy, Debug, PartialEq, Eq)]
pub enum TextCause {
    /// It is too long, isn't ASCII, or has an unknown word, a wrong count or a bad number.
    Form = 1,
    /// It is out of place, or ends a section that has not yet the one record that it must have.
    Place = 2,
    /// A section that came before, or a node, line or subtype that an earlier record of its section
    /// or group has.
    Repeated = 3,
    /// No section, a first section that isn't the masters', no master in it, or a master's node or
    /// mask that doesn't go with the earlier ones.
    Master = 4,
    /// The object has more than 4,096 words by now.
    Size = 5,
}

/// The first line that is wrong, counted from 1, and what is wrong with it. The end of the text
/// counts as a line after the last one. Line 0 with cause `Size` stands for a text that is too long.
#[derive(Clone, Copy, Debug, PartialEq, Eq)]
pub struct TextFault {
    pub line: u32,
    pub cause: TextCause,
}

/// Why no object was built from a text.
#[derive(Clone, Copy, Debug, PartialEq, Eq, Error)]
pub enum BuildError {
    #[error("bad text")]
    Bad(TextFault),
    #[error(transparent)]
    Memory(NoMemory),
}

impl From<NoMemory> for BuildError {
    ghost from_gives = { λ x e. e ≡ Memory x };

    /// Want of memory is handed on.
    fn from(e: NoMemory) -> BuildError {
        BuildError::Memory(e)
    }
}
