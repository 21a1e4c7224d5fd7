//! Sets of capabilities.

ghost use Rattle.std.specs.Prelude.{⊤, [], ◌∷◌, codes};

use bitflags::{Flag, Flags, bitflag_items};

/// A set of capabilities of a slave (UG1200, node capabilities): ACCESS is bit 0, CONTEXT bit 1,
/// WAKEUP bit 2. A clause names its bits as `caps.0`.
#[derive(Clone, Copy, Debug, PartialEq, Eq)]
pub struct Caps(pub u32);

bitflag_items! {
    impl Caps: u32 {
        const ACCESS = 1;
        const CONTEXT = 2;
        const WAKEUP = 4;
    }
}

impl Flags for Caps {
    type Bits = u32;

    ghost exact = { ⊤ };

    ghost table = { (codes "ACCESS", 1) ∷ (codes "CONTEXT", 2) ∷ (codes "WAKEUP", 4) ∷ [] };

    ghost set_of = { λ caps. caps.0 };

    /// The capabilities with names (UG1200, PM_CAP_ACCESS, PM_CAP_CONTEXT, PM_CAP_WAKEUP).
    fn flags<'a>() -> &'a [Flag<Caps>] {
        Caps::FLAGS
    }

    /// The set as the word that messages and objects have.
    fn bits(&self) -> u32 {
        self.0
    }

    /// The set of a word, also with bits that name no capability.
    fn from_bits_retain(bits: u32) -> Caps {
        Caps(bits)
    }
}
