//! The table of clocks, which is this project's own.

ghost use Rattle.std.specs.Prelude.{◌≡◌};
ghost use Rattle.pm_clock_tree.specs.Table.{clock_place, clocks, def_of, is_root, parent_at, roots};

use pm_base::NodeId;

/// A clock that isn't a root: its number, the slave whose clock it is, and the numbers of its two or three parents, of
/// which it takes one. They are lower than its own.
#[derive(Clone, Copy, Debug, PartialEq, Eq)]
pub struct ClockDef {
    pub number: u32,
    pub node: NodeId,
    pub first: u32,
    pub second: u32,
    pub third: Option<u32>,
}

/// The slaves that the roots, which are the clocks 0 to 4, come from.
static ROOTS: [NodeId; 5] = [
    NodeId(50), // APLL
    NodeId(51), // VPLL
    NodeId(52), // DPLL
    NodeId(53), // RPLL
    NodeId(54), // IOPLL
];

/// The other clocks by rising number.
static CLOCKS: [ClockDef; 11] = [
    ClockDef { // UART_0
        number: 5,
        node: NodeId(33),
        first: 4,
        second: 3,
        third: None,
    },
    ClockDef { // UART_1
        number: 6,
        node: NodeId(34),
        first: 4,
        second: 3,
        third: None,
    },
    ClockDef { // SATA
        number: 7,
        node: NodeId(28),
        first: 0,
        second: 1,
        third: Some(2),
    },
    ClockDef { // SD_0
        number: 8,
        node: NodeId(39),
        first: 4,
        second: 3,
        third: None,
    },
    ClockDef { // SD_1
        number: 9,
        node: NodeId(40),
        first: 4,
        second: 3,
        third: None,
    },
    ClockDef { // ETH_0
        number: 10,
        node: NodeId(29),
        first: 4,
        second: 3,
        third: None,
    },
    ClockDef { // DDR
        number: 11,
        node: NodeId(55),
        first: 2,
        second: 1,
        third: None,
    },
    ClockDef { // DP
        number: 12,
        node: NodeId(41),
        first: 1,
        second: 3,
        third: None,
    },
    ClockDef { // GPU
        number: 13,
        node: NodeId(58),
        first: 0,
        second: 1,
        third: None,
    },
    ClockDef { // TTC_0
        number: 14,
        node: NodeId(24),
        first: 5,
        second: 4,
        third: None,
    },
    ClockDef { // TTC_1
        number: 15,
        node: NodeId(25),
        first: 14,
        second: 4,
        third: None,
    },
];

/// The slaves that the roots come from, by the numbers of the roots.
pub(crate) fn roots() -> &'static [NodeId]
    ensures { result.now ≡ roots }
{
    &ROOTS
}

/// The clocks that are no roots, by rising number.
pub fn all_clocks() -> &'static [ClockDef]
    ensures { result.now ≡ clocks }
{
    &CLOCKS
}

/// The place of a clock among those that are no roots.
pub(crate) fn clock_place(number: u32) -> Option<usize>
    ensures { result ≡ clock_place number }
{
    all_clocks().iter().position(|def| def.number == number)
}

/// The entry of a clock that is no root.
pub(crate) fn def_of(number: u32) -> Option<ClockDef>
    ensures { result ≡ def_of number }
{
    all_clocks()
        .iter()
        .copied()
        .find(|def| def.number == number)
}

/// Whether a clock is a root.
pub(crate) fn is_root(number: u32) -> bool
    ensures { result ≡ is_root number }
{
    roots().get(number as usize).is_some()
}

impl ClockDef {
    /// Its parent at an index.
    pub(crate) fn parent(&self, index: u32) -> Option<u32>
        ensures { result ≡ parent_at index self.now }
    {
        match index {
            0 => Some(self.first),
            1 => Some(self.second),
            2 => self.third,
            _ => None,
        }
    }
}
