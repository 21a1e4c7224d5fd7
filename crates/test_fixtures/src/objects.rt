//! The objects of several runs, as words, and the text of a run over the smallest.

/// Two masters, and the two slaves 11 and 33, of which 11 can be shared.
pub const OBJECT: &[u32] = &[
    2, 2, 1, 0x101, 2, 1, 0x1, 100, 0, 0, 7, 0x100, 100, 0, 0, 0x102, 2, 11, 1, 0x101, 33, 0, 0x1,
];

/// The text of its load, and its closing table if nothing moves after that.
pub const OBJECT_LOADED: &str = "0 set 10 0 1
0 set 62 0 1
0 set 1 0 1
0 set 2 0 1
0 set 11 0 2
0 set 33 0 1
0 run 2 0
";

pub const OBJECT_CLOSED: &str = "end power 1 1 1
end proc 2 1 1
end power 10 1 1
end slave 11 2 2
end slave 33 1 1
end power 62 1 1
";

/// Two masters. Only 1 may use slave 33; each may use 28, 39, 11 and 46, and the last two can be shared. There are
/// masks of a power node and of a reset line.
pub const LABORATORY: &[u32] = &[
    2, 4, 1, 0x101, 2, 1, 0x1, 100, 0x100, 0x100, 7, 0x100, 100, 0, 0, 0x102, 5, 11, 1, 0x101, 28,
    0, 0x101, 33, 0, 0x1, 39, 0, 0x101, 46, 1, 0x101, 0x104, 1, 10, 0x100, 0x105, 1, 33, 0x1,
];

/// The text of its load: the first processor of master 1 starts, and each slave that master 1 may use is held in its
/// last state.
pub const LABORATORY_LOADED: &str = "0 set 10 0 1
0 set 62 0 1
0 set 1 0 1
0 set 2 0 1
0 set 11 0 2
0 set 28 0 1
0 set 33 0 1
0 set 39 0 1
0 set 46 0 1
0 run 2 0
";

/// The text of the line `ipi 1 21` after that: master 1 has finished its initialization, and uses no slave.
pub const LABORATORY_SETTLED: &str = "1 set 11 2 0
1 set 28 1 0
1 set 33 1 0
1 set 39 1 0
1 set 46 1 0
1 reply 1 0 0 0 0
";

/// One master, the first real-time processor, which may use no slave.
pub const ALONE: &[u32] = &[2, 1, 1, 0x101, 1, 7, 0x100, 100, 0, 0];

/// The text of its load, and its closing table.
pub const STARTED: &str = "0 set 62 0 1\n0 set 6 0 1\n0 set 7 0 1\n0 run 7 0\n";

pub const STANDS: &str = "end power 6 1 1\nend proc 7 1 1\nend power 62 1 1\n";

/// Three masters, in another order than that of their masks. Each may use slaves 11 and 33, of which 11 can be shared;
/// master 7 may force domain 10 and shut down all.
pub const BOXES: &[u32] = &[
    2, 4, 1, 0x101, 3, 1, 0x4, 100, 0, 0, 7, 0x1, 100, 0, 0, 8, 0x2, 100, 0, 0, 0x102, 2, 11, 1,
    0x7, 33, 0, 0x7, 0x104, 1, 10, 0x1, 0x106, 1, 1, 0x1,
];

/// The text of its load and of its first line, `ipi 1 21`.
pub const BOXES_SETTLED: &str = "0 set 10 0 1
0 set 62 0 1
0 set 1 0 1
0 set 2 0 1
0 set 11 0 2
0 set 33 0 1
0 run 2 0
1 set 11 2 0
1 set 33 1 0
1 reply 1 0 0 0 0
";

/// Its closing table if nothing changes after that line.
pub const BOXES_CLOSED: &str = "end power 1 1 1
end proc 2 1 1
end power 10 1 1
end power 62 1 1
";

/// The real-time processors as two masters. The second may use a slave of each class in each power domain: the memory
/// 15 in the processors' own domain, the peripherals 28 and 42 below FPD and 33 below LPD, the external interrupts
/// 49, the dynamic memory 55 below FPD, and the block 63 below PLD.
pub const DOMAINS: &[u32] = &[
    2, 2, 1, 0x101, 2, 8, 0x200, 100, 0, 0, 7, 0x100, 100, 0, 0, 0x102, 7, 15, 1, 0x100, 28, 1,
    0x100, 33, 1, 0x100, 42, 1, 0x100, 49, 1, 0x100, 55, 1, 0x100, 63, 1, 0x100,
];

/// The text of a small topology with a slave that the chip lacks.
pub const SMALL_TOPOLOGY: &str = "power 62 none 1 20 3000
power 1 62 0 30 500
proc 2 1 300 400
proc 7 62 100 200
proc 8 62 100 200
slave 100 62
state 0 1000 0 0
state 1 0 1 5
line 100 100
owner 1 2
owner 6 7
owner 7 7
owner 8 8
";

/// An object for it, whose master may use the slave, and has it at the start.
pub const SMALL: &[u32] = &[2, 2, 1, 257, 1, 1, 1, 100, 0, 0, 258, 1, 100, 1, 1];

/// Three masters, each of which may use every slave of the chip, and may force and reset some nodes and lines. The
/// object has all sections.
pub const USUAL: &[u32] = &[
    2, 8, 1, 0x101, 3, 1, 1, 0xFFFFFFFF, 0x301, 0x301, 7, 0x100, 0xFFFFFFFF, 0x301, 0x301, 8,
    0x200, 0xFFFFFFFF, 0x301, 0x301, 0x102, 58, 11, 1, 0x301, 12, 1, 0x301, 13, 1, 0x301, 14, 1,
    0x301, 15, 1, 0x301, 16, 1, 0x301, 17, 1, 0x301, 18, 1, 0x301, 19, 1, 0x301, 20, 1, 0x301, 21,
    1, 0x301, 22, 1, 0x301, 23, 1, 0x301, 24, 1, 0x301, 25, 1, 0x301, 26, 1, 0x301, 27, 1, 0x301,
    28, 1, 0x301, 29, 1, 0x301, 30, 1, 0x301, 31, 1, 0x301, 32, 1, 0x301, 33, 1, 0x301, 34, 1,
    0x301, 35, 1, 0x301, 36, 1, 0x301, 37, 1, 0x301, 38, 1, 0x301, 39, 1, 0x301, 40, 1, 0x301, 41,
    1, 0x301, 42, 1, 0x301, 43, 1, 0x301, 44, 1, 0x301, 45, 1, 0x301, 46, 1, 0x301, 47, 1, 0x301,
    48, 1, 0x301, 49, 1, 0x301, 50, 1, 0x301, 51, 1, 0x301, 52, 1, 0x301, 53, 1, 0x301, 54, 1,
    0x301, 55, 1, 0x301, 56, 1, 0x301, 57, 1, 0x301, 58, 1, 0x301, 59, 1, 0x301, 60, 1, 0x301, 61,
    1, 0x301, 63, 1, 0x301, 64, 1, 0x301, 65, 1, 0x301, 66, 1, 0x301, 67, 1, 0x301, 68, 1, 0x301,
    69, 1, 0x301, 0x103, 3, 1, 4, 11, 2, 1, 1, 19, 2, 1, 1, 55, 2, 1, 1, 56, 2, 1, 1, 0x100, 2, 15,
    2, 1, 1, 57, 2, 1, 1, 0x200, 2, 17, 2, 1, 1, 64, 2, 1, 1, 0x104, 4, 1, 0x301, 6, 0x301, 9,
    0x301, 10, 0x301, 0x105, 4, 1000, 0x301, 1001, 0x301, 1002, 0x301, 1003, 0x301, 0x106, 0,
    0x107, 0x301, 0x301, 0x108, 0,
];
