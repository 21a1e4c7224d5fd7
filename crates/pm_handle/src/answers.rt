//! What calls answer: the numbers of `include/pmu.h`.

/// All was done.
pub const DONE: u32 = 0;

/// The bytes are no object.
pub const BAD_OBJECT: u32 = 2;

/// The text doesn't fit the buffer.
pub const NO_ROOM: u32 = 5;

/// Memory is wanted.
pub const NO_MEMORY: u32 = 6;

/// A command of the last step wasn't answered.
pub const COMMAND_LEFT: u32 = 16;

/// No command waits for its answer.
pub const NO_COMMAND: u32 = 17;

/// The chip has no such node, or the object no such master.
pub const NO_NODE: u32 = 18;

/// The handle holds no controller.
pub const CLOSED: u32 = 19;
