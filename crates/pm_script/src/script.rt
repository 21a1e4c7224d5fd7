//! How much of a script is read.

/// How many bytes a script may have: 64 MiB.
pub const SCRIPT_LIMIT: u32 = 67_108_864;
