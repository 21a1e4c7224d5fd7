//! Answers of the program, and the two errors that all crates share.

use thiserror::Error;

/// An input, a sink or a device failed. Its count of faults rose.
#[derive(Clone, Copy, Debug, PartialEq, Eq, Error)]
#[error("failed")]
pub struct Failed;

/// There was not enough memory. What was to be made isn't there, and all else is as before.
#[derive(Clone, Copy, Debug, PartialEq, Eq, Error)]
#[error("out of memory")]
pub struct NoMemory;

/// How a run of the program ends. The exit status is the variant's number.
#[derive(Clone, Copy, Debug, PartialEq, Eq)]
pub enum Exit {
    Done = 0,
    Usage = 1,
    BadObject = 2,
    BadLine = 3,
    ReadFault = 4,
    WriteFault = 5,
    Memory = 6,
    TooLarge = 7,
    BadText = 8,
}
