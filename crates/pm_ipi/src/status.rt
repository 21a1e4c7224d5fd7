//! The status words of replies and acknowledgements (UG1200, error codes of the power management
//! API).

/// The call was done.
pub const SUCCESS: u32 = 0;
/// The mode of the processor or of the master doesn't fit the call.
pub const FAILURE: u32 = 1;
/// An argument is outside its list.
pub const INVALID_PARAMETER: u32 = 15;
/// No such call, or a capability that the slave lacks.
pub const NO_FEATURE: u32 = 19;
/// A device didn't follow the call.
pub const INTERNAL: u32 = 2000;
/// The object doesn't permit it, or the caller doesn't use the slave.
pub const NO_ACCESS: u32 = 2002;
/// No such node, or not of the kind that the call takes.
pub const INVALID_NODE: u32 = 2003;
/// The caller uses the slave already, the processor suspends already, or a request to suspend is pending
/// on the master already.
pub const DOUBLE_REQUEST: u32 = 2004;
/// The master that was asked to suspend goes on.
pub const ABORT_SUSPEND: u32 = 2005;
/// The master that was asked to suspend didn't do so in its time.
pub const TIMEOUT: u32 = 2006;
/// Another master uses the slave, and it can't be shared.
pub const NODE_USED: u32 = 2007;
