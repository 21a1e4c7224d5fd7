//! The files and the standard output of the host, as inputs and sink of a run.
#![tactic(auto)]

mod inputs;
mod sink;
mod writer;

pub use inputs::HostInputs;
pub use sink::HostSink;
