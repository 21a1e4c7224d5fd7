//! What a run reads and writes: the inputs and the sink of a run, in the host's memory and elsewhere, and the lines, words and
//! numbers of a text.
#![tactic(auto)]

pub mod calls;
pub mod inputs;
pub mod lines;
pub mod mem_inputs;
pub mod mem_sink;
pub mod numbers;
pub mod one_input;
pub mod prefix;
pub mod sink;
mod stored_file;
pub mod words;
pub mod writing;

pub use calls::{CallLog, Entry};
pub use inputs::Inputs;
pub use lines::{Ending, TOO_LONG, is_plain, is_readable, split_line, without_return};
pub use mem_inputs::MemInputs;
pub use mem_sink::MemSink;
pub use numbers::number;
pub use one_input::OneInput;
pub use prefix::{Prefix, StopReason, gather};
pub use sink::Sink;
pub use words::{word, word_text};
pub use writing::write_all;
