//! The binary configuration object, which says which master may use, suspend, wake, force, reset
//! and shut down what (UG1137, configuration object).
#![tactic(auto)]

pub mod attached;
mod copying;
mod decoding;
mod encoding;
mod groups;
mod header;
mod laws;
mod masters;
pub mod object;
mod pairs;
mod records;
mod sections;
mod slaves;
mod spelling;
mod unset;
mod words;

pub use attached::{Attached, Content};
pub use decoding::decode;
pub use encoding::{bytes_of, encode};
pub use laws::{object_sections, one_reading, section_identifiers};
pub use masters::{is_bad_mask, is_bad_node};
pub use object::{
    DecodeError, MOST_WORDS, MasterRec, Object, ObjectCause, ObjectFault, Pair, PreGroup, PreRec,
    Section, SlaveRec,
};
pub use records::{Keyed, has_key};
pub use sections::has_section;
