//! The words of the message interface (UG1200, power management API): the call that a message makes,
//! how it wants to be acknowledged, what a call is answered, the callbacks, and the boxes of messages that are served
//! later.
#![tactic(auto)]

pub mod callbacks;
pub mod calls;
pub mod mail;
pub mod responses;
pub mod status;

pub use callbacks::callback_words;
pub use calls::{AckKind, Call, Named, ack_kind, decode_call};
pub use mail::Mail;
pub use responses::{Response, respond};
