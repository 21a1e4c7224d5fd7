//! Tests of the handlers that a board brings: modules by their ranges of words, and tasks over lists of events.
#![tactic(auto)]

#[cfg(test)]
mod modules;
#[cfg(test)]
mod tasks;
