//! Tests of a topology's text: texts that are read, texts that are refused, and printed texts.
#![tactic(auto)]

#[cfg(test)]
mod faults;
#[cfg(test)]
mod rows;
#[cfg(test)]
mod texts;
