//! Tests of lines: how they are read from an input, their words and numbers, and the events of script lines.
#![tactic(auto)]

#[cfg(test)]
mod faults;
#[cfg(test)]
mod lines;
#[cfg(test)]
mod reader;
#[cfg(test)]
mod rows;
#[cfg(test)]
mod ticks;
#[cfg(test)]
mod words;
