//! Tests of a step's public calls: the book, and the changes by its own calls.
#![tactic(auto)]

#[cfg(test)]
mod book;
#[cfg(test)]
mod calls;
#[cfg(test)]
mod each_line;
#[cfg(test)]
mod modes;
#[cfg(test)]
mod permitted;
#[cfg(test)]
mod resets;
#[cfg(test)]
mod rows;
#[cfg(test)]
mod waking;
