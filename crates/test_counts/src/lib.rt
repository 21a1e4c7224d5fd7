//! Tests of what is counted: cells, counts, and the rows of the book.
#![tactic(auto)]

#[cfg(test)]
mod cells;
#[cfg(test)]
mod counts;
#[cfg(test)]
mod fields;
#[cfg(test)]
mod requirements;
#[cfg(test)]
mod rows;
#[cfg(test)]
mod sizes;
