//! Tests of the parts of the book: rows, states, power nodes, requests, notes and reset lines.
#![tactic(auto)]

#[cfg(test)]
mod chip;
#[cfg(test)]
mod choice;
#[cfg(test)]
mod domains;
#[cfg(test)]
mod notify;
#[cfg(test)]
mod reloads;
#[cfg(test)]
mod requests;
#[cfg(test)]
mod requirements;
#[cfg(test)]
mod resets;
#[cfg(test)]
mod rows;
