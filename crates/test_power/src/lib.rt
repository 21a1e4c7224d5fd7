//! Tests of power nodes by their use counts.
#![tactic(auto)]

#[cfg(test)]
mod chips;
#[cfg(test)]
mod levels;
#[cfg(test)]
mod needs;
#[cfg(test)]
mod rows;
