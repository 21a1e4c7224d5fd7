//! Tests of the lines of a step, of a script line and of a fault.
#![tactic(auto)]

#[cfg(test)]
mod faults;
#[cfg(test)]
mod notes;
#[cfg(test)]
mod notices;
#[cfg(test)]
mod rows;
#[cfg(test)]
mod traces;
