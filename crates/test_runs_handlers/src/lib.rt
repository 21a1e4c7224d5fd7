//! Tests of whole runs with modules and timed tasks: those of the program, and those of the tests.
#![tactic(auto)]

#[cfg(test)]
mod checks;
#[cfg(test)]
mod handlers;
#[cfg(test)]
mod modules;
#[cfg(test)]
mod running;
#[cfg(test)]
mod tasks;
