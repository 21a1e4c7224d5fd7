//! Tests of whole runs over devices that fail commands.
#![tactic(auto)]

#[cfg(test)]
mod checks;
#[cfg(test)]
mod commands;
#[cfg(test)]
mod each_command;
#[cfg(test)]
mod forcing;
#[cfg(test)]
mod retrying;
#[cfg(test)]
mod running;
#[cfg(test)]
mod status;
#[cfg(test)]
mod steps;
