//! Tests of an object's permissions on the chip, of the modes of its processors, and of their owners.
#![tactic(auto)]

#[cfg(test)]
mod chip;
#[cfg(test)]
mod grants;
#[cfg(test)]
mod permissions;
#[cfg(test)]
mod permits;
#[cfg(test)]
mod procs;
#[cfg(test)]
mod rows;
