//! Tests of steps by which a master acts on others: it asks them to suspend, is told about them, or puts another
//! object in force.
#![tactic(auto)]

#[cfg(test)]
mod asking;
#[cfg(test)]
mod configuring;
#[cfg(test)]
mod ending;
#[cfg(test)]
mod notifying;
#[cfg(test)]
mod pending;
#[cfg(test)]
mod rows;
