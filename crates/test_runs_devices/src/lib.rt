//! Tests of whole runs over devices that fail only on broken nodes.
#![tactic(auto)]

#[cfg(test)]
mod breaking;
#[cfg(test)]
mod broken;
#[cfg(test)]
mod checks;
#[cfg(test)]
mod devices;
#[cfg(test)]
mod fitting;
#[cfg(test)]
mod running;
#[cfg(test)]
mod serving;
