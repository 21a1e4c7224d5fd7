//! Tests of whole runs: the effects of each kind of script line.
#![tactic(auto)]

#[cfg(test)]
mod attached;
#[cfg(test)]
mod boxes;
#[cfg(test)]
mod boxes_apart;
#[cfg(test)]
mod boxes_order;
#[cfg(test)]
mod checks;
#[cfg(test)]
mod clocks;
#[cfg(test)]
mod power_calls;
#[cfg(test)]
mod running;
#[cfg(test)]
mod steps;
#[cfg(test)]
mod waking;
