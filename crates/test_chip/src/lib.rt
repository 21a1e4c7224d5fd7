//! Tests of the table of the chip, of the rules of a topology, and of the reach of masters.
#![tactic(auto)]

#[cfg(test)]
mod chip;
#[cfg(test)]
mod reach;
#[cfg(test)]
mod reach_masters;
#[cfg(test)]
mod reach_several;
#[cfg(test)]
mod rows;
#[cfg(test)]
mod topology_faults;
#[cfg(test)]
mod topology_limits;
#[cfg(test)]
mod topology_lists;
#[cfg(test)]
mod topology_masters;
