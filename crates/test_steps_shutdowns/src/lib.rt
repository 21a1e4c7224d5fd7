//! Tests of steps in which nodes are forced down, and masters or the whole system are shut down or restarted.
#![tactic(auto)]

#[cfg(test)]
mod anew;
#[cfg(test)]
mod each_node;
#[cfg(test)]
mod each_shutdown;
#[cfg(test)]
mod forcing;
#[cfg(test)]
mod rows;
#[cfg(test)]
mod shutting;
