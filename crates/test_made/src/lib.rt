//! Tests of the inputs that the program generates: the laboratory's object, the script, the summary of its run, and
//! the one input in memory.
#![tactic(auto)]

#[cfg(test)]
mod inputs;
#[cfg(test)]
mod laboratory;
#[cfg(test)]
mod scripts;
#[cfg(test)]
mod summaries;
