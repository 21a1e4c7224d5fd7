//! Tests of inputs, objects, texts, devices, messages and boxes, each a table of cases and one loop over it.
#![tactic(auto)]

#[cfg(test)]
mod calls;
#[cfg(test)]
mod chip;
#[cfg(test)]
mod devices;
#[cfg(test)]
mod inputs;
#[cfg(test)]
mod mail;
#[cfg(test)]
mod objects;
#[cfg(test)]
mod rows;
#[cfg(test)]
mod texts;
