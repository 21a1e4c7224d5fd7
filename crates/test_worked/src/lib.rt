//! Tests of whole runs through the top call, each worked out by hand: the words, the files, the device, the text, and
//! the exit.
#![tactic(auto)]

#[cfg(test)]
mod attached;
#[cfg(test)]
mod checks;
#[cfg(test)]
mod devices;
#[cfg(test)]
mod handlers;
#[cfg(test)]
mod inputs;
#[cfg(test)]
mod mail;
#[cfg(test)]
mod making;
#[cfg(test)]
mod messages;
#[cfg(test)]
mod modes;
#[cfg(test)]
mod notices;
#[cfg(test)]
mod objects;
#[cfg(test)]
mod reaching;
#[cfg(test)]
mod running;
#[cfg(test)]
mod topologies;
#[cfg(test)]
mod usual;
