//! Tests of what a broadcaster is made of, and of the history that it shares with its readers, over the public calls of the crates: those
//! that start threads, wait, or run into failures.
#![tactic(auto)]

#[cfg(test)]
mod histories;
#[cfg(test)]
mod locks;
#[cfg(test)]
mod stations;
#[cfg(test)]
mod workers;
