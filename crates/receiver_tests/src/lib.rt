//! Tests of what a receiver is made of, over the public calls of its crates: those that start threads, wait, or run into failures.
#![tactic(auto)]

#[cfg(test)]
mod boards;
#[cfg(test)]
mod opens;
