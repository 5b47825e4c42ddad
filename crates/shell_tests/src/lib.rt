//! Tests of the commands and of sessions that can't be rows: actors on threads, ends that fail in
//! mid-stream, and folders and inputs of a kind that isn't in memory.
#![tactic(auto)]

#[cfg(test)]
mod actors;
#[cfg(test)]
mod failing;
#[cfg(test)]
mod folders;
#[cfg(test)]
mod long;
#[cfg(test)]
mod meeting;
#[cfg(test)]
mod sessions;
#[cfg(test)]
mod steps;
#[cfg(test)]
mod stopped;
