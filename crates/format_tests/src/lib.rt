//! What the crates of the formats do where a read or a write fails in mid-stream.
#![tactic(auto)]

#[cfg(test)]
mod sources_and_sinks;
