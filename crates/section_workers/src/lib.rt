//! The sections of a batch, made by two workers at once, and the gate that actors pass. A gate has
//! no answer, so it changes only timing: a test sees by it that actors overlap.
//!
//! ```
//! use cycle_planner::Item;
//! use generation::Generation;
//! use section_workers::{NoGate, encode_batch};
//!
//! let generation = Generation::first(alloc, 1)?;
//! let items = [Item::Dsi, Item::Dii(1), Item::Block(1, 0)];
//! let sections = encode_batch(&rt, alloc, &generation, &items, &NoGate)?;
//! assert_eq!(rt; sections.len(), 3);
//! assert_eq!(rt; sections[2].as_slice(), generation.section(Item::Block(1, 0))?.as_slice());
//! ```
#![tactic(auto)]

mod encoding;
mod gate;

pub use encoding::encode_batch;
pub use gate::{Actor, Gate, NoGate};
