//! A lock that keeps a history: the value under it stands for a list that only grows, and whoever
//! takes the lock finds a list that begins with all that it has seen before.
//!
//! A lock is made with a number of passes. A pass is the right to hold the lock. It knows the list
//! that it has seen, and the places of its own entries in it: those that were added while it held.
//! `HistoryLock::hold` lends the value to one pass, `Hold::put_back` returns it, and
//! `HistoryLock::close` takes the value out, once all passes are back. Then each entry that was
//! added stands at a place that is one pass's own. So what each of several threads knows of its own
//! calls can be put together to what all of them did, though no clause compares two threads while
//! they run.
//!
//! The value may be of any type that implements `Chronicled`; nothing here knows what an entry is.
//! Two editors share a list of lines, to which each adds one:
//!
//! ```
//! ghost use Rattle.history_lock.specs.Passes.{IsPassOf};
//!
//! use history_lock::{Chronicled, HistoryLock, Pass};
//! use std::alloc::AllocError;
//! use std::sync::Wait;
//!
//! #[derive(Drop)]
//! struct Page {
//!     lines: Vec<u32>,
//! }
//!
//! impl Chronicled for Page {
//!     type Entry = u32;
//!
//!     ghost list = { λ page. page.lines.items };
//! }
//!
//! /// Adds a line of this number to the page, in one hold, unless there is no memory.
//! fn add<R: Wait>(rt: &R, page: &HistoryLock<Page>, pass: &mut Pass<Page>, line: u32) -> Result<(), AllocError>
//!     requires { IsPassOf page.now pass.old }
//!     ensures { IsPassOf page.now pass.new }
//! {
//!     let mut hold = page.hold(rt, pass);
//!     let added = hold.value().lines.push(line);
//!     hold.put_back();
//!     Ok(added?)
//! }
//!
//! let (page, mut passes) = HistoryLock::new(alloc, Page { lines: Vec::new(alloc) }, 2)?;
//! // one pass goes to each of two threads, and comes back at the end of it
//! let page = page.close(passes);
//! ```
//!
//! The lock is one word, free or held, and one slot for the value, in a table of `atomic_table`. It
//! is changed in six kinds of atomic step: the word is taken, the value is exchanged out and in,
//! the word is released, and passes are split off and joined. Between any two steps the table keeps
//! one rule, `specs/Inner/History.antt`. That a hold is ever got, and in which order, is not said.
#![tactic(auto)]

mod chronicled;
mod hold;
mod lock;
mod pass;
mod rule;

pub use chronicled::Chronicled;
pub use hold::Hold;
pub use lock::HistoryLock;
pub use pass::Pass;
