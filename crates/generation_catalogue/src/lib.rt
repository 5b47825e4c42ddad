//! The history of one carousel's generations: all commits and draws in order, and the generation
//! that they lead to.
//!
//! Each commit edits the tree of the generation before it. Each draw gives the next items of the
//! current generation's cycle. The entries replay to the current generation and the place in its
//! cycle. The limits are this project's own.
//!
//! ```
//! use cycle_planner::GREATEST_ID;
//! use generation_catalogue::Journal;
//! use oc_bytes::Blob;
//! use path_tree::{Edit, Edits, Path};
//!
//! let mut journal = Journal::new(alloc, 7, [1; GREATEST_ID])?;
//! let page = Blob::new(alloc, Vec::from_slice(alloc, b"<p>")?)?;
//! let edits = vec![in alloc; Edit::Put(Path::parse(alloc, b"/index.html")?, page)]?;
//! assert!(rt; matches!(journal.commit_edits(1, Edits::new(edits)), Ok(1)));
//! assert_eq!(rt; journal.current().tree().len(), 1);
//! ```
#![tactic(auto)]

mod catalogue;
mod entry;
mod journal;
mod laws;
mod limits;
mod threads;

pub use catalogue::Catalogue;
pub use entry::{Batch, CommitFault, DrawFault, Entry, Refusal};
pub use journal::{Journal, MOST_DRAWS, MOST_PUT_BYTES};
pub use laws::histories_grow;
pub use limits::limits_are_numbers;
pub use threads::cross_threads;
