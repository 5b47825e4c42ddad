//! One history of a session out of its parts: the catalogue's entries in order, and after each draw
//! the opens that had heard that many. The order is this project's own.
//!
//! A commit and a draw, and a reader who opened a path before both:
//!
//! ```
//! use carousel_world::{Event, Reply};
//! use generation_catalogue::Entry;
//! use history_merge::merge;
//! use open_history::ReaderPass;
//! use path_resolver::Shot;
//! use path_tree::{Edits, Path};
//! use shot_board::board;
//! use std::sync::Arc;
//!
//! let (label, gateway, table) = (None, None, Vec::new(alloc));
//! let shot = Shot { number: 0, draws: 0, mark: 0, epoch: 0, label, held: Vec::new(alloc), gateway, table };
//! let (shower, mut viewers) = board(&rt, alloc, Arc::new(alloc, shot)?, 1, 0)?;
//! let Some(viewer) = viewers.pop() else { panic!("no viewer") };
//! let Ok(mut pass) = ReaderPass::new(alloc, 2, viewer, 1) else { panic!("out of memory") };
//! let opened = pass.open_path(Path::parse(alloc, b"/a")?).is_ok();
//! shower.close(&rt);
//! let commit = Entry::Commit { editor: 0, edits: Edits::new(Vec::new(alloc)), outcome: Ok(1) };
//! let draw = Entry::Draw { asked: 5, generation: 1, first: 0, count: 3 };
//! let told = merge(alloc, &[commit, draw], &[Vec::new(alloc)], &[7], &[pass])?;
//! assert!(rt; opened);
//! assert!(rt; matches!(told[0], (Event::Open { reader: 2, .. }, Reply::Opened { label: None, .. })));
//! assert!(rt; matches!(told[1], (Event::Commit { editor: 7, .. }, Reply::Committed(1))));
//! assert!(rt; matches!(told[2], (Event::Draw { asked: 5, .. }, Reply::Drawn { count: 3, .. })));
//! ```
#![tactic(auto)]

mod history;
mod laws;

pub use history::merge;
pub use laws::{merges_are_runs, merges_grow, opens_have_places, premises_can_be_met};
