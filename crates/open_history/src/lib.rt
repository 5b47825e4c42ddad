//! A reader's passes over a board of shots: each open is answered once, on the one shot that it
//! took. Readers take no lock and never wait.
//!
//! A reader opens a path on the board's first shot, in which nothing was heard yet:
//!
//! ```
//! use open_history::ReaderPass;
//! use path_resolver::{Answer, Shot};
//! use path_tree::Path;
//! use shot_board::board;
//! use std::sync::Arc;
//!
//! let path = Path::parse(alloc, b"/news.txt")?;
//! let (label, gateway, table) = (None, None, Vec::new(alloc));
//! let shot = Shot { number: 0, draws: 0, mark: 0, epoch: 0, label, held: Vec::new(alloc), gateway, table };
//! let (shower, mut viewers) = board(&rt, alloc, Arc::new(alloc, shot)?, 1, 0)?;
//! let Some(viewer) = viewers.pop() else { panic!("no viewer") };
//! let Ok(mut pass) = ReaderPass::new(alloc, 7, viewer, 1) else { panic!("out of memory") };
//! let place = pass.open_path(path).ok();
//! shower.close(&rt);
//! assert_eq!(rt; place, Some(0));
//! assert!(rt; matches!(pass.opens()[0].answer, Answer::NoCarousel));
//! ```
#![tactic(auto)]

mod answers;
mod crossing;
mod entry;
mod pass;

pub use crossing::cross_threads;
pub use entry::OpenEntry;
pub use pass::ReaderPass;
