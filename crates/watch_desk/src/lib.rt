//! Watchers of paths: a desk is shown what a receiver holds, and tells each watcher of those of its
//! paths whose answers changed. Who watches, which paths, and what counts as a change are this
//! project's own rules.
//!
//! A receiver has heard where the gateway lies, and nothing yet of the module that holds it. The
//! watcher of all paths is told so:
//!
//! ```
//! use dsi_dii::ModuleLine;
//! use ior_tap::{Key, Location};
//! use path_resolver::{Gateway, Held, Shot};
//! use path_tree::Path;
//! use std::sync::Arc;
//! use watch_desk::{Desk, Filter, Notice};
//!
//! let (root, own) = (Path::parse(alloc, b"/")?, Path::parse(alloc, b"/")?);
//! let call = Box::new(alloc, move |path: &Path| own.is_same(path) || own.is_above(path))?;
//! let paths = vec![in alloc; Path::parse(alloc, b"/news/today.txt")?]?;
//! let mut desk = Desk::new(alloc, paths, vec![in alloc; Filter::new(root, call)]?);
//! let key = Key::new(vec![in alloc; 0, 0, 0, 1]?);
//! let location = Location { carousel: 1, module: 5, key };
//! let gateway = Some(Gateway { location, delivery: None });
//! let line = ModuleLine { id: 5, size: 34, version: 0, compressed: false };
//! let table = vec![in alloc; Held { identification: 1, line, module: None }]?;
//! let held = vec![in alloc; 1]?;
//! let label = Some(0);
//! let shot = Shot { number: 0, draws: 0, mark: 2, epoch: 0, label, held, gateway, table };
//! let told = desk.show(Arc::new(alloc, shot)?).map_err(|refused| refused.0)?;
//! assert_eq!(rt; told.as_slice(), [Notice { watcher: 0, path: 0 }].as_slice());
//! ```
#![tactic(auto)]

mod crossing;
mod desk;
mod filter;
mod laws;
mod notice;
mod notifying;
mod parts;
mod watched;

pub use crossing::cross_threads;
pub use desk::Desk;
pub use filter::{Call, Filter};
pub use laws::{
    each_change_is_told, each_change_is_told_after_its_candidate, limits_are_numbers,
    premises_can_be_met, shots_are_needed_at_changes, shots_tell_it,
};
pub use notice::Notice;
pub use parts::{is_of_blocks, whole_modules};

/// The most paths that a desk watches. This project's own limit.
pub const MOST_WATCHED: usize = 1_024;

/// The most watchers that a desk has. This project's own limit.
pub const MOST_FILTERS: usize = 64;
