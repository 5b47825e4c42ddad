//! Paths and their texts, trees of files and kept folders, and edits of trees. The texts and limits
//! are this project's own.
//!
//! ```
//! use oc_bytes::Blob;
//! use path_tree::{Edit, Path, Tree, apply};
//!
//! let path = Path::parse(alloc, b"/news/index.html")?;
//! let page = Blob::new(alloc, Vec::from_slice(alloc, b"<p>")?)?;
//! let edits = [Edit::Put(path.share()?, page)];
//! let tree = apply(alloc, &Tree::empty(alloc), &edits)?;
//! assert_eq!(rt; tree.len(), 1);
//! assert_eq!(rt; tree.find(&path), Some(0));
//! ```
#![tactic(auto)]

mod edited;
mod entries;
mod entry;
mod laws;
mod limits;
mod path;
mod text;
mod tree;

pub use edited::edited_entries;
pub use entry::Entry;
pub use laws::{
    files_stay_the_same, lookups_stay_the_same, nestings_are_their_entries, others_stay,
    trees_are_nestings,
};
pub use limits::limits_are_numbers;
pub use path::{Name, Path, PathFault};
pub use text::{MOST_NAMES, print_name};
pub use tree::{ApplyFault, Edit, EditFault, Edits, Lookup, MOST_CONTENT, Tree, apply};
