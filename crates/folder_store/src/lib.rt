//! Folders of the outside as edits, and writing into them. The traits and the rules of reading are
//! this project's own.
//!
//! ```
//! use folder_store::{MemFolders, read_tree};
//! use oc_bytes::Blob;
//! use path_tree::Edit;
//!
//! let content = Blob::new(alloc, b"hello".to_vec(alloc)?)?;
//! let entries = vec![in alloc; (String::from_str(alloc, "site/news/today.txt")?, content)]?;
//! let mut folders = MemFolders::new(entries, Vec::new(alloc));
//! let edits = read_tree(alloc, &mut folders, "site")?;
//! let Some(Edit::Put(path, content)) = edits.first() else { panic!("no file") };
//! assert_eq!(rt; path.print()?.as_str(), "/news/today.txt");
//! assert_eq!(rt; content.bytes(), b"hello".as_slice());
//! ```
#![tactic(auto)]

mod folders;
mod laws;
mod mem_store;
mod memory;
mod os_store;
mod places;
mod reading;
mod real;
mod sights;
mod store;
mod surveying;

pub use folders::{EntryKind, FolderEntry, FolderFault, Folders};
pub use laws::edits_make_the_files;
pub use mem_store::MemStore;
pub use memory::MemFolders;
pub use os_store::{OsStore, PART_NAME};
pub use places::{place_text, standing_text};
pub use reading::{ReadTree, TreeFault, read_tree};
pub use real::OsFolders;
pub use sights::Standing;
pub use store::{Store, StoreFault};
pub use surveying::{SurveyFault, Surveyed, survey};
