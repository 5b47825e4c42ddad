//! One published tree as the modules, control messages and blocks of an object carousel, one generation after another.
//!
//! ```
//! use cycle_planner::Item;
//! use generation::Generation;
//!
//! let first = Generation::first(alloc, 1)?;
//! assert_eq!(rt; first.number(), 0);
//! assert_eq!(rt; first.lines(), [(1, 1)].as_slice());
//! let block = first.section(Item::Block(1, 0))?;
//! assert!(rt; block.starts_with(&[0x3C]));
//! ```
#![tactic(auto)]

mod control;
mod former;
mod groups;
mod keys;
mod laws;
mod limit;
mod limits;
mod links;
mod listing;
mod made;
mod objects;
mod ordered;
mod spots;
mod unchanged;

pub use laws::{
    equal_counts_mean_equal_bytes, equal_versions_mean_equal_bytes, generations_are_of_the_lists,
    layouts_are_lawful, objects_are_what_stands,
};
pub use limit::{Limit, MOST_OBJECTS, Publishable, check, checked, large_folder_size};
pub use limits::limits_are_numbers;
pub use listing::{Object, ObjectKind};
pub use made::Generation;
