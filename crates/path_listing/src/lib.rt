//! The paths of what a receiver holds, from the root on. The rules and the limit are this project's
//! own.
//!
//! ```
//! use path_listing::listed_paths;
//! use sample_sections::{DSI, FILE_BLOCK, FILE_DII};
//! use tuner_core::Tuner;
//!
//! let mut tuner = Tuner::new(alloc);
//! for section in [&DSI[..], &FILE_DII[..], &FILE_BLOCK[..]] {
//!     tuner.feed(section)?;
//! }
//! let listing = listed_paths(alloc, &*tuner.shot(0, 0)?)?;
//! assert_eq!(rt; listing.paths.len(), 2);
//! assert_eq!(rt; listing.paths[1].print()?.as_str(), "/a");
//! ```
#![tactic(auto)]

mod limits;
mod walking;

pub use limits::limits_are_numbers;
pub use walking::{Listing, MOST_LISTED, listed_paths};
