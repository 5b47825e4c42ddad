//! Shots of a receiver, and answers to paths, without a copy, on a shot or on the receiver itself.
//!
//! The order of the answers, and `same`, are this project's own.
//!
//! The gateway was heard, and nothing yet of its module:
//!
//! ```
//! use dsi_dii::ModuleLine;
//! use ior_tap::{Key, Location};
//! use path_resolver::{Answer, Gateway, Held, Shot, resolve};
//! use path_tree::Path;
//!
//! let key = Key::new(vec![in alloc; 0, 0, 0, 1]?);
//! let gateway = Some(Gateway { location: Location { carousel: 1, module: 5, key }, delivery: None });
//! let line = ModuleLine { id: 5, size: 34, version: 0, compressed: false };
//! let table = vec![in alloc; Held { identification: 1, line, module: None }]?;
//! let shot = Shot { number: 0, draws: 0, mark: 2, epoch: 0, label: Some(0), held: vec![in alloc; 1]?, gateway, table };
//! let path = Path::parse(alloc, b"/news/today.txt")?;
//! assert!(rt; matches!(resolve(&shot, &path)?, Answer::NotYet(5)));
//! ```
#![tactic(auto)]

mod answer;
mod comparing;
mod crossing;
mod holding;
mod shot;
mod walking;

pub use answer::{Answer, FileRef, FolderRef};
pub use comparing::same;
pub use crossing::cross_threads;
pub use holding::{Holding, Listed};
pub use shot::{Gateway, Held, Shot};
pub use walking::{answer_on, home_of, resolve};
