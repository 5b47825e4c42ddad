//! A board that shows one value after another: whoever shows never waits for whoever looks, and
//! viewers take no lock.
//!
//! ```
//! use shot_board::{Numbered, board};
//! use std::sync::Arc;
//!
//! #[derive(Drop)]
//! struct Slide { number: u64 }
//!
//! impl Numbered for Slide { ghost number = { λ slide. slide.number }; }
//!
//! let (first, second) = (Arc::new(alloc, Slide { number: 0 })?, Arc::new(alloc, Slide { number: 1 })?);
//! let (mut shower, mut viewers) = board(&rt, alloc, first, 1, 1)?;
//! let before = viewers[0].take();
//! let shown = shower.show(&rt, second).is_ok();
//! viewers[0].learn(shower.front());
//! let after = viewers[0].take();
//! shower.close(&rt);
//! assert_eq!(rt; (before?.number, shown, after?.number), (0, true, 1));
//! ```
#![tactic(auto)]

mod book;
mod crossing;
mod front;
mod numbered;
mod opening;
mod seats;
mod shower;
mod shown;
mod viewer;

pub use crossing::cross_threads;
pub use front::Front;
pub use numbered::Numbered;
pub use opening::board;
pub use shower::Shower;
pub use viewer::Viewer;
