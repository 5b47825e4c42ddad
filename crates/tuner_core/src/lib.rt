//! The receiver of one carousel: it hears candidates for sections, holds modules, and answers
//! paths.
//!
//! The receiver follows one generation after another. One to 16 DIIs (ISO/IEC 13818-6,
//! DownloadInfoIndication) of one version describe a generation, each with an identification of its
//! own. The first DII of another version takes the place of all that are held, and later ones join
//! it. A module stays over such a turn if the DIIs of its identification, before and after,
//! describe it in the same way and the two versions are fewer than 256 apart. These rules are this
//! project's own.
//!
//! ```
//! use path_resolver::{Answer, resolve};
//! use path_tree::Path;
//! use sample_sections::{DSI, FILE_BLOCK, FILE_DII};
//! use tuner_core::{Fed, Tuner};
//!
//! let mut tuner = Tuner::new(alloc);
//! assert_eq!(rt; tuner.feed(&DSI)?, Fed::Changed);
//! assert_eq!(rt; tuner.feed(&FILE_DII)?, Fed::Changed);
//! assert_eq!(rt; tuner.feed(&FILE_BLOCK)?, Fed::Changed);
//! let shot = tuner.shot(0, 0)?;
//! let answer = resolve(&shot, &Path::parse(alloc, b"/a")?)?;
//! assert!(rt; matches!(&answer, Answer::File(file) if file.bytes() == b"hello".as_slice()));
//! ```
#![tactic(auto)]

mod gateway;
mod hearing;
mod laws;
mod lending;
mod limits;
mod told;
mod tuner;
mod turns;

pub use laws::{held_is_bounded, held_looks_back, spans_are_of_the_list};
pub use limits::limits_are_numbers;
pub use module_cache::Taken;
pub use told::{Cause, Fed};
pub use tuner::Tuner;
pub use turns::MOST_HELD;
