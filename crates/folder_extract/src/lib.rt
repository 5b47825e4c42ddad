//! The files of a carousel as files of the outside.
//!
//! ```
//! use folder_extract::{Extracted, extract};
//! use folder_store::MemStore;
//! use oc_bytes::MemSink;
//! use sample_sections::{DSI, FILE_BLOCK, FILE_DII};
//! use shell_streams::{Buffered, room};
//! use tuner_core::Tuner;
//!
//! let mut tuner = Tuner::new(alloc);
//! for section in [&DSI[..], &FILE_DII[..], &FILE_BLOCK[..]] {
//!     tuner.feed(section)?;
//! }
//! let mut store = MemStore::new(alloc, Vec::new(alloc));
//! let (mut sink, mut pending) = (MemSink::new(alloc, Vec::new(alloc), 100), room(alloc)?);
//! let mut out = Buffered::new(&mut sink, &mut pending);
//! let ended = extract(alloc, &*tuner.shot(0, 0)?, "out", &mut store, &mut out)?;
//! assert_eq!(rt; ended, Extracted::All);
//! assert_eq!(rt; store.content("out/a"), Some(b"hello".as_slice()));
//! assert_eq!(rt; sink.written(), b"folder / 1\nfile /a 5\n".as_slice());
//! ```
#![tactic(auto)]

mod extracting;
mod naming;
mod telling;

pub use extracting::{Extracted, extract};
