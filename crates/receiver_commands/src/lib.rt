//! The commands for receivers: each reads sections or packets from a source, writes what a receiver
//! makes of them to a sink, and says how it ended. Nothing may be pending in the output when one is
//! called. `why` reads nothing. The rules are this project's own.
//!
//! ```
//! use oc_bytes::{MemSink, MemSource};
//! use receiver_commands::open::list;
//! use sample_sections::{DSI, FILE_BLOCK, FILE_DII};
//! use shell_streams::{Buffered, Carrier, room};
//!
//! let mut input = Vec::new(alloc);
//! for section in [&DSI[..], &FILE_DII[..], &FILE_BLOCK[..]] {
//!     input.extend_from_slice(section)?;
//! }
//! let mut source = MemSource::new(input, Vec::new(alloc), 4096);
//! let (mut sink, mut pending) = (MemSink::new(alloc, Vec::new(alloc), 4096), room(alloc)?);
//! let mut out = Buffered::new(&mut sink, &mut pending);
//! let status = list(alloc, Carrier::Sections(3), &mut source, &mut out);
//! assert_eq!(rt; status.code(), 0);
//! assert_eq!(rt; sink.written(), b"/ folder 1\n/a file 5\n".as_slice());
//! ```
#![tactic(auto)]

mod answers;
pub mod assemble;
pub mod extract;
pub mod find;
pub mod inspect;
mod limits;
mod listing;
pub mod mounts;
pub mod open;
pub mod open_id;
mod receiver;
pub mod record;
mod status;
pub mod watch;
pub mod why;

pub use limits::limits_are_numbers;
pub use status::Status;
