//! What a receiver of one PID holds and passed over of an input, told line by line.
//!
//! An input without packets is told of too:
//!
//! ```
//! use oc_bytes::{MemSink, MemSource};
//! use reception_report::{receive_packets, write_report};
//! use shell_streams::{Buffered, room};
//!
//! let mut source = MemSource::new(Vec::new(alloc), Vec::new(alloc), 4096);
//! let reception = receive_packets(alloc, 256, &mut source)?;
//! assert_eq!(rt; reception.sync, None);
//! let (mut sink, mut pending) = (MemSink::new(alloc, Vec::new(alloc), 4096), room(alloc)?);
//! write_report(alloc, &reception, &mut Buffered::new(&mut sink, &mut pending))?;
//! assert!(rt; sink.written().starts_with(b"packets 0 no-sync 0 "));
//! ```
#![tactic(auto)]

mod following;
mod front;
mod hearing;
mod laws;
mod lines;
mod module_lines;
mod outcome;
mod reception;
mod report;
mod sync;
mod tally;

pub use laws::runs_are_of_the_missing;
pub use outcome::Outcome;
pub use reception::{Reception, receive_packets};
pub use report::write_report;
pub use sync::{SyncPlace, sync_of, sync_text};
