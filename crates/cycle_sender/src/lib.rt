//! Whole cycles of a generation on their way to an output, as packets.
//!
//! ```
//! use cycle_planner::{GREATEST_ID, Weigh};
//! use cycle_sender::Sender;
//! use generation::Generation;
//! use oc_bytes::MemSink;
//! use shell_streams::{Buffered, Output, room};
//!
//! let call = Box::new(alloc, |_id: u16| -> u8 ensures { result ≡ 1 } { 1 })?;
//! let weigh = Weigh::new([1; GREATEST_ID], call);
//! let (mut sink, mut pending) = (MemSink::new(alloc, Vec::new(alloc), 100), room(alloc)?);
//! let mut out = Buffered::new(&mut sink, &mut pending);
//! Sender::new(alloc, 256).send_group(&Generation::first(alloc, 1)?, &weigh, &mut out)?;
//! out.flush()?;
//! assert_eq!(rt; sink.written().len() % 188, 0);
//! ```
#![tactic(auto)]

mod sender;

pub use sender::{Sender, put_packets};
