//! The input that a command reads and the output that it writes, in large pieces.
//!
//! ```
//! use oc_bytes::{MemSink, MemSource};
//! use shell_streams::{Buffered, InputFault, Output, read_all, room};
//!
//! let mut source = MemSource::new(b"hello world".to_vec(alloc)?, Vec::new(alloc), 4);
//! let text = read_all(alloc, &mut source, 11)?;
//! let (mut sink, mut pending) = (MemSink::new(alloc, Vec::new(alloc), 4), room(alloc)?);
//! let mut output = Buffered::new(&mut sink, &mut pending);
//! output.put(&text)?;
//! output.flush()?;
//! assert_eq!(rt; sink.written(), b"hello world".as_slice());
//! let mut longer = MemSource::new(text, Vec::new(alloc), 4);
//! assert_eq!(rt; read_all(alloc, &mut longer, 10), Err(InputFault::TooLong));
//! ```
#![tactic(auto)]

mod carrier;
mod every_packet;
mod input;
mod limits;
mod output;
mod packets;
mod sections;
mod unread;
mod whole;

pub use carrier::{Carrier, Listener, hear_all, hear_each};
pub use every_packet::{PacketListener, hear_all_packets, hear_packets_and_rest};
pub use input::InputFault;
pub use limits::limits_are_numbers;
pub use output::{Buffered, MOST_PENDING, Output, OutputFault, room};
pub use packets::{MOST_PACKETS, PacketReader};
pub use whole::read_all;
