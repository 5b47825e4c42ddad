//! What the crates of the carousel share: bytes, fields of a message, descriptors, a writer,
//! decimals, and traits through which bytes come in and go out.
//!
//! Numbers on the wire are big-endian (ISO/IEC 13818-1 and 13818-6). Decimals and traits are this
//! project's own.
//!
//! ```
//! use oc_bytes::{Cut, Fields};
//!
//! let mut fields = Fields::new(&[0x12, 0x34, 2, 7, 8, 9]);
//! assert_eq!(rt; fields.u16(), Ok(0x1234));
//! assert_eq!(rt; fields.sized8(), Ok(&[7, 8][..]));
//! assert_eq!(rt; fields.u16(), Err(Cut(5)));
//! ```
#![tactic(auto)]

mod blob;
mod decimals;
mod descriptors;
mod fields;
mod lengths;
mod limits;
mod memory;
mod real;
mod sink;
mod source;
mod writer;

pub use blob::{Blob, are_bytes};
pub use decimals::decimal;
pub use descriptors::{Descriptor, Descriptors};
pub use fields::{Cut, Fields};
pub use lengths::{MOST_LENGTH, MOST_SECTION, length_field};
pub use limits::limits_are_numbers;
pub use memory::{MemSink, MemSource};
pub use real::{StdSink, StdSource};
pub use sink::{Sink, WriteFault, write_all};
pub use source::{Failed, Source};
use std::alloc::AllocError;
pub use writer::Writer;

/// Out of memory, where nothing else can fail.
pub type NoMemory = AllocError;
