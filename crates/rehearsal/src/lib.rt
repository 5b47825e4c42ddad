//! Rehearsals: the events of a script happen in one world, in written order, and a report tells of
//! each what came of it. The language of scripts and the report are this project's own.
//!
//! ```
//! ghost use Rattle.std.specs.Prelude.{◌≡◌};
//!
//! use cycle_planner::{GREATEST_ID, Weigh};
//! use oc_bytes::MemSink;
//! use rehearsal::rehearse;
//! use session_script::read_parts;
//! use shell_streams::{Buffered, room};
//!
//! let weigh = Weigh::new([1; GREATEST_ID], Box::new(alloc, |_: u16| -> u8 ensures { result ≡ 1 } { 1 })?);
//! let script = read_parts(alloc, b"put 1 /a 6869\ncommit 1\ndraw 3\nopen 2 /a\n")?;
//! let (mut sink, mut pending) = (MemSink::new(alloc, Vec::new(alloc), 100), room(alloc)?);
//! rehearse(alloc, script, weigh, &mut Buffered::new(&mut sink, &mut pending))?;
//! let report = b"commit 1 generation 1\ndraw 1 0 3\nopen 2 1 /a file 2 6869\n";
//! assert_eq!(rt; sink.written(), report.as_slice());
//! ```
#![tactic(auto)]

mod interpreter;
mod rehearsal;
mod report;

pub use interpreter::{Happening, Interpreter};
pub use rehearsal::rehearse;
pub use report::put_report;
