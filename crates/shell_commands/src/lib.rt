//! The commands that need no threads: a broadcaster's, `rehearse`, and one call for these and the
//! receiver's. Nothing may be pending in the output when one is called. The rules are this
//! project's own.
//!
//! ```
//! ghost use Rattle.std.specs.Prelude.{◌≡◌};
//!
//! use shell_commands::run_plain;
//! use cycle_planner::{GREATEST_ID, Weigh};
//! use folder_playout::NoNotices;
//! use folder_store::{MemFolders, MemStore};
//! use oc_bytes::{MemSink, MemSource};
//!
//! let weigh = Weigh::new([1; GREATEST_ID], Box::new(alloc, |_: u16| -> u8 ensures { result ≡ 1 } { 1 })?);
//! let words = vec![in alloc; String::from_str(alloc, "rehearse")?]?;
//! let mut source = MemSource::new(b"commit 1\ndraw 3\nopen 2 /a\n".to_vec(alloc)?, Vec::new(alloc), 100);
//! let mut sink = MemSink::new(alloc, Vec::new(alloc), 100);
//! let mut folders = MemFolders::new(Vec::new(alloc), Vec::new(alloc));
//! let mut store = MemStore::new(alloc, Vec::new(alloc));
//! let filters = Vec::new(alloc);
//! let status = run_plain(alloc, &words, &mut source, &mut sink, &mut folders, &mut store, &mut NoNotices, weigh, filters);
//! assert_eq!(rt; status.code(), 0);
//! assert_eq!(rt; sink.written(), b"commit 1 generation 1\ndraw 1 0 3\nopen 2 1 /a no-such\n".as_slice());
//! ```
#![tactic(auto)]

mod air;
mod law;
mod plain;
mod plan;
mod publish;
mod publish_psi;
mod rehearse;

pub use law::{limits_are_numbers, receptions};
pub use plain::{MOST_OPENED, begin, run_command, run_plain};
pub use receiver_commands::Status;
pub use receiver_commands::assemble::MOST_ASSEMBLED;
pub use rehearse::MOST_SCRIPT_BYTES;
