//! The top calls: `run` runs every command; `run_session` runs `session` and `big` on threads, and
//! `run_plain` every other without. The limits, the laws and the statuses are re-exported. The
//! rules are this project's own.
//!
//! ```
//! ghost use Rattle.std.specs.Prelude.{◌≡◌};
//!
//! use carousel_shell::run;
//! use cycle_planner::{GREATEST_ID, Weigh};
//! use folder_playout::NoNotices;
//! use folder_store::{MemFolders, MemStore};
//! use oc_bytes::{MemSink, MemSource};
//! use section_workers::NoGate;
//!
//! let weigh = Weigh::new([1; GREATEST_ID], Box::new(alloc, |_: u16| -> u8 ensures { result ≡ 1 } { 1 })?);
//! let words = vec![in alloc; String::from_str(alloc, "session")?]?;
//! let mut source = MemSource::new(b"commit 1\nsettle\nfinale 2 /a\n".to_vec(alloc)?, Vec::new(alloc), 100);
//! let mut sink = MemSink::new(alloc, Vec::new(alloc), 100);
//! let mut folders = MemFolders::new(Vec::new(alloc), Vec::new(alloc));
//! let mut store = MemStore::new(alloc, Vec::new(alloc));
//! let filters = Vec::new(alloc);
//! let status = run(&rt, alloc, &words, &mut source, &mut sink, &mut folders, &mut store, &mut NoNotices, &NoGate, weigh, filters);
//! assert_eq!(rt; status.code(), 0);
//! let report = b"commit 1 generation 1\ndraw 1 0 3\ndraw 1 0 3\nopen 2 1 /a no-such\n";
//! assert_eq!(rt; sink.written(), report.as_slice());
//! ```
#![tactic(auto)]

mod big;
mod counts;
mod sessions;
mod top;

pub use history_merge::merge;
pub use shell_commands::{
    MOST_ASSEMBLED, MOST_OPENED, MOST_SCRIPT_BYTES, Status, limits_are_numbers, receptions,
    run_plain,
};
pub use top::{run, run_session};
