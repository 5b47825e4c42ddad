//! Scripts of sessions: lines, each of which says what an editor, a reader or the feeder does; and
//! the generated script of `big`. The language is this project's own; [`read_parts`] has its
//! grammar.
//!
//! ```
//! use session_script::{LineCause, ScriptFault, Stage, parse, read_parts};
//!
//! let text = b"put 7 /a 6869\ncommit 7\n# one cycle\nstart\ndraw 4\nsettle\nfinale 2 /a\n";
//! let parts = read_parts(alloc, text)?;
//! assert_eq!(rt; (parts.editors[0], parts.readers[0]), (7, 2));
//! assert_eq!(rt; (parts.before.len(), parts.during.len(), parts.finales.len()), (2, 1, 1));
//! assert_eq!(rt; parts.settle, Some(6));
//! // the same, as one list of lines
//! let script = parse(alloc, text)?;
//! assert_eq!(rt; script.lines.len(), 5);
//! assert_eq!(rt; (script.lines[1].number, script.lines[1].stage), (2, Stage::Before));
//! assert_eq!(rt; (script.lines[2].number, script.lines[2].stage), (5, Stage::During));
//! let fault = read_parts(alloc, b"commit 7\ncommit 65\n").err();
//! assert_eq!(rt; fault, Some(ScriptFault::BadLine(2, LineCause::BadNumber)));
//! ```
#![tactic(auto)]

mod generator;
mod line;
mod reading;
mod script;
mod words;

pub use generator::generated;
pub use reading::{parse, read_parts};
pub use script::{
    Action, Finale, Line, LineCause, Parts, Script, ScriptFault, Stage, Task, TaskLine,
};
pub use words::limits_are_numbers;
