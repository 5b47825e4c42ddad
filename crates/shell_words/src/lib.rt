//! The words of commands, and the texts of answers, of refusals and of a report's lines. The rules
//! and texts are this project's own.
//!
//! ```
//! use path_resolver::Answer;
//! use shell_words::{Command, answered_text, command};
//!
//! let mut words = Vec::new(alloc);
//! for word in ["open", "256", "/news"] {
//!     words.push(String::from_str(alloc, word)?)?;
//! }
//! let Command::Open(pid, paths) = command(alloc, &words)? else { panic!("another command") };
//! assert_eq!(rt; (pid, paths.len()), (256, 1));
//! assert_eq!(rt; answered_text(alloc, &paths[0], &Answer::NotYet(5))?.as_str(), "/news not-yet 5\n");
//! ```
#![tactic(auto)]

mod complaints;
mod counting;
mod keyword;
mod limits;
mod parsing;
mod places;
mod report;
mod table;
mod texts;
mod values;
mod words;

pub use complaints::complaint_text;
pub use limits::limits_are_numbers;
pub use parsing::command;
pub use places::{Complaint, Slot, first_complaint};
pub use report::{
    commit_text, committed_text, draw_text, drawn_text, draws_full_text, open_text, opened_text,
    put_answer_tail, refused_text,
};
pub use table::MOST_MOUNT_NAME;
pub use texts::{answer_text, answered_text, refusal_text};
pub use values::MOST_WATCHED;
pub use words::{Command, WordsFault};
