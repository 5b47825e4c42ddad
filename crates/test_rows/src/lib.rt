//! Calls as rows of text, for the programs that show what the crates answer.
//!
//! A row is a call's name and its words, with a space between, and has one line of answer. A row that begins with `#`, and one
//! without a word, is written as it stands. A row `let NAME BYTES` gives bytes a name, and is written as it stands too.
//!
//! Bytes are a word: pieces with `+` between. A piece is hex digits, `-` for no bytes, `=TEXT` for the bytes of a text, or
//! `$NAME` for named bytes; after it may stand `@PLACE:BYTE`, any number of times, for another byte (two hex digits) at a
//! place, and last `*COUNT` for so many copies.
//!
//! An answer is a `Line`. Nothing is said of it by a clause, and its faults, as those of a row's words, are told at its end, so a
//! function that reads a row and writes a line has little to prove.
#![tactic(auto)]

mod bytes;
mod line;
mod row;
mod rows;

pub use bytes::{Named, hex_text};
pub use line::Line;
pub use row::{Row, RowFault};
pub use rows::{Calls, answer_rows};
