//! What the crates of the wire formats answer. A row is a call's name and its words; the answer
//! stands in its place.
#![tactic(auto)]

mod blocks;
mod bytes;
mod control;
mod crc;
mod objects;
mod packets;
mod paths;
mod references;
mod sections;
mod spelling;
mod streams;
mod tables;
mod told;
mod words;

use path_tree::Tree;
use std::alloc::Global;
use std::io;
use test_rows::{Calls, Line, Row, RowFault, answer_rows};

/// The calls of the formats, crate by crate, and the tree that edits change from row to row.
#[derive(Drop)]
struct Formats {
    tree: Tree,
}

impl Calls for Formats {
    fn call(&mut self, alloc: Global, row: &Row<'_>) -> Result<String, RowFault> {
        match self.answer(alloc, row) {
            Some(line) => line.done(),
            None => Err(RowFault::BadRow),
        }
    }
}

impl Formats {
    fn answer(&mut self, alloc: Global, row: &Row<'_>) -> Option<Line> {
        if let Some(line) = messages(alloc, row) {
            return Some(line);
        }
        if let Some(line) = paths::call(alloc, row, &mut self.tree) {
            return Some(line);
        }
        carried(alloc, row)
    }
}

/// The answer, where the row is a call on bytes, a CRC, a section or a message in one.
fn messages(alloc: Global, row: &Row<'_>) -> Option<Line> {
    if let Some(line) = bytes::call(alloc, row) {
        return Some(line);
    }
    if let Some(line) = crc::call(row) {
        return Some(line);
    }
    if let Some(line) = sections::call(alloc, row) {
        return Some(line);
    }
    if let Some(line) = blocks::call(alloc, row) {
        return Some(line);
    }
    if let Some(line) = references::call(alloc, row) {
        return Some(line);
    }
    control::call(alloc, row)
}

/// The answer, where the row is a call on objects, or on packets and what is cut out of them.
fn carried(alloc: Global, row: &Row<'_>) -> Option<Line> {
    if let Some(line) = objects::call(alloc, row) {
        return Some(line);
    }
    if let Some(line) = packets::call(row) {
        return Some(line);
    }
    if let Some(line) = streams::call(alloc, row) {
        return Some(line);
    }
    tables::call(alloc, row)
}

fn main(rt: HostRuntime) -> io::Result<()> {
    let mut formats = Formats {
        tree: Tree::empty(rt.alloc()),
    };
    answer_rows(&rt, &mut formats)
}
