//! What the crates of the broadcaster answer. A row is a call's name and its words; the answer
//! stands in its place. What a row makes anew (`generation-new`, `journal-new`, `folders`), the
//! rows behind it are calls on; a catalogue and a world are rows of their own.
#![tactic(auto)]

mod catalogue;
mod cycle;
mod folders;
mod generations;
mod journals;
mod packer;
mod texts;
mod weights;
mod words;
mod world;

use crate::folders::Standing;
use crate::generations::Generations;
use crate::journals::Journals;
use std::alloc::Global;
use std::io;
use test_rows::{Calls, Line, Row, RowFault, answer_rows};

/// What the rows made last, for the calls behind them.
#[derive(Drop)]
struct Broadcaster<'a> {
    generations: Generations,
    journals: Journals,
    folders: Standing<'a>,
}

impl<'a> Calls for Broadcaster<'a> {
    fn call(&mut self, alloc: Global, row: &Row<'_>) -> Result<String, RowFault> {
        match self.answer(alloc, row) {
            Some(line) => line.done(),
            None => Err(RowFault::BadRow),
        }
    }
}

impl<'a> Broadcaster<'a> {
    fn answer(&mut self, alloc: Global, row: &Row<'_>) -> Option<Line> {
        if let Some(line) = packer::call(alloc, row) {
            return Some(line);
        }
        if let Some(line) = catalogue::call(alloc, row) {
            return Some(line);
        }
        if let Some(line) = self.answer_on_what_stands(alloc, row) {
            return Some(line);
        }
        self.folders.call(alloc, row)
    }

    /// The answer, where the row is a call on a generation or a history, or one under weights.
    fn answer_on_what_stands(&mut self, alloc: Global, row: &Row<'_>) -> Option<Line> {
        if let Some(line) = self.generations.call(alloc, row) {
            return Some(line);
        }
        if let Some(line) = self.journals.call(alloc, row) {
            return Some(line);
        }
        weights::call(alloc, row, &self.generations)
    }
}

fn main(rt: HostRuntime) -> io::Result<()> {
    let mut broadcaster = Broadcaster {
        generations: Generations::new(),
        journals: Journals::new(),
        folders: Standing::new(&rt),
    };
    answer_rows(&rt, &mut broadcaster)
}
