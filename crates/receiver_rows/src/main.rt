//! Rows of calls on the parts of a receiver: a module out of its blocks, the modules of the DIIs that are held, answers to paths,
//! the receiver that is fed sections, and several carousels under names in one tree. The program writes what each call answers,
//! and the gate compares that.
#![tactic(auto)]

mod assembler;
mod cache;
mod mounts;
mod resolver;
mod told;
mod tuner;

use crate::assembler::AssemblerRows;
use crate::cache::CacheRows;
use crate::mounts::MountRows;
use crate::resolver::ShotRows;
use crate::tuner::TunerRows;
use std::alloc::Global;
use std::io;
use test_rows::{Calls, Line, Row, RowFault, answer_rows};

/// What the rows so far have made.
#[derive(Drop)]
struct Receiver {
    assembler: AssemblerRows,
    cache: CacheRows,
    shot: ShotRows,
    tuner: TunerRows,
    mounts: MountRows,
}

impl Calls for Receiver {
    fn call(&mut self, alloc: Global, row: &Row<'_>) -> Result<String, RowFault> {
        match self.answer(alloc, row) {
            Some(line) => line.done(),
            None => Err(RowFault::BadRow),
        }
    }
}

impl Receiver {
    /// Nothing has been made yet.
    fn new(alloc: Global) -> Receiver {
        Receiver {
            assembler: AssemblerRows::new(),
            cache: CacheRows::new(alloc),
            shot: ShotRows::new(alloc),
            tuner: TunerRows::new(alloc),
            mounts: MountRows::new(),
        }
    }

    /// The answer, where the row is a call of one of the parts.
    fn answer(&mut self, alloc: Global, row: &Row<'_>) -> Option<Line> {
        if let Some(line) = self.assembler.call(alloc, row) {
            return Some(line);
        }
        if let Some(line) = self.cache.call(alloc, row) {
            return Some(line);
        }
        if let Some(line) = self.shot.call(alloc, row) {
            return Some(line);
        }
        if let Some(line) = self.tuner.call(alloc, row) {
            return Some(line);
        }
        self.mounts.call(alloc, row)
    }
}

fn main(rt: HostRuntime) -> io::Result<()> {
    let mut receiver = Receiver::new(rt.alloc());
    answer_rows(&rt, &mut receiver)
}
