//! A module out of its blocks.

use block_assembler::{Assembler, Offer};
use ddb_block::block_count;
use std::alloc::Global;
use test_rows::{Line, Row, RowFault};

/// The module that comes block by block, where a row has made one.
#[derive(Drop)]
pub(crate) struct AssemblerRows {
    module: Option<Assembler>,
}

impl AssemblerRows {
    /// No module.
    pub(crate) fn new() -> AssemblerRows {
        AssemblerRows { module: None }
    }

    /// What the call of a row answers, where it is one of these.
    pub(crate) fn call(&mut self, alloc: Global, row: &Row<'_>) -> Option<Line> {
        match row.name() {
            "assembler" => Some(self.make(alloc, row)),
            "offer" => Some(self.offer(row)),
            "whole" => Some(self.whole(row)),
            "finish" => Some(self.finish(row)),
            "finish-and-refill" => Some(self.finish_and_refill(row)),
            "forget-at-once" => Some(self.forget_at_once(alloc, row)),
            _ => None,
        }
    }

    /// Makes an assembler of a module of so many bytes in blocks of so many bytes.
    fn make(&mut self, alloc: Global, row: &Row<'_>) -> Line {
        match Assembler::new(alloc, row.long(0), row.short(1)) {
            Ok(module) => {
                self.module = Some(module);
                row.line().text("made")
            }
            Err(fault) => row.line().value("", &fault),
        }
    }

    /// Makes an assembler, and forgets a block of it, of which none has come.
    fn forget_at_once(&mut self, alloc: Global, row: &Row<'_>) -> Line {
        let (size, block_size, block) = (row.long(0), row.short(1), row.short(2));
        match Assembler::new(alloc, size, block_size) {
            Ok(mut module) => {
                if u32::from(block) < block_count(size, block_size) {
                    module.forget(block);
                }
                self.keep(row.line(), module)
            }
            Err(fault) => row.line().value("", &fault),
        }
    }

    /// Offers a block: what became of it, and which block is missing then.
    fn offer(&mut self, row: &Row<'_>) -> Line {
        match &mut self.module {
            Some(module) => {
                let offer = module.offer(row.short(0), &row.octets(1));
                missing_text(row.line().text(offer_word(offer)).text(", "), module)
            }
            None => row.failed(RowFault::BadRow),
        }
    }

    /// The module's bytes, where it is whole.
    fn whole(&self, row: &Row<'_>) -> Line {
        match &self.module {
            Some(module) => whole_text(row.line(), module),
            None => row.failed(RowFault::BadRow),
        }
    }

    /// Gives the module's bytes away, where it is whole.
    fn finish(&mut self, row: &Row<'_>) -> Line {
        let Some(module) = self.module.take() else {
            return row.failed(RowFault::BadRow);
        };
        match module.finish() {
            Ok((bytes, _left)) => row.line().bytes("", &bytes),
            Err(module) => self.keep(row.line(), module),
        }
    }

    /// Gives the module's bytes away, and makes the module again with them: the bytes, and which block is missing then.
    fn finish_and_refill(&mut self, row: &Row<'_>) -> Line {
        let Some(module) = self.module.take() else {
            return row.failed(RowFault::BadRow);
        };
        match module.finish() {
            Ok((bytes, left)) => {
                let given = row.line().bytes("", &bytes).text(", ");
                self.keep(given, left.refill(bytes))
            }
            Err(module) => self.keep(row.line(), module),
        }
    }

    /// Holds a module from now on, and puts which block is missing behind what stands.
    fn keep(&mut self, line: Line, module: Assembler) -> Line {
        let line = missing_text(line, &module);
        self.module = Some(module);
        line
    }
}

/// Puts the module's bytes, where it is whole, behind what stands.
fn whole_text(line: Line, module: &Assembler) -> Line {
    match module.whole() {
        Some(bytes) => line.bytes("", bytes),
        None => missing_text(line, module),
    }
}

/// What became of a block that was offered.
fn offer_word(offer: Offer) -> &'static str {
    match offer {
        Offer::WrongPlace => "wrong place",
        Offer::WrongLength => "wrong length",
        Offer::Again => "again",
        Offer::New => "new",
    }
}

/// Puts which block is missing behind what stands.
fn missing_text(line: Line, module: &Assembler) -> Line {
    match module.first_missing() {
        Some(block) => line.value("block ", &block).text(" is missing"),
        None => line.text("no block is missing"),
    }
}
