//! Where objects are placed: their sizes, and the modules in which they were.

use crate::texts::{Told, each};
use cycle_planner::GREATEST_ID;
use module_packer::{need, place, place_fresh};
use std::alloc::{AllocError, Global};
use test_rows::{Line, Row, RowFault};

/// The answer, where the row is a call of the packer.
pub(crate) fn call(alloc: Global, row: &Row<'_>) -> Option<Line> {
    match row.name() {
        "need" => Some(needed(alloc, row)),
        "place-fresh" => Some(placed_fresh(alloc, row)),
        "place-kept" => Some(placed_kept(alloc, row)),
        "place-kept-high" => Some(placed_kept_high(alloc, row)),
        _ => None,
    }
}

/// The sizes that the words say.
fn sizes(alloc: Global, row: &Row<'_>) -> Vec<u32> {
    let mut sizes = Vec::new(alloc);
    for place in 0..row.len() {
        push_sizes(row, row.text(place), &mut sizes);
    }
    sizes
}

/// Puts the size that a word says behind the others, and so many of it where the word is
/// `SIZE*COUNT`.
fn push_sizes(row: &Row<'_>, word: &str, sizes: &mut Vec<u32>) {
    let (size, count) = match word.split_once('*') {
        Some(pair) => pair,
        None => (word, "1"),
    };
    let (Ok(size), Ok(count)) = (size.parse::<u32>(), count.parse::<u32>()) else {
        return row.fail(RowFault::BadRow);
    };
    for _ in 0..count {
        row.push(sizes, size);
    }
}

/// How many modules objects of these sizes take.
fn needed(alloc: Global, row: &Row<'_>) -> Line {
    let sizes = sizes(alloc, row);
    if sizes.is_empty() {
        return row.failed(RowFault::BadRow);
    }
    row.line().value("", &need(&sizes))
}

/// The modules of objects of these sizes.
fn placed_fresh(alloc: Global, row: &Row<'_>) -> Line {
    let sizes = sizes(alloc, row);
    if sizes.is_empty() || need(&sizes) > GREATEST_ID {
        return row.failed(RowFault::BadRow);
    }
    placed(row, place_fresh(alloc, &sizes))
}

/// The modules of objects that were in modules. The second one has grown, and is too large for its
/// old module with the first.
fn placed_kept(alloc: Global, row: &Row<'_>) -> Line {
    let grown = [
        (117, Some(1)),
        (65_500, Some(1)),
        (500, Some(2)),
        (65_537, Some(3)),
        (400, Some(2)),
    ];
    placed(row, place(alloc, &grown))
}

/// The modules of objects of which some were in the greatest ones. The last one has no room beside
/// the large one that was there, too.
fn placed_kept_high(alloc: Global, row: &Row<'_>) -> Line {
    let high = [
        (117, Some(1)),
        (65_537, Some(2_224)),
        (500, Some(2_223)),
        (65_537, None),
        (400, Some(2_224)),
    ];
    placed(row, place(alloc, &high))
}

/// The modules, or the last five of more.
fn placed(row: &Row<'_>, modules: Result<Vec<u16>, AllocError>) -> Line {
    match modules {
        Ok(modules) => each(row.line(), &modules[modules.len().saturating_sub(5)..]),
        Err(_) => row.failed(RowFault::NoMemory),
    }
}

impl Told for u16 {
    fn told(&self, line: Line) -> Line {
        line.value("", self)
    }
}
