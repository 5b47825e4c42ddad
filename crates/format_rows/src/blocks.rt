//! Block messages, and how a module is cut into blocks.
//!
//! - `ddb-encode DOWNLOAD MODULE VERSION BLOCK BYTES`: the message of this block.
//! - `ddb-decode BYTES`: the fields of the message at the front of the bytes.
//! - `block-count SIZE BLOCKSIZE`: how many blocks a module has.
//! - `block-span SIZE BLOCKSIZE BLOCK`: how many bytes one of them has.

ghost use Rattle.std.specs.Prelude.{◌≤◌};

use crate::told::{Told, read};
use ddb_block::{Ddb, MOST_BLOCK_SIZE, block_count, block_span, decode, encode};
use std::alloc::Global;
use test_rows::{Line, Row, RowFault};

pub(crate) fn call(alloc: Global, row: &Row<'_>) -> Option<Line> {
    match row.name() {
        "ddb-encode" => Some(encoded(alloc, row)),
        "ddb-decode" => Some(decoded(alloc, row)),
        "block-count" => Some(count(row)),
        "block-span" => Some(span(row)),
        _ => None,
    }
}

fn encoded(alloc: Global, row: &Row<'_>) -> Line {
    let ddb = Ddb {
        download: row.long(0),
        module: row.short(1),
        version: row.byte(2),
        block: row.short(3),
        bytes: row.octets(4),
    };
    if ddb.bytes.len() > usize::from(MOST_BLOCK_SIZE) {
        return row.failed(RowFault::BadRow);
    }
    row.line().outcome(encode(alloc, &ddb))
}

fn decoded(alloc: Global, row: &Row<'_>) -> Line {
    read(row.line(), decode(alloc, &row.octets(0)))
}

impl Told for Ddb {
    fn told(&self, line: Line) -> Line {
        line.value("download ", &self.download)
            .value(", module ", &self.module)
            .value(", version ", &self.version)
            .value(", block ", &self.block)
            .bytes(", bytes ", &self.bytes)
    }
}

/// The block size that the row says: at least 1 byte.
fn block_size(row: &Row<'_>) -> u16
    ensures { 1 ≤ result }
{
    match row.short(1) {
        0 => {
            row.fail(RowFault::BadRow);
            1
        }
        size => size,
    }
}

fn count(row: &Row<'_>) -> Line {
    row.line()
        .value("", &block_count(row.long(0), block_size(row)))
}

fn span(row: &Row<'_>) -> Line {
    let (size, block_size, block) = (row.long(0), block_size(row), row.short(2));
    if u32::from(block) >= block_count(size, block_size) {
        return row.failed(RowFault::BadRow);
    }
    row.line().value("", &block_span(size, block_size, block))
}
