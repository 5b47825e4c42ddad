//! DSM-CC sections.
//!
//! - `section-encode TABLE EXTENSION VERSION NUMBER LAST PAYLOAD`: the section with these fields,
//!   of the table `control` or `blocks`.
//! - `section-decode BYTES`: the fields of the section that the bytes are.
//! - `section-payload BYTES`: its table and its payload alone.
//! - `section-inverted CAUSE BYTES`: how many of the section's bits make it refused for this cause
//!   where one alone is inverted; where the cause is `none`, with how many it is still read.

ghost use Rattle.std.specs.Prelude.{◌<◌};

use crate::told::{Told, read};
use dsmcc_section::{EncodeFault, Section, SectionFault, Skip, Table, decode, encode, payload_of};
use std::alloc::Global;
use test_rows::{Line, Row, RowFault};

pub(crate) fn call(alloc: Global, row: &Row<'_>) -> Option<Line> {
    match row.name() {
        "section-encode" => Some(encoded(alloc, row)),
        "section-decode" => Some(decoded(alloc, row)),
        "section-payload" => Some(payload(row)),
        "section-inverted" => Some(inverted(row)),
        _ => None,
    }
}

fn encoded(alloc: Global, row: &Row<'_>) -> Line {
    let section = Section {
        table: table(row),
        extension: row.short(1),
        version: version(row),
        number: row.byte(3),
        last: row.byte(4),
        payload: row.octets(5),
    };
    row.line().outcome(encode(alloc, &section))
}

fn table(row: &Row<'_>) -> Table {
    match row.text(0) {
        "control" => Table::Control,
        "blocks" => Table::Blocks,
        _ => {
            row.fail(RowFault::BadRow);
            Table::Control
        }
    }
}

/// The version that a row says: one that a section may have.
fn version(row: &Row<'_>) -> u8
    ensures { result < 32 }
{
    let version = row.byte(2);
    if version < 32 {
        return version;
    }
    row.fail(RowFault::BadRow);
    0
}

fn name_of(table: Table) -> &'static str {
    match table {
        Table::Control => "control",
        Table::Blocks => "blocks",
    }
}

fn decoded(alloc: Global, row: &Row<'_>) -> Line {
    read(row.line(), decode(alloc, &row.octets(0)))
}

impl Told for Section {
    fn told(&self, line: Line) -> Line {
        line.text(name_of(self.table))
            .value(", extension ", &self.extension)
            .value(", version ", &self.version)
            .value(", section ", &self.number)
            .value(" of last ", &self.last)
            .bytes(", payload ", &self.payload)
    }
}

fn payload(row: &Row<'_>) -> Line {
    read(row.line(), payload_of(&row.octets(0)))
}

impl Told for (Table, &[u8]) {
    fn told(&self, line: Line) -> Line {
        line.text(name_of(self.0)).bytes(", payload ", self.1)
    }
}

fn inverted(row: &Row<'_>) -> Line {
    let cause = cause_of(row);
    let mut bytes = row.octets(1);
    row.line().value("", &inverted_in(&mut bytes, cause))
}

/// The cause that a word says, if it says one.
fn cause_of(row: &Row<'_>) -> Option<Skip> {
    match row.text(0) {
        "none" => None,
        "short" => Some(Skip::Short),
        "length" => Some(Skip::Length),
        "table" => Some(Skip::OtherTable),
        "syntax" => Some(Skip::NoSyntax),
        "current" => Some(Skip::NotCurrent),
        "crc" => Some(Skip::BadCrc),
        _ => {
            row.fail(RowFault::BadRow);
            None
        }
    }
}

/// With how many of the bits inverted, one at a time, the bytes are refused for this cause.
fn inverted_in(bytes: &mut [u8], cause: Option<Skip>) -> u32 {
    let mut count: u32 = 0;
    for place in 0..bytes.len() {
        count = count.saturating_add(inverted_at(bytes, place, cause));
    }
    count
}

/// With how many bits of the byte at a place inverted, one at a time, the bytes are refused for
/// this cause.
fn inverted_at(bytes: &mut [u8], place: usize, cause: Option<Skip>) -> u32 {
    let mut count: u32 = 0;
    for mask in [128, 64, 32, 16, 8, 4, 2, 1] {
        invert(bytes, place, mask);
        if payload_of(bytes).err() == cause {
            count = count.saturating_add(1);
        }
        invert(bytes, place, mask);
    }
    count
}

fn invert(bytes: &mut [u8], place: usize, mask: u8) {
    if let Some(byte) = bytes.get_mut(place) {
        *byte ^= mask;
    }
}
