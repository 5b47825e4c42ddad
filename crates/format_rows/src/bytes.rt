//! Fields that are written and read one by one, and bytes that are shared.
//!
//! - `writer STEP ..`: what a writer holds after the steps. A step is a number after its width, as
//!   `u16:515`, or bytes.
//! - `fields BYTES STEP ..`: what the steps answer, which read the bytes from the front on. A step
//!   is the name of a call, and after a colon its number, where it takes one.
//! - `blob BYTES`: the bytes as a second owner sees them.
//! - `write-fault NAME`: the text of a fault of writing.

use oc_bytes::{Blob, Cut, Fields, WriteFault, Writer};
use std::alloc::{AllocError, Global};
use std::fmt::Display;
use std::str::FromStr;
use test_rows::{Line, Row, RowFault};

pub(crate) fn call(alloc: Global, row: &Row<'_>) -> Option<Line> {
    match row.name() {
        "writer" => Some(written(alloc, row)),
        "fields" => Some(read(row)),
        "blob" => Some(shared(alloc, row)),
        "write-fault" => Some(fault(row)),
        _ => None,
    }
}

fn written(alloc: Global, row: &Row<'_>) -> Line {
    let mut writer = Writer::new(alloc);
    for place in 0..row.len() {
        row.keep(put_word(row, place, &mut writer));
    }
    row.line().bytes("", &writer.done())
}

/// Puts what the word at a place says.
fn put_word(row: &Row<'_>, place: usize, writer: &mut Writer) -> Result<(), AllocError> {
    match row.text(place).split_once(':') {
        Some((width, digits)) => put(row, writer, width, digits),
        None => writer.put_bytes(&row.octets(place)),
    }
}

/// Puts a number of this width.
fn put(row: &Row<'_>, writer: &mut Writer, width: &str, digits: &str) -> Result<(), AllocError> {
    match width {
        "u8" => writer.put_u8(number(row, digits)),
        "u16" => writer.put_u16(number(row, digits)),
        "u32" => writer.put_u32(number(row, digits)),
        "u64" => writer.put_u64(number(row, digits)),
        _ => {
            row.fail(RowFault::BadRow);
            Ok(())
        }
    }
}

/// The number that digits say, or 0.
fn number<N: FromStr + From<u8>>(row: &Row<'_>, digits: &str) -> N
where
    N::Err: Drop,
{
    match digits.parse::<N>() {
        Ok(number) => number,
        Err(_) => {
            row.fail(RowFault::BadRow);
            N::from(0)
        }
    }
}

fn read(row: &Row<'_>) -> Line {
    let bytes = row.octets(0);
    let mut fields = Fields::new(&bytes);
    let mut line = row.line();
    for place in 1..row.len() {
        line = step(row, line.between(", "), &mut fields, row.text(place));
    }
    line
}

/// Puts what a step finds behind what stands.
fn step(row: &Row<'_>, line: Line, fields: &mut Fields<'_>, word: &str) -> Line {
    match word.split_once(':') {
        Some((name, digits)) => asked(row, line, fields, name, digits),
        None => next(line, fields, word),
    }
}

/// Puts what a step without a number finds behind what stands.
fn next(line: Line, fields: &mut Fields<'_>, name: &str) -> Line {
    match name {
        "sized8" => bytes_found(line, fields.sized8()),
        "sized16" => bytes_found(line, fields.sized16()),
        "sized32" => bytes_found(line, fields.sized32()),
        "place" => line.value("", &fields.place()),
        "rest" => line.bytes("", fields.rest()),
        _ => next_number(line, fields, name),
    }
}

/// Puts a number of a width behind what stands.
fn next_number(line: Line, fields: &mut Fields<'_>, name: &str) -> Line {
    match name {
        "u8" => number_found(line, fields.u8()),
        "u16" => number_found(line, fields.u16()),
        "u24" => number_found(line, fields.u24()),
        "u32" => number_found(line, fields.u32()),
        "u64" => number_found(line, fields.u64()),
        _ => line.failed(RowFault::BadRow),
    }
}

/// Puts what a step with a number finds behind what stands.
fn asked(row: &Row<'_>, line: Line, fields: &mut Fields<'_>, name: &str, digits: &str) -> Line {
    match name {
        "take" => bytes_found(line, fields.take(count(row, digits))),
        "part" => part_found(line, fields.part(count(row, digits))),
        "this_u8" => this_found(line, fields.this_u8(number(row, digits))),
        "this_u16" => this_found(line, fields.this_u16(number(row, digits))),
        "this_u32" => this_found(line, fields.this_u32(number(row, digits))),
        "this_u64" => this_found(line, fields.this_u64(number(row, digits))),
        _ => line.failed(RowFault::BadRow),
    }
}

fn count(row: &Row<'_>, digits: &str) -> usize {
    number(row, digits)
}

/// Puts a number that was read, or why none was.
fn number_found<N: Display + Drop>(line: Line, found: Result<N, Cut>) -> Line {
    match found {
        Ok(number) => line.value("", &number),
        Err(cut) => line.value("", &cut),
    }
}

/// Puts bytes that were read, or why none were.
fn bytes_found(line: Line, found: Result<&[u8], Cut>) -> Line {
    match found {
        Ok(bytes) => line.bytes("", bytes),
        Err(cut) => line.value("", &cut),
    }
}

/// Puts whether the value was there that had to be.
fn this_found(line: Line, found: Result<(), Cut>) -> Line {
    match found {
        Ok(()) => line.text("this"),
        Err(cut) => line.value("", &cut),
    }
}

/// Puts the bytes and the place of a part that is read on its own, or why there is none.
fn part_found(line: Line, found: Result<Fields<'_>, Cut>) -> Line {
    match found {
        Ok(part) => line.bytes("", part.rest()).value(" from ", &part.place()),
        Err(cut) => line.value("", &cut),
    }
}

fn shared(alloc: Global, row: &Row<'_>) -> Line {
    let Ok(blob) = Blob::new(alloc, row.octets(0)) else {
        return row.failed(RowFault::NoMemory);
    };
    match blob.share() {
        Ok(other) => row.line().bytes("", other.bytes()),
        Err(_) => row.failed(RowFault::NoMemory),
    }
}

fn fault(row: &Row<'_>) -> Line {
    match row.text(0) {
        "failed" => row.line().value("", &WriteFault::Failed),
        "no-memory" => row.line().value("", &WriteFault::NoMemory),
        _ => row.failed(RowFault::BadRow),
    }
}
