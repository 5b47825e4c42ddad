//! Control messages: the DSI and the DII.
//!
//! - `dsi-encode CAROUSEL MODULE KEY`: the DSI whose gateway has this key of four bytes in this
//!   module, from 1 to 2,224.
//! - `dii-encode DOWNLOAD GENERATION GROUP COUNT`: the DII of a group in a generation, with so many
//!   modules from the group's first id on, each of 34 bytes in version 0.
//! - `control-decode BYTES`: the fields of a DSI or of a DII.
//! - `transaction-dii GENERATION GROUP`: the transactionId of the DII of a group in a generation,
//!   its version and its identification.
//! - `distance OLD NEW`: how far a version lies ahead of another.

ghost use Rattle.std.specs.Prelude.{◌≡◌, ◌≤◌, ◌<◌, false, IfOk};
ghost use Rattle.std.specs.List.{All};
ghost use Rattle.dsi_dii.specs.declared.TheConstants.{LAST_GENERATION};
ghost use Rattle.module_groups.specs.declared.TheConstants.{MOST_GROUPS};

use crate::references::{module_id, place_text, reference};
use crate::told::{Told, each, read};
use crate::words::array;
use dsi_dii::{
    BLOCK_SIZE, Control, Dii, Dsi, LAST_GENERATION, ModuleLine, TransactionId, decode, distance,
    encode_dii, encode_dsi,
};
use module_groups::{GROUP_SIZE, MOST_GROUPS};
use std::alloc::{AllocError, Global};
use test_rows::{Line, Row, RowFault};

pub(crate) fn call(alloc: Global, row: &Row<'_>) -> Option<Line> {
    match row.name() {
        "dsi-encode" => Some(dsi_encoded(alloc, row)),
        "dii-encode" => Some(dii_encoded(alloc, row)),
        "control-decode" => Some(decoded(alloc, row)),
        "transaction-dii" => Some(transaction(row)),
        "distance" => Some(ahead(row)),
        _ => None,
    }
}

fn dsi_encoded(alloc: Global, row: &Row<'_>) -> Line {
    let key = array(row, 2);
    let Ok(gateway) = reference(alloc, *b"srg\0", row.long(0), module_id(row, 1), key) else {
        return row.failed(RowFault::NoMemory);
    };
    let transaction = TransactionId::dsi();
    let dsi = Dsi {
        transaction,
        gateway,
    };
    row.line().outcome(encode_dsi(alloc, &dsi))
}

/// The generation's number at a place: one that a DII may have.
fn generation(row: &Row<'_>, place: usize) -> u64
    ensures { result ≤ LAST_GENERATION }
{
    let number = row.wide(place);
    if number <= LAST_GENERATION {
        return number;
    }
    row.fail(RowFault::BadRow);
    0
}

/// The number of a group at a place: one that a carousel may have.
fn group(row: &Row<'_>, place: usize) -> u16
    ensures { (1 ≤ result) × (result ≤ MOST_GROUPS) }
{
    let number = row.short(place);
    if (1..=MOST_GROUPS).contains(&number) {
        return number;
    }
    row.fail(RowFault::BadRow);
    1
}

/// The version at a place: one that a transactionId may have.
fn version(row: &Row<'_>, place: usize) -> u16
    ensures { result < 16384 }
{
    let number = row.short(place);
    if number < 16384 {
        return number;
    }
    row.fail(RowFault::BadRow);
    0
}

/// So many modules, numbered from the first id of a group on, each of 34 bytes.
fn modules(alloc: Global, group: u16, count: u16) -> Result<Vec<ModuleLine>, AllocError>
    requires { (1 ≤ group) × (group ≤ MOST_GROUPS) }
    ensures { IfOk result (λ v. All (λ l. l.compressed ≡ false) v.items) }
{
    let first = (group - 1) * GROUP_SIZE + 1;
    let mut lines = Vec::new(alloc);
    for i in 0..count {
        lines.push(ModuleLine {
            id: first.saturating_add(i),
            size: 34,
            version: 0,
            compressed: false,
        })?;
    }
    Ok(lines)
}

fn dii_encoded(alloc: Global, row: &Row<'_>) -> Line {
    let group = group(row, 2);
    let transaction = TransactionId::dii(generation(row, 1), group);
    let Ok(modules) = modules(alloc, group, row.short(3)) else {
        return row.failed(RowFault::NoMemory);
    };
    let dii = Dii {
        download: row.long(0),
        block_size: BLOCK_SIZE,
        transaction,
        modules,
    };
    row.line().outcome(encode_dii(alloc, &dii))
}

fn decoded(alloc: Global, row: &Row<'_>) -> Line {
    read(row.line(), decode(alloc, &row.octets(0)))
}

impl Told for Control {
    fn told(&self, line: Line) -> Line {
        match self {
            Control::Dsi(dsi) => dsi_text(line, dsi),
            Control::Dii(dii) => dii_text(line, dii),
        }
    }
}

fn dsi_text(line: Line, dsi: &Dsi) -> Line {
    let line = line
        .bytes("DSI ", &dsi.transaction.0.to_be_bytes())
        .text("; ");
    place_text(line, &dsi.gateway)
}

fn dii_text(line: Line, dii: &Dii) -> Line {
    let line = line
        .bytes("DII ", &dii.transaction.0.to_be_bytes())
        .value(", download ", &dii.download)
        .value(", block size ", &dii.block_size);
    each(line, "; ", &dii.modules)
}

impl Told for ModuleLine {
    fn told(&self, line: Line) -> Line {
        let form = if self.compressed {
            ", compressed"
        } else {
            ", plain"
        };
        line.value("module ", &self.id)
            .value(", ", &self.size)
            .value(" bytes, version ", &self.version)
            .text(form)
    }
}

fn transaction(row: &Row<'_>) -> Line {
    let transaction = TransactionId::dii(generation(row, 0), group(row, 1));
    row.line()
        .bytes("", &transaction.0.to_be_bytes())
        .value(", version ", &transaction.version())
        .value(", identification ", &transaction.identification())
}

fn ahead(row: &Row<'_>) -> Line {
    row.line()
        .value("", &distance(version(row, 0), version(row, 1)))
}
