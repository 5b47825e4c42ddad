//! The modules of the DIIs that are held.

use crate::told::{Told, each};
use ddb_block::{Ddb, Parts};
use dsi_dii::{Dii, ModuleLine, TransactionId};
use module_cache::{
    Cache, Slot, Taken, Tuned, fits_beside, is_apart, is_identification_held, is_within,
};
use std::alloc::{AllocError, Global};
use test_rows::{Line, Row, RowFault};

/// What is held of modules.
#[derive(Drop)]
pub(crate) struct CacheRows {
    cache: Cache,
}

impl CacheRows {
    /// Nothing is held.
    pub(crate) fn new(alloc: Global) -> CacheRows {
        CacheRows {
            cache: Cache::new(alloc),
        }
    }

    /// What the call of a row answers, where it is one of these.
    pub(crate) fn call(&mut self, alloc: Global, row: &Row<'_>) -> Option<Line> {
        match row.name() {
            "cache" => Some(self.begin(alloc, row)),
            "cache-turn" => Some(self.turn(alloc, row)),
            "cache-join" => Some(self.join(alloc, row)),
            "cache-fits" => Some(self.fits(alloc, row)),
            "cache-offer" => Some(self.offer(row)),
            "cache-offer-message" => Some(self.offer_message(row)),
            "cache-module" => Some(self.module(row)),
            "cache-held" => Some(self.told(row)),
            "is-within" => Some(within(alloc, row)),
            _ => None,
        }
    }

    /// Holds nothing from now on.
    fn begin(&mut self, alloc: Global, row: &Row<'_>) -> Line {
        self.cache = Cache::new(alloc);
        row.line().text("made")
    }

    /// The DIIs that are held.
    fn told(&self, row: &Row<'_>) -> Line {
        each(row.line(), "; ", self.cache.held()).or("no DII")
    }

    /// What is there of a module.
    fn module(&self, row: &Row<'_>) -> Line {
        slot_text(row.line(), self.cache.module(row.short(0)))
    }

    /// Turns to a DII, where it is within the limits, and keeps what is there or drops it.
    fn turn(&mut self, alloc: Global, row: &Row<'_>) -> Line {
        self.turn_to(row, &dii_of(alloc, row, 1))
    }

    fn turn_to(&mut self, row: &Row<'_>, dii: &Dii) -> Line {
        if !is_within(dii) {
            return within_text(row.line(), dii);
        }
        row.keep(self.cache.turn(dii, keeps(row)));
        self.told(row)
    }

    /// Joins a DII to those that are held, where it is within the limits and may join them.
    fn join(&mut self, alloc: Global, row: &Row<'_>) -> Line {
        self.join_dii(row, &dii_of(alloc, row, 0))
    }

    fn join_dii(&mut self, row: &Row<'_>, dii: &Dii) -> Line {
        if !is_within(dii) {
            return within_text(row.line(), dii);
        }
        if is_identification_held(self.cache.held(), dii) {
            return row.line().text("its identification is held");
        }
        if !is_apart(self.cache.held(), dii) {
            return row.line().text("a module of it is listed");
        }
        row.keep(self.cache.join(dii));
        self.told(row)
    }

    /// Whether a DII's modules and those of the DIIs that are held are few enough bytes.
    fn fits(&self, alloc: Global, row: &Row<'_>) -> Line {
        fits_text(row, fits_beside(self.cache.held(), &dii_of(alloc, row, 0)))
    }

    /// Offers a block whose bytes are lent.
    fn offer(&mut self, row: &Row<'_>) -> Line {
        let bytes = row.octets(4);
        let parts = Parts {
            download: row.long(0),
            module: row.short(1),
            version: row.byte(2),
            block: row.short(3),
            bytes: &bytes,
        };
        taken_text(row, self.cache.offer_parts(&parts))
    }

    /// Offers a block message.
    fn offer_message(&mut self, row: &Row<'_>) -> Line {
        let ddb = Ddb {
            download: row.long(0),
            module: row.short(1),
            version: row.byte(2),
            block: row.short(3),
            bytes: row.octets(4),
        };
        taken_text(row, self.cache.offer(&ddb))
    }
}

/// What became of a block.
fn taken_text(row: &Row<'_>, taken: Result<Taken, AllocError>) -> Line {
    match taken {
        Ok(taken) => row.line().value("", &taken),
        Err(_) => row.failed(RowFault::NoMemory),
    }
}

/// Whether what is held is kept at a turn.
fn keeps(row: &Row<'_>) -> bool {
    match row.text(0) {
        "keep" => true,
        "drop" => false,
        _ => {
            row.fail(RowFault::BadRow);
            false
        }
    }
}

/// What a DII says beside its modules.
#[derive(Clone, Copy, Drop)]
struct Head {
    version: u16,
    identification: u16,
    download: u32,
    block_size: u16,
}

/// The fields of `VERSION`, of `VERSION:IDENTIFICATION`, and so on with `:DOWNLOAD` and `:BLOCKSIZE`. The identification is else 1,
/// the downloadId 7 and the block size 4 bytes.
fn head_of(row: &Row<'_>, word: &str) -> Head {
    let mut fields = word.split(':');
    Head {
        version: field_16(row, fields.next(), ""),
        identification: field_16(row, fields.next(), "1"),
        download: field_32(row, fields.next(), "7"),
        block_size: field_16(row, fields.next(), "4"),
    }
}

/// The number of four bytes that a field says, or another text where there is no field.
fn field_32(row: &Row<'_>, field: Option<&str>, absent: &str) -> u32 {
    match field.unwrap_or(absent).parse::<u32>() {
        Ok(number) => number,
        Err(_) => {
            row.fail(RowFault::BadRow);
            0
        }
    }
}

/// The number of two bytes that a field says, or another text where there is no field.
fn field_16(row: &Row<'_>, field: Option<&str>, absent: &str) -> u16 {
    match field.unwrap_or(absent).parse::<u16>() {
        Ok(number) => number,
        Err(_) => {
            row.fail(RowFault::BadRow);
            0
        }
    }
}

/// The number of one byte that a field says.
fn field_8(row: &Row<'_>, field: Option<&str>) -> u8 {
    match field.unwrap_or("").parse::<u8>() {
        Ok(number) => number,
        Err(_) => {
            row.fail(RowFault::BadRow);
            0
        }
    }
}

/// The DII of the fields that the word at a place says, and of the modules that the words behind it say.
fn dii_of(alloc: Global, row: &Row<'_>, place: usize) -> Dii {
    let head = head_of(row, row.text(place));
    Dii {
        download: head.download,
        block_size: head.block_size,
        transaction: transaction_of(head.version, head.identification),
        modules: modules_of(alloc, row, place.saturating_add(1)),
    }
}

fn modules_of(alloc: Global, row: &Row<'_>, from: usize) -> Vec<ModuleLine> {
    let mut lines = Vec::new(alloc);
    for place in from..row.len() {
        row.push(&mut lines, line_of(row, row.text(place)));
    }
    lines
}

fn transaction_of(version: u16, identification: u16) -> TransactionId {
    let version = u32::from(version % 16384);
    let identification = u32::from(identification % 32768);
    TransactionId(0x8000_0000 + version * 65536 + identification * 2)
}

/// The module that `ID:SIZE:VERSION` says, or `ID:SIZE:VERSION:compressed`.
fn line_of(row: &Row<'_>, word: &str) -> ModuleLine {
    let mut fields = word.split(':');
    ModuleLine {
        id: field_16(row, fields.next(), ""),
        size: field_32(row, fields.next(), ""),
        version: field_8(row, fields.next()),
        compressed: is_compressed(row, fields.next()),
    }
}

/// Whether the last field of a module says that it is compressed.
fn is_compressed(row: &Row<'_>, field: Option<&str>) -> bool {
    match field {
        Some("compressed") => true,
        Some(_) => {
            row.fail(RowFault::BadRow);
            false
        }
        None => false,
    }
}

/// Puts what is there of a module behind what stands.
fn slot_text(line: Line, slot: Slot<'_>) -> Line {
    match slot {
        Slot::Unlisted => line.text("unlisted"),
        Slot::Compressed => line.text("compressed"),
        Slot::Partial => line.text("partial"),
        Slot::Whole(module) => line.value("whole ", &module.bytes().len()),
    }
}

/// A DII that is held.
impl Told for Tuned {
    fn told(&self, line: Line) -> Line {
        line.value("version ", &self.version())
            .value(", identification ", &self.identification())
            .value(", modules ", &self.lines().len())
    }
}

/// Whether the DII of a row is within the receiver's limits.
fn within(alloc: Global, row: &Row<'_>) -> Line {
    within_text(row.line(), &dii_of(alloc, row, 0))
}

/// Puts whether a DII is within the receiver's limits behind what stands.
fn within_text(line: Line, dii: &Dii) -> Line {
    match is_within(dii) {
        true => line.text("within the limits"),
        false => line.text("not within the limits"),
    }
}

fn fits_text(row: &Row<'_>, fits: bool) -> Line {
    match fits {
        true => row.line().text("fits beside them"),
        false => row.line().text("does not fit beside them"),
    }
}
