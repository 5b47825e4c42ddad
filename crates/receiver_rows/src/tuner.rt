//! The receiver that is fed sections.

use crate::resolver::{answer_on, answer_text};
use crate::told::{Told, each};
use dsmcc_section::{EncodeFault, Section, Table, encode};
use ior_tap::Location;
use path_resolver::{Gateway, Held, Shot};
use std::alloc::Global;
use test_rows::{Line, Row, RowFault};
use tuner_core::{Cause, Fed, Taken, Tuner};

/// The receiver.
#[derive(Drop)]
pub(crate) struct TunerRows {
    tuner: Tuner,
}

impl TunerRows {
    /// A receiver that has heard nothing.
    pub(crate) fn new(alloc: Global) -> TunerRows {
        TunerRows {
            tuner: Tuner::new(alloc),
        }
    }

    /// What the call of a row answers, where it is one of these.
    pub(crate) fn call(&mut self, alloc: Global, row: &Row<'_>) -> Option<Line> {
        match row.name() {
            "tuner" => Some(self.begin(alloc, row)),
            "tuner-feed" => Some(self.feed_section(alloc, row)),
            "tuner-feed-bytes" => Some(self.feed_bytes(row)),
            "tuner-feed-versions" => Some(self.feed_versions(alloc, row)),
            "tuner-feed-in-turn" => Some(self.feed_in_turn(alloc, row)),
            "tuner-resolve" => Some(self.resolved(alloc, row)),
            "tuner-shot" => Some(self.shot(row)),
            "tuner-gateway" => Some(self.gateway(row)),
            "tuner-table" => Some(self.table(row)),
            _ => None,
        }
    }

    /// Has heard nothing from now on.
    fn begin(&mut self, alloc: Global, row: &Row<'_>) -> Line {
        self.tuner = Tuner::new(alloc);
        row.line().text("made")
    }

    /// Feeds the section of a message.
    fn feed_section(&mut self, alloc: Global, row: &Row<'_>) -> Line {
        self.feed(row, &section_of(alloc, row, table_of(row), row.octets(1)))
    }

    /// Feeds a candidate.
    fn feed_bytes(&mut self, row: &Row<'_>) -> Line {
        self.feed(row, &row.octets(0))
    }

    fn feed(&mut self, row: &Row<'_>, candidate: &[u8]) -> Line {
        match self.tuner.feed(candidate) {
            Ok(Fed::Changed) => row.line().text("changed"),
            Ok(Fed::Nothing(cause)) => row.line().value("", &cause),
            Err(_) => row.failed(RowFault::NoMemory),
        }
    }

    /// Feeds a candidate: whether it did this.
    fn does(&mut self, row: &Row<'_>, candidate: &[u8], what: Fed) -> bool {
        match self.tuner.feed(candidate) {
            Ok(fed) => fed == what,
            Err(_) => {
                row.fail(RowFault::NoMemory);
                false
            }
        }
    }

    /// Feeds a DII: 1 if it changed what is held, else 0.
    fn changes(&mut self, row: &Row<'_>, dii: &[u8]) -> u64 {
        u64::from(self.does(row, dii, Fed::Changed))
    }

    /// Feeds the block of a row: 1 if it was there already, else 0.
    fn again(&mut self, alloc: Global, row: &Row<'_>) -> u64 {
        let block = section_of(alloc, row, Table::Blocks, row.octets(3));
        u64::from(self.does(row, &block, Fed::Nothing(Cause::Block(Taken::Again))))
    }

    /// The counts and the DIIs of a shot.
    fn shot(&self, row: &Row<'_>) -> Line {
        match self.tuner.shot(row.wide(0), row.wide(1)) {
            Ok(shot) => shot_text(row.line(), &shot),
            Err(_) => row.failed(RowFault::NoMemory),
        }
    }

    /// The gateway of a shot.
    fn gateway(&self, row: &Row<'_>) -> Line {
        match self.tuner.shot(0, 0) {
            Ok(shot) => gateway_text(row.line(), &shot.gateway),
            Err(_) => row.failed(RowFault::NoMemory),
        }
    }

    /// The modules of a shot.
    fn table(&self, row: &Row<'_>) -> Line {
        match self.tuner.shot(0, 0) {
            Ok(shot) => table_text(row.line(), &shot.table),
            Err(_) => row.failed(RowFault::NoMemory),
        }
    }

    /// What the path of a row resolves to.
    fn resolved(&self, alloc: Global, row: &Row<'_>) -> Line {
        match self.tuner.shot(0, 0) {
            Ok(shot) => resolved_text(alloc, row, &shot),
            Err(_) => row.failed(RowFault::NoMemory),
        }
    }

    /// Feeds a DII of each version of 8 bits from one to another, with the block after each: how many DIIs changed what is held,
    /// and how many blocks were there already.
    fn feed_versions(&mut self, alloc: Global, row: &Row<'_>) -> Line {
        let mut turns = 0u64;
        let mut again = 0u64;
        for version in row.byte(0)..=row.byte(1) {
            turns = turns.saturating_add(self.changes(row, &dii_of(alloc, row, version)));
            again = again.saturating_add(self.again(alloc, row));
        }
        row.line()
            .value("", &turns)
            .value(" DIIs changed what is held, ", &again)
            .text(" blocks were there already")
    }

    /// Feeds DIIs one after another, so many times over: how many of them changed what is held.
    fn feed_in_turn(&mut self, alloc: Global, row: &Row<'_>) -> Line {
        let mut changes = 0u64;
        for _ in 0..row.wide(0) {
            changes = changes.saturating_add(self.feed_diis(alloc, row));
        }
        row.line()
            .value("", &changes)
            .text(" DIIs changed what is held")
    }

    /// Feeds the DIIs of a row: how many of them changed what is held.
    fn feed_diis(&mut self, alloc: Global, row: &Row<'_>) -> u64 {
        let mut changes = 0u64;
        for place in 1..row.len() {
            let dii = section_of(alloc, row, Table::Control, row.octets(place));
            changes = changes.saturating_add(self.changes(row, &dii));
        }
        changes
    }
}

/// The table that the first word of a row names.
fn table_of(row: &Row<'_>) -> Table {
    match row.text(0) {
        "control" => Table::Control,
        "blocks" => Table::Blocks,
        _ => {
            row.fail(RowFault::BadRow);
            Table::Control
        }
    }
}

/// The section of the DII that the third word of a row says, in a version of 8 bits.
fn dii_of(alloc: Global, row: &Row<'_>, version: u8) -> Vec<u8> {
    let mut message = row.octets(2);
    if let Some(byte) = message.get_mut(5) {
        *byte = version;
    }
    section_of(alloc, row, Table::Control, message)
}

/// The section of a message.
fn section_of(alloc: Global, row: &Row<'_>, table: Table, payload: Vec<u8>) -> Vec<u8> {
    let section = Section {
        table,
        extension: 0,
        version: 0,
        number: 0,
        last: 0,
        payload,
    };
    match encode(alloc, &section) {
        Ok(bytes) => bytes,
        Err(fault) => {
            row.fail(fault_of(fault));
            Vec::new(alloc)
        }
    }
}

/// The fault of a message for which there is no section.
fn fault_of(fault: EncodeFault) -> RowFault {
    match fault {
        EncodeFault::TooLong => RowFault::BadRow,
        EncodeFault::NoMemory => RowFault::NoMemory,
    }
}

/// What the path of a row resolves to on a shot.
fn resolved_text(alloc: Global, row: &Row<'_>, shot: &Shot) -> Line {
    match answer_on(alloc, row, shot, 0) {
        Ok(answer) => answer_text(row.line(), &answer),
        Err(fault) => row.failed(fault),
    }
}

/// Puts the counts and the DIIs of a shot behind what stands.
fn shot_text(line: Line, shot: &Shot) -> Line {
    diis_text(counts_text(line, shot), shot)
}

fn counts_text(line: Line, shot: &Shot) -> Line {
    line.value("number ", &shot.number)
        .value(", draws ", &shot.draws)
        .value(", mark ", &shot.mark)
        .value(", epoch ", &shot.epoch)
}

/// Puts the label, and the identifications of the DIIs that are held, behind what stands.
fn diis_text(line: Line, shot: &Shot) -> Line {
    match shot.label {
        Some(label) => each(
            line.value(", label ", &label).text(", held"),
            "",
            &shot.held,
        ),
        None => line.text(", no DII"),
    }
}

/// A DII that is held.
impl Told for u16 {
    fn told(&self, line: Line) -> Line {
        line.value(" ", self)
    }
}

/// Puts a gateway, if there is one, behind what stands.
fn gateway_text(line: Line, gateway: &Option<Gateway>) -> Line {
    match gateway {
        Some(gateway) => delivery_text(location_text(line, &gateway.location), gateway.delivery),
        None => line.text("no gateway"),
    }
}

/// Puts where a gateway lies behind what stands.
fn location_text(line: Line, location: &Location) -> Line {
    line.value("carousel ", &location.carousel)
        .value(", module ", &location.module)
        .bytes(", key ", location.key.bytes())
}

/// Puts what delivers a gateway behind what stands.
fn delivery_text(line: Line, delivery: Option<u32>) -> Line {
    match delivery {
        Some(transaction) => line.bytes(", delivery ", &transaction.to_be_bytes()),
        None => line.text(", delivery unknown"),
    }
}

/// Puts the modules of a shot behind what stands.
fn table_text(line: Line, table: &[Held]) -> Line {
    each(line.value("modules ", &table.len()), "", table)
}

/// A module as a shot holds it, with the identification of the DII that lists it.
impl Told for Held {
    fn told(&self, line: Line) -> Line {
        let line = line
            .value(", DII ", &self.identification)
            .value(" module ", &self.line.id);
        match &self.module {
            Some(module) => line.value(" whole ", &module.bytes().len()),
            None => line.text(" not whole"),
        }
    }
}
