//! The tables by which a carousel is found: read, written, sent and heard.

use crate::told::{Told, each, read};
use crate::words::array;
use psi_tables::{
    Announcer, Find, Finder, Pat, PatLine, Pmt, PmtLine, PsiFault, decode_pat, decode_pmt,
    written_pat, written_pmt,
};
use std::alloc::Global;
use test_rows::{Line, Row, RowFault};

/// What a row of this file answers.
pub(crate) fn call(alloc: Global, row: &Row<'_>) -> Option<Line> {
    match row.name() {
        "pat" => Some(read_pat(alloc, row)),
        "pmt" => Some(read_pmt(alloc, row)),
        "table-fault" => Some(fault(row)),
        "pat-written" => Some(row.line().outcome(written_pat(alloc))),
        "pmt-written" => Some(row.line().outcome(written_pmt(alloc, row.long(0)))),
        "tables-announced" => Some(announced(alloc, row)),
        "finder" => Some(found(alloc, row)),
        _ => None,
    }
}

/// `pat BYTES`: what is read of a section of the PAT, or its fault.
fn read_pat(alloc: Global, row: &Row<'_>) -> Line {
    read(row.line(), decode_pat(alloc, &row.octets(0)))
}

impl Told for Pat {
    fn told(&self, line: Line) -> Line {
        let line = line
            .value("stream ", &self.stream)
            .value(", version ", &self.version)
            .value(", section ", &self.number);
        each(line, "; ", &self.lines)
    }
}

impl Told for PatLine {
    fn told(&self, line: Line) -> Line {
        line.value("program ", &self.program)
            .value(" on ", &self.pid)
    }
}

/// `pmt BYTES`: what is read of a program's map table, or its fault.
fn read_pmt(alloc: Global, row: &Row<'_>) -> Line {
    read(row.line(), decode_pmt(alloc, &row.octets(0)))
}

impl Told for Pmt {
    fn told(&self, line: Line) -> Line {
        each(line.value("program ", &self.program), "; ", &self.lines)
    }
}

impl Told for PmtLine {
    fn told(&self, line: Line) -> Line {
        let line = line.value("carousels on ", &self.pid).text(":");
        each(line, " ", &self.carousels)
    }
}

impl Told for u32 {
    fn told(&self, line: Line) -> Line {
        line.value("", self)
    }
}

/// `table-fault PLACE`: the text of a fault at a place.
fn fault(row: &Row<'_>) -> Line {
    row.line().value("", &PsiFault::NotPsi(row.count(0)))
}

/// `tables-announced CAROUSEL`: the packets of the tables that are sent with a carousel.
fn announced(alloc: Global, row: &Row<'_>) -> Line {
    let mut packets = Vec::new(alloc);
    match Announcer::new(alloc, row.long(0)) {
        Ok(mut announcer) => row.keep(announcer.packets(&mut packets)),
        Err(_) => row.fail(RowFault::NoMemory),
    }
    each(row.line(), "; ", &packets).or("no packets")
}

/// `finder CAROUSEL PACKET..`: where the carousel is after each packet.
fn found(alloc: Global, row: &Row<'_>) -> Line {
    match Finder::new(alloc, row.long(0)) {
        Ok(mut finder) => found_by(row, &mut finder),
        Err(_) => row.failed(RowFault::NoMemory),
    }
}

fn found_by(row: &Row<'_>, finder: &mut Finder) -> Line {
    let mut line = row.line();
    for place in 1..row.len() {
        row.keep(finder.feed(&array(row, place)));
        line = find_text(line.between("; "), finder.find());
    }
    line
}

/// Puts where the carousel is behind what stands.
fn find_text(line: Line, find: Find) -> Line {
    match find {
        Find::NoPat => line.text("no PAT"),
        Find::NotNamed => line.text("not named"),
        Find::At(pid) => line.value("PID ", &pid),
    }
}
