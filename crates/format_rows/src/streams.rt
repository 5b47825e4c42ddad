//! Sections cut out of packets, and packed into them.

ghost use Rattle.std.specs.Prelude.{◌≡◌, ◌<◌, true};
ghost use Rattle.section_stream.specs.Packing.{IsSectionLike};

use crate::spelling::spelled;
use crate::told::{Told, each};
use crate::words::array;
use carousel_profile::PACKET_LENGTH;
use oc_bytes::{MOST_SECTION, length_field};
use section_stream::{Counts, Demux, MOST_PIECE, Mux, PacketDemux};
use std::alloc::{AllocError, Global};
use test_rows::{Line, Row, RowFault};

/// What a row of this file answers.
pub(crate) fn call(alloc: Global, row: &Row<'_>) -> Option<Line> {
    match row.name() {
        "demux" => Some(fed(alloc, row, Feed::Packets)),
        "demux-pieces" => Some(fed(alloc, row, Feed::Pieces)),
        "demux-cuts" => Some(cuts(alloc, row)),
        "packet-demux" => Some(by_packet_demux(alloc, row)),
        "mux" => Some(packed(alloc, row)),
        _ => None,
    }
}

/// The PID that the first word of a row says.
fn pid(row: &Row<'_>) -> u16
    ensures { result < 8192 }
{
    let pid = row.short(0);
    if pid < 8192 {
        return pid;
    }
    row.fail(RowFault::BadRow);
    0
}

/// What a demultiplexer of the PID is fed.
#[derive(Clone, Copy, Drop)]
enum Feed {
    /// `demux PID PACKET..`: packets.
    Packets,
    /// `demux-pieces PID PIECE..`: pieces of any size; the word `short` counts a last piece that is
    /// no packet.
    Pieces,
    /// Pieces of a size out of the bytes that the second word says.
    Chunks(usize),
}

/// The sections that a demultiplexer gives, what it counts, and how many bytes it keeps.
fn fed(alloc: Global, row: &Row<'_>, feed: Feed) -> Line {
    match Demux::new(alloc, pid(row)) {
        Ok(mut demux) => told(row, &sections_of(alloc, row, feed, &mut demux), &demux),
        Err(_) => row.failed(RowFault::NoMemory),
    }
}

fn told(row: &Row<'_>, sections: &[Vec<u8>], demux: &Demux) -> Line {
    given(row, sections, &demux.counts(), demux.pending())
}

fn sections_of(alloc: Global, row: &Row<'_>, feed: Feed, demux: &mut Demux) -> Vec<Vec<u8>> {
    let mut sections = Vec::new(alloc);
    match feed {
        Feed::Packets => feed_packets(row, demux, &mut sections),
        Feed::Pieces => feed_pieces(row, demux, &mut sections),
        Feed::Chunks(size) => feed_chunks(row, size, demux, &mut sections),
    }
    sections
}

fn feed_packets(row: &Row<'_>, demux: &mut Demux, sections: &mut Vec<Vec<u8>>) {
    for place in 1..row.len() {
        feed_packet(row, demux, &array(row, place), sections);
    }
}

#[tactic(auto, using(std::proofs::lemmas::List::nil_from_length))]
fn feed_packet(
    row: &Row<'_>,
    demux: &mut Demux,
    packet: &[u8; PACKET_LENGTH],
    sections: &mut Vec<Vec<u8>>,
) {
    if demux.pending() != 0 {
        return row.fail(RowFault::BadRow);
    }
    take(row, demux.feed(packet), sections);
}

fn feed_pieces(row: &Row<'_>, demux: &mut Demux, sections: &mut Vec<Vec<u8>>) {
    for place in 1..row.len() {
        if row.text(place) == "short" {
            demux.short();
        } else {
            feed_piece(row, demux, &row.octets(place), sections);
        }
    }
}

fn feed_piece(row: &Row<'_>, demux: &mut Demux, piece: &[u8], sections: &mut Vec<Vec<u8>>) {
    if piece.len() > MOST_PIECE {
        return row.fail(RowFault::BadRow);
    }
    take(row, demux.feed_bytes(piece), sections);
}

fn feed_chunks(row: &Row<'_>, size: usize, demux: &mut Demux, sections: &mut Vec<Vec<u8>>) {
    if size == 0 {
        return row.fail(RowFault::BadRow);
    }
    for piece in row.octets(1).chunks(size) {
        feed_piece(row, demux, piece, sections);
    }
}

/// Puts sections behind the others.
fn take(row: &Row<'_>, given: Result<Vec<Vec<u8>>, AllocError>, sections: &mut Vec<Vec<u8>>) {
    match given {
        Ok(mut given) => row.keep(sections.append(&mut given)),
        Err(_) => row.fail(RowFault::NoMemory),
    }
}

/// `packet-demux PID PACKET..`: the same of a demultiplexer that is given packets alone.
fn by_packet_demux(alloc: Global, row: &Row<'_>) -> Line {
    match PacketDemux::new(alloc, pid(row)) {
        Ok(mut demux) => {
            let sections = of_packets(alloc, row, &mut demux);
            given(row, &sections, &demux.counts(), 0)
        }
        Err(_) => row.failed(RowFault::NoMemory),
    }
}

fn of_packets(alloc: Global, row: &Row<'_>, demux: &mut PacketDemux) -> Vec<Vec<u8>> {
    let mut sections = Vec::new(alloc);
    for place in 1..row.len() {
        take(row, demux.feed(&array(row, place)), &mut sections);
    }
    sections
}

/// `demux-cuts PID BYTES FIRST LAST`: the one answer of the bytes cut into pieces of each size from
/// FIRST to LAST, or the first size with another one.
fn cuts(alloc: Global, row: &Row<'_>) -> Line {
    let first = cut(alloc, row, row.count(2));
    for size in row.count(2)..=row.count(3) {
        let other = cut(alloc, row, size);
        if other != first {
            return row
                .line()
                .value("in pieces of ", &size)
                .text(": ")
                .text(other.as_str());
        }
    }
    row.line().text(first.as_str())
}

/// What a stream gives in pieces of a size.
fn cut(alloc: Global, row: &Row<'_>, size: usize) -> String {
    match fed(alloc, row, Feed::Chunks(size)).done() {
        Ok(text) => text,
        Err(fault) => {
            row.fail(fault);
            String::new(alloc)
        }
    }
}

/// Sections, what was counted beside them, and how many bytes are kept of an unfinished packet.
fn given(row: &Row<'_>, sections: &[Vec<u8>], counts: &Counts, pending: usize) -> Line {
    each(row.line(), "; ", sections)
        .or("no sections")
        .line("; ", counted(row.line(), counts))
        .value("; ", &pending)
        .text(" pending")
}

impl Told for Vec<u8> {
    fn told(&self, line: Line) -> Line {
        spelled(line, self)
    }
}

impl Told for [u8; 188] {
    fn told(&self, line: Line) -> Line {
        spelled(line, self)
    }
}

/// Puts the counts that aren't zero.
fn counted(line: Line, counts: &Counts) -> Line {
    sections_counted(
        payloads_counted(packets_counted(line, counts), counts),
        counts,
    )
}

/// Puts the counts of packets, and of those whose header isn't sound, behind what stands.
fn packets_counted(line: Line, counts: &Counts) -> Line {
    let line = count(line, counts.packets, "packets");
    let line = count(line, counts.no_sync, "no sync");
    let line = count(line, counts.errored, "errored");
    let line = count(line, counts.scrambled, "scrambled");
    count(line, counts.reserved, "reserved")
}

/// Puts the counts of packets whose payload isn't the next one of the PID behind what stands.
fn payloads_counted(line: Line, counts: &Counts) -> Line {
    let line = count(line, counts.bad_field, "bad field");
    let line = count(line, counts.other_pid, "other PID");
    let line = count(line, counts.no_payload, "no payload");
    let line = count(line, counts.duplicates, "duplicates");
    count(line, counts.jumps, "jumps")
}

/// Puts the counts of what is cut out of payloads and is no section behind what stands.
fn sections_counted(line: Line, counts: &Counts) -> Line {
    let line = count(line, counts.orphans, "orphans");
    let line = count(line, counts.bad_pointer, "bad pointer");
    let line = count(line, counts.cut, "cut");
    let line = count(line, counts.oversize, "oversize");
    count(line, counts.short_tail, "short tail")
}

/// Puts a count behind what stands, where it isn't zero.
fn count(line: Line, count: u64, name: &str) -> Line {
    match count {
        0 => line,
        _ => line.between(", ").value("", &count).text(" ").text(name),
    }
}

/// `mux PID SECTION..`: the packets of sections; the word `finish` ends a group of them.
fn packed(alloc: Global, row: &Row<'_>) -> Line {
    let mut mux = Mux::new(alloc, pid(row));
    let mut packets = Vec::new(alloc);
    for place in 1..row.len() {
        if row.text(place) == "finish" {
            row.keep(mux.finish(&mut packets));
        } else {
            pack(row, &mut mux, &row.octets(place), &mut packets);
        }
    }
    each(row.line(), "; ", &packets).or("no packets")
}

fn pack(row: &Row<'_>, mux: &mut Mux, section: &[u8], packets: &mut Vec<[u8; PACKET_LENGTH]>) {
    if !is_section(section) {
        return row.fail(RowFault::BadRow);
    }
    row.keep(mux.packets(section, packets));
}

/// Whether bytes are in a section's frame.
fn is_section(bytes: &[u8]) -> bool
    ensures { result ≡ true → IsSectionLike bytes.now }
{
    match bytes {
        [first, high, low, ..] => {
            bytes.len() >= 12
                && bytes.len() <= MOST_SECTION
                && length_field(*high, *low) + 3 == bytes.len()
                && *first != 0xFF
        }
        _ => false,
    }
}
