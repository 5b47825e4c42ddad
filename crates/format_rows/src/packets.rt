//! Transport packets: read, built, and on their way.

use crate::spelling::spelled;
use crate::told::{Told, read};
use crate::words::array;
use carousel_profile::PACKET_LENGTH;
use test_rows::{Line, Row, RowFault};
use ts_packet::{Fate, Packet, build, parse};

/// What a row of this file answers.
pub(crate) fn call(row: &Row<'_>) -> Option<Line> {
    match row.name() {
        "packet" => Some(parsed(row)),
        "packet-payload" => Some(payloads(row)),
        "packet-built" => Some(built(row)),
        "packet-fate" => Some(arrived(row)),
        _ => None,
    }
}

/// `packet BYTES`: the packet's fields, or its fault.
fn parsed(row: &Row<'_>) -> Line {
    read(row.line(), parse(&array(row, 0)))
}

impl Told for Packet<'_> {
    fn told(&self, line: Line) -> Line {
        let start = if self.start { ", start" } else { "" };
        line.value("PID ", &self.pid)
            .text(start)
            .value(", counter ", &self.counter)
            .value(", payload of ", &self.payload.len())
    }
}

/// `packet-payload BYTES..`: the length of each packet's payload, or its fault.
fn payloads(row: &Row<'_>) -> Line {
    let mut line = row.line();
    for place in 0..row.len() {
        line = payload_text(line.between("; "), &array(row, place));
    }
    line
}

/// Puts the length of a packet's payload behind what stands.
fn payload_text(line: Line, packet: &[u8; PACKET_LENGTH]) -> Line {
    match parse(packet) {
        Ok(packet) => line.value("", &packet.payload.len()),
        Err(fault) => line.value("", &fault),
    }
}

/// `packet-built PID START COUNTER PAYLOAD`: the bytes of the packet; START is `start` or `-`.
fn built(row: &Row<'_>) -> Line {
    let (pid, start, counter) = (row.short(0), starts(row), row.byte(2));
    if pid >= 8192 || counter >= 16 {
        return row.failed(RowFault::BadRow);
    }
    spelled(row.line(), &build(pid, start, counter, &array(row, 3)))
}

/// Whether a section starts in the packet.
fn starts(row: &Row<'_>) -> bool {
    match row.text(1) {
        "start" => true,
        "-" => false,
        _ => {
            row.fail(RowFault::BadRow);
            false
        }
    }
}

/// `packet-fate BYTES FATE`: what arrives of a packet that is kept, lost, or has the bit of a
/// number inverted: each byte that is another one, as a row's change of bytes.
fn arrived(row: &Row<'_>) -> Line {
    let packet = array(row, 0);
    match fate(row).arrived(&packet) {
        Some(bytes) => changes(row.line(), &packet, &bytes),
        None => row.line().text("lost"),
    }
}

fn fate(row: &Row<'_>) -> Fate {
    match row.text(1) {
        "keep" => Fate::Keep,
        "lose" => Fate::Lose,
        _ => Fate::Flip(row.short(1)),
    }
}

/// Puts the bytes that aren't as they were.
fn changes(mut line: Line, before: &[u8; PACKET_LENGTH], after: &[u8; PACKET_LENGTH]) -> Line {
    for (place, (old, new)) in before.iter().zip(after).enumerate() {
        line = change(line, place, *old, *new);
    }
    line.or("unchanged")
}

/// Puts a byte that isn't as it was behind what stands.
fn change(line: Line, place: usize, old: u8, new: u8) -> Line {
    if old == new {
        return line;
    }
    line.value("@", &place).bytes(":", &[new])
}
