//! What a command has written when a call of an end stops it, by the size of the pieces.

use crate::failing::{End, HELLO, run};
use sample_sections::{DSI, NEXT_BLOCK, NEXT_DII};
use std::alloc::Global;
use std::test::Fail;

/// Appends a packet of PID 256 with a section from the front of its payload on, and stuffing.
fn put_packet(packets: &mut Vec<u8>, counter: u8, section: &[u8]) -> Result<(), Fail> {
    packets.extend_from_slice(&[0x47, 0x41, 0x00, 0x10 | counter % 16, 0x00])?;
    packets.extend_from_slice(section)?;
    for _ in section.len()..183 {
        packets.push(0xFF)?;
    }
    Ok(())
}

/// How a command with these sizes of a read and a write ends where this call of an end fails: its
/// exit status, how many bytes were written, and how many are where no call fails, of which they
/// are the first.
fn stopped(
    alloc: Global,
    line: &str,
    input: &[u8],
    pieces: (usize, usize),
    failing: (End, u64),
) -> Result<(u8, usize, usize), Fail> {
    let good = run(alloc, line, input, pieces, None)?;
    let ended = run(alloc, line, input, pieces, Some(failing))?;
    let (whole, written) = (good.sink.written(), ended.sink.written());
    if !whole.starts_with(written) {
        return Err(Fail::from("other bytes were written"));
    }
    Ok((ended.code, written.len(), whole.len()))
}

#[test]
fn calls_that_fail_stop_commands(rt: HostRuntime) -> Result<(), Fail> {
    let alloc = rt.alloc();
    let announced = run(alloc, "publish-psi F 1 1", b"", (1, 100), None)?;
    let packets = announced.sink.written();
    let script = b"put 1 /e -\ncommit 1\ndraw 3\n";
    let rows: [(&str, &[u8], (usize, usize), (End, u64), (u8, usize, usize)); 12] = [
        (
            "assemble 1 0 5 42",
            &HELLO,
            (20, 2),
            (End::Source, 1),
            (4, 0, 5),
        ),
        (
            "assemble 1 0 5 42",
            &HELLO,
            (20, 2),
            (End::Sink, 1),
            (5, 2, 5),
        ),
        ("find 1", packets, (300, 2), (End::Source, 1), (4, 0, 4)),
        ("find 1", packets, (300, 2), (End::Sink, 1), (5, 2, 4)),
        (
            "open-id 1 /",
            packets,
            (300, 2),
            (End::Source, 1),
            (4, 0, 13),
        ),
        ("open-id 1 /", packets, (300, 2), (End::Sink, 1), (5, 2, 13)),
        (
            "mounts x=256 /x",
            packets,
            (300, 2),
            (End::Source, 1),
            (4, 0, 14),
        ),
        (
            "mounts x=256 /x",
            packets,
            (300, 2),
            (End::Sink, 1),
            (5, 2, 14),
        ),
        (
            "publish F 1 1",
            b"",
            (1, 100),
            (End::Folders, 0),
            (6, 0, 564),
        ),
        (
            "publish F 1 1",
            b"",
            (1, 100),
            (End::Sink, 1),
            (5, 100, 564),
        ),
        ("rehearse", script, (20, 100), (End::Source, 1), (4, 0, 33)),
        (
            "rehearse",
            b"commit 1",
            (20, 1000),
            (End::Sink, 0),
            (5, 0, 22),
        ),
    ];
    for (line, input, pieces, failing, wanted) in rows {
        assert_eq!(rt;
            stopped(alloc, line, input, pieces, failing)?,
            wanted,
            "of {line}"
        );
    }
    Ok(())
}

/// A read that fails while sections are recorded: the one of 115 bytes in the packet before it is
/// written by then.
#[test]
fn a_read_that_fails_stops_recording(rt: HostRuntime) -> Result<(), Fail> {
    let alloc = rt.alloc();
    let mut packets = Vec::new(alloc);
    put_packet(&mut packets, 0, &DSI)?;
    put_packet(&mut packets, 1, &NEXT_DII)?;
    put_packet(&mut packets, 2, &NEXT_BLOCK)?;
    let ended = stopped(alloc, "record 256", &packets, (100, 50), (End::Source, 2))?;
    assert_eq!(rt; ended, (4, 115, 254));
    Ok(())
}
