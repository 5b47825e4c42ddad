//! Inputs that go on after a command's limit.

use crate::failing::{HELLO, run_once, words};
use carousel_profile::PACKET_LENGTH;
use folder_store::{MemFolders, MemStore};
use oc_bytes::{Failed, MemSink, Source};
use std::alloc::Global;
use std::test::Fail;

/// The same bytes again and again, made up as they are read. What is left isn't told.
#[derive(Drop)]
struct Repeated<'u> {
    unit: &'u [u8],
    at: usize,
    left: usize,
}

impl Source for Repeated<'_> {
    ghost use Rattle.std.specs.Prelude.{None};

    ghost left = { λ s. None };

    ghost faults = { λ s. 0 };

    fn read(&mut self, into: &mut [u8]) -> Result<usize, Failed> {
        if self.at >= self.unit.len() {
            self.at = 0;
        }
        let n = (self.unit.len() - self.at).min(into.len()).min(self.left);
        into[..n].copy_from_slice(&self.unit[self.at..self.at + n]);
        self.at += n;
        self.left -= n;
        Ok(n)
    }

    fn faults(&self) -> u64 {
        0
    }
}

/// These bytes so often.
fn many_of(alloc: Global, unit: &[u8], times: u32) -> Result<Vec<u8>, Fail> {
    let mut bytes = Vec::new(alloc);
    for _ in 0..times {
        bytes.extend_from_slice(unit)?;
    }
    Ok(bytes)
}

/// The status of a command on so many bytes of a unit that is repeated.
fn code(alloc: Global, line: &str, unit: &[u8], left: usize) -> Result<u8, Fail> {
    let words = words(alloc, line)?;
    let mut source = Repeated { unit, at: 0, left };
    let mut sink = MemSink::new(alloc, Vec::new(alloc), 65_536);
    let mut folders = MemFolders::new(Vec::new(alloc), Vec::new(alloc));
    let mut store = MemStore::new(alloc, Vec::new(alloc));
    let status = run_once(
        alloc,
        &words,
        &mut source,
        &mut sink,
        &mut folders,
        &mut store,
    )?;
    Ok(status.code())
}

#[test]
fn inputs_that_go_on_are_too_long(rt: HostRuntime) -> Result<(), Fail> {
    let alloc = rt.alloc();
    // A packet of stuffing, and a section of twelve bytes that doesn't read.
    let mut packet = [0xFF; PACKET_LENGTH];
    packet[0] = 0x47;
    packet[1] = 0x1F;
    packet[3] = 0x10;
    let section = [0x3C, 0xB0, 9, 0, 0, 0, 0, 0, 0, 0, 0, 0];
    let packets = many_of(alloc, &packet, 256)?;
    let sections = many_of(alloc, &section, 4096)?;
    let lines = many_of(alloc, b"\n", 65_536)?;
    // The most that each takes ends as the second number says; a byte more is too long.
    let rows: [(&str, &[u8], usize, u8); 4] = [
        ("list 256", &packets, 16_777_216 * 188, 1),
        ("open sections /", &sections, 16_777_216 * 12, 1),
        ("assemble 1 0 5 42", &HELLO, 65_536 * 35, 0),
        ("rehearse", &lines, 16_777_216, 0),
    ];
    for (line, unit, most, good) in rows {
        assert_eq!(rt; code(alloc, line, unit, most)?, good, "{line}");
        assert_eq!(rt; code(alloc, line, unit, most + 1)?, 8, "{line}");
    }
    Ok(())
}
