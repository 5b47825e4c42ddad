ghost use Rattle.std.specs.Prelude.{◌≡◌, None, false};

use crate::sink::{Sink, WriteFault};
use crate::source::{Failed, Source};
use std::io;
use std::io::{Error, ErrorKind};

/// How often one call is tried if signals interrupt it.
const TRIES: u32 = 17;

/// A reader of the system as a [`Source`]; what it has left isn't known.
///
/// Each error of the system counts as a fault. A read that a signal interrupts is repeated at most
/// 16 times.
#[derive(Drop)]
pub struct StdSource<R: Drop> {
    reader: R,
    faults: u64,
}

impl<R: io::Read + Drop> StdSource<R> {
    /// A source over this reader, without faults.
    pub fn new(reader: R) -> StdSource<R>
        ensures { result.faults ≡ 0 }
    {
        StdSource { reader, faults: 0 }
    }
}

impl<R: io::Read + Drop> Source for StdSource<R> {
    ghost left = { λ _. None };

    ghost faults = { λ s. s.faults };

    fn read(&mut self, into: &mut [u8]) -> Result<usize, Failed> {
        for _ in 0..TRIES {
            match self.reader.read(into) {
                Ok(n) => return Ok(n),
                Err(error) => {
                    self.faults = self.faults.saturating_add(1);
                    if !is_interrupted(&error) {
                        return Err(Failed);
                    }
                }
            }
        }
        Err(Failed)
    }

    fn faults(&self) -> u64 {
        self.faults
    }
}

/// A writer of the system as a [`Sink`]; what it was given isn't known.
///
/// Each error of the system counts as a fault, and so does a write that takes no byte. A write that
/// a signal interrupts is repeated at most 16 times.
#[derive(Drop)]
pub struct StdSink<W: Drop> {
    writer: W,
    faults: u64,
    has_failed: bool,
    is_late: bool,
}

impl<W: io::Write + Drop> StdSink<W> {
    /// A sink over this writer, without faults.
    pub fn new(writer: W) -> StdSink<W>
        ensures fresh { result.faults ≡ 0 }
        ensures unfailed { (result.has_failed ≡ false) × (result.is_late ≡ false) }
    {
        StdSink {
            writer,
            faults: 0,
            has_failed: false,
            is_late: false,
        }
    }
}

impl<W: io::Write + Drop> Sink for StdSink<W> {
    ghost written = { λ _. None };

    ghost faults = { λ s. s.faults };

    ghost failed = { λ s. s.has_failed };

    ghost late = { λ s. s.is_late };

    fn write(&mut self, from: &[u8]) -> Result<usize, WriteFault> {
        self.is_late = self.has_failed || self.is_late;
        for _ in 0..TRIES {
            match self.writer.write(from) {
                Ok(n) if n > 0 => return Ok(n),
                Ok(_) => {
                    self.faults = self.faults.saturating_add(1);
                    self.has_failed = true;
                    return Err(WriteFault::Failed);
                }
                Err(error) => {
                    self.faults = self.faults.saturating_add(1);
                    if !is_interrupted(&error) {
                        self.has_failed = true;
                        return Err(WriteFault::Failed);
                    }
                }
            }
        }
        self.has_failed = true;
        Err(WriteFault::Failed)
    }

    fn faults(&self) -> u64 {
        self.faults
    }
}

/// A signal came before the call did anything.
fn is_interrupted(error: &Error) -> bool {
    matches!(error.kind(), ErrorKind::Interrupted)
}
