ghost use Rattle.std.specs.Prelude.{◌≡◌, ◌≤◌, [], length, OnOk};
ghost use Rattle.oc_bytes.specs.Outcome.{MakesList};
ghost use Rattle.shell_streams.specs.Sending.{Puts};

use oc_bytes::{NoMemory, Sink, WriteFault, write_all};
use std::alloc::{AllocError, Global};
use thiserror::Error;

/// The most bytes that are pending.
pub const MOST_PENDING: usize = 65_536;

/// Why output wasn't taken.
#[derive(Clone, Copy, Debug, PartialEq, Eq, Error)]
pub enum OutputFault {
    /// The sink failed.
    #[error("the write failed")]
    Failed,
    /// There is no memory.
    #[error("out of memory")]
    NoMemory,
}

impl From<WriteFault> for OutputFault {
    ghost use Rattle.shell_streams.specs.Sending.{output_fault};

    ghost from_gives = { λ fault f. f ≡ output_fault fault };

    fn from(fault: WriteFault) -> OutputFault {
        match fault {
            WriteFault::Failed => OutputFault::Failed,
            WriteFault::NoMemory => OutputFault::NoMemory,
        }
    }
}

impl From<AllocError> for OutputFault {
    ghost use Rattle.shell_streams.specs.declared.output.OutputFault.TheVariants as faults;

    ghost from_gives = { λ _ f. f ≡ faults.NoMemory };

    fn from(_e: AllocError) -> OutputFault {
        OutputFault::NoMemory
    }
}

/// Where output goes: what is put is written in large pieces, and what isn't written yet is
/// pending. No call tries a write after one that failed, where none had failed before. This trait
/// is this project's own.
pub trait Output {
    ghost use Rattle.shell_streams.specs.Sending.{OutputState};

    /// The sink, and what is pending.
    ghost state: { Self → OutputState };

    /// Puts more bytes after what is pending.
    fn put(&mut self, more: &[u8]) -> Result<(), OutputFault>
        ensures puts { Puts result (state self.old) (state self.new) more.now }
        ensures few { OnOk result (length (state self.new).pending ≤ MOST_PENDING) };

    /// Writes what is pending.
    fn flush(&mut self) -> Result<(), OutputFault>
        ensures puts { Puts result (state self.old) (state self.new) [] }
        ensures empty { OnOk result ((state self.new).pending ≡ []) };
}

/// Room for what is pending.
pub fn room(alloc: Global) -> Result<Vec<u8>, NoMemory>
    ensures { MakesList result [] }
{
    Ok(Vec::with_capacity(alloc, MOST_PENDING)?)
}

/// Output on its way to a sink, in pieces of up to [`MOST_PENDING`] bytes or of one put.
#[derive(Drop)]
pub struct Buffered<'a, K: Sink> {
    sink: &'a mut K,
    pending: &'a mut Vec<u8>,
}

impl<'a, K: Sink> Buffered<'a, K> {
    /// Output to the sink, of which nothing is pending; the room is empty.
    pub fn new(sink: &'a mut K, room: &'a mut Vec<u8>) -> Buffered<'a, K>
        requires { room.old.items ≡ [] }
        ensures same { result.sink.ghost_name ≡ sink.entry.ghost_name }
        ensures now { result.sink.now ≡ sink.old }
        ensures pending { result.pending.now.items ≡ [] }
    {
        Buffered {
            sink,
            pending: room,
        }
    }
}

impl<K: Sink> Output for Buffered<'_, K> {
    ghost state = { λ o.
        record {
          name = o.sink.ghost_name;
          written = K.written o.sink.now;
          faults = K.faults o.sink.now;
          failed = K.failed o.sink.now;
          late = K.late o.sink.now;
          pending =
              o.pending.now.items;
        } };

    fn put(&mut self, more: &[u8]) -> Result<(), OutputFault> {
        let used = self.pending.len();
        if used <= MOST_PENDING && more.len() <= MOST_PENDING - used {
            self.pending.extend_from_slice(more)?;
            return Ok(());
        }
        self.flush()?;
        if more.len() <= MOST_PENDING {
            self.pending.extend_from_slice(more)?;
            return Ok(());
        }
        Ok(write_all(self.sink, more)?)
    }

    fn flush(&mut self) -> Result<(), OutputFault> {
        write_all(self.sink, self.pending)?;
        self.pending.clear();
        Ok(())
    }
}
