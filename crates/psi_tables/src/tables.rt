ghost use Rattle.std.specs.Prelude.{◌≡◌};

use oc_bytes::Cut;
use std::alloc::AllocError;
use thiserror::Error;

/// A program, and where its map table is sent.
#[derive(Clone, Copy, Debug, PartialEq, Eq)]
pub struct PatLine {
    /// program_number; program 0 gives the PID of the network's information.
    pub program: u16,
    /// The map table's PID, 0 to 8,191.
    pub pid: u16,
}

/// A section of the program association table.
#[derive(Debug, Drop)]
pub struct Pat {
    /// transport_stream_id.
    pub stream: u16,
    /// version_number, 0 to 31.
    pub version: u8,
    /// section_number: which part of the table this is.
    pub number: u8,
    /// At most 253 lines, in order.
    pub lines: Vec<PatLine>,
}

/// A stream of type 0x0B: DSM-CC messages (ISO/IEC 13818-6).
#[derive(Debug, Drop)]
pub struct PmtLine {
    /// The stream's PID, 0 to 8,191.
    pub pid: u16,
    /// The ids in its carousel identifier descriptors, in order.
    pub carousels: Vec<u32>,
}

/// The map table of a program.
#[derive(Debug, Drop)]
pub struct Pmt {
    /// program_number.
    pub program: u16,
    /// The streams of type 0x0B, in order; no others.
    pub lines: Vec<PmtLine>,
}

/// Why reading gave no table.
#[derive(Clone, Copy, Debug, PartialEq, Eq, Error)]
pub enum PsiFault {
    /// The place, in bytes, of the first field that is cut or breaks its rule.
    #[error("no section of the table: the field at byte {0} is cut or breaks a rule")]
    NotPsi(usize),
    /// There is no memory.
    #[error("out of memory")]
    NoMemory,
}

impl From<Cut> for PsiFault {
    ghost use Rattle.psi_tables.specs.declared.tables.PsiFault.TheVariants.{NotPsi};

    ghost from_gives = { λ cut e. e ≡ NotPsi cut.0 };

    fn from(Cut(place): Cut) -> PsiFault {
        PsiFault::NotPsi(place)
    }
}

impl From<AllocError> for PsiFault {
    ghost use Rattle.psi_tables.specs.declared.tables.PsiFault.TheVariants.{NoMemory};

    ghost from_gives = { λ _ e. e ≡ NoMemory };

    fn from(_error: AllocError) -> PsiFault {
        PsiFault::NoMemory
    }
}
