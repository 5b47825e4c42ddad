//! The control messages of a carousel: the DSI names the service gateway, DIIs list the modules.
//!
//! The layouts are those of ISO/IEC 13818-6, clauses 7.2 and 7.3, in the profile of ETSI TR 101
//! 202, clauses 4.6 and 4.7. [`MOST_TOTAL_SIZE`] and [`distance`] are this project's own.
//!
//! ```
//! use dsi_dii::{Control, ControlFault, TransactionId, decode};
//! use std::alloc::Global;
//!
//! /// The generation's number of a DII, as far as its version tells it.
//! fn version_of(alloc: Global, payload: &[u8]) -> Result<Option<u16>, ControlFault> {
//!     let Control::Dii(dii) = decode(alloc, payload)? else { return Ok(None) };
//!     Ok(Some(dii.transaction.version()))
//! }
//!
//! assert_eq!(rt; TransactionId::dii(3, 1).version(), 3);
//! ```
#![tactic(auto)]

ghost use Rattle.std.specs.Prelude.{◌≡◌, ◌≤◌, ◌<◌};
ghost use Rattle.module_groups.specs.declared.TheConstants.{MOST_GROUPS};
ghost use Rattle.dsi_dii.specs.Controls.{distance_of, dii_transaction, version_of, identification_of};
ghost use Rattle.dsi_dii.specs.declared.ControlFault.TheVariants.{NotControl, NoMemory as ControlNoMemory};
ghost use Rattle.dsi_dii.specs.declared.DiiFault.TheVariants.{NoMemory as DiiNoMemory};

mod limits;
mod reading;
mod writing;

pub use carousel_profile::BLOCK_SIZE;
use carousel_profile::DSI_TRANSACTION;
use ior_tap::Ior;
pub use limits::limits_are_numbers;
use module_groups::GROUP_SIZE;
use oc_bytes::Cut;
pub use reading::decode;
use std::alloc::{AllocError, AllocFailed};
use thiserror::Error;
pub use writing::{encode_dii, encode_dsi, spellings_read_back};

/// The most modules of a DII; one section has no room for more.
pub const MOST_MODULES: usize = GROUP_SIZE as usize;

/// The most bytes of all modules together.
pub const MOST_TOTAL_SIZE: u32 = 268_435_456;

/// The last generation; a transactionId has 14 bits for it.
pub const LAST_GENERATION: u64 = 16_383;

/// The transactionId of a control message: maker (bits 31 and 30), version (29 to 16),
/// identification (15 to 1), updated flag (0) (ISO/IEC 13818-6, clause 11.4.1; ETSI TR 101 202,
/// clause 4.6.5).
#[derive(Clone, Copy, Debug, PartialEq, Eq)]
pub struct TransactionId(pub u32);

impl TransactionId {
    /// That of every DSI: made by the network, all else 0.
    pub fn dsi() -> TransactionId
        ensures { result.0 ≡ DSI_TRANSACTION }
    {
        TransactionId(DSI_TRANSACTION)
    }

    /// That of a group's DII in a generation, 0 to [`LAST_GENERATION`]. The flag is the
    /// generation's last bit, so it changes with each.
    pub fn dii(generation: u64, group: u16) -> TransactionId
        requires generation { generation ≤ LAST_GENERATION }
        requires group { (1 ≤ group) × (group ≤ MOST_GROUPS) }
        ensures transaction { result.0 ≡ dii_transaction generation group }
        ensures version { version_of result.0 ≡ generation }
        ensures identification { identification_of result.0 ≡ group }
    {
        let flag = (generation % 2) as u32;
        TransactionId(DSI_TRANSACTION + generation as u32 * 65536 + 2 * u32::from(group) + flag)
    }

    /// The version, 0 to 16,383.
    pub fn version(&self) -> u16
        ensures { result ≡ version_of self.now.0 }
    {
        (self.0 / 65536 % 16384) as u16
    }

    /// The identification, 0 to 32,767; a DSI has 0.
    pub fn identification(&self) -> u16
        ensures { result ≡ identification_of self.now.0 }
    {
        (self.0 / 2 % 32768) as u16
    }
}

/// A DSI (DownloadServerInitiate).
#[derive(Debug, Drop)]
pub struct Dsi {
    /// The message's transactionId.
    pub transaction: TransactionId,
    /// The IOR of the service gateway.
    pub gateway: Ior,
}

/// A module as a DII lists it.
#[derive(Clone, Copy, Debug, PartialEq, Eq)]
pub struct ModuleLine {
    /// The module's id.
    pub id: u16,
    /// The module's bytes.
    pub size: u32,
    /// It changes with the module's bytes.
    pub version: u8,
    /// Whether its user info has a compressed_module_descriptor.
    pub compressed: bool,
}

/// A DII (DownloadInfoIndication).
#[derive(Debug, Drop)]
pub struct Dii {
    /// The downloadId, which the modules' blocks carry.
    pub download: u32,
    /// The bytes of each block but a module's last.
    pub block_size: u16,
    /// The message's transactionId.
    pub transaction: TransactionId,
    /// The modules in order.
    pub modules: Vec<ModuleLine>,
}

/// A control message.
#[derive(Debug, Drop)]
pub enum Control {
    /// A DSI.
    Dsi(Dsi),
    /// A DII.
    Dii(Dii),
}

/// Why a control message wasn't read.
#[derive(Clone, Copy, Debug, PartialEq, Eq, Error)]
pub enum ControlFault {
    /// The place, in bytes, of the payload's first field that is cut or breaks its rule.
    #[error("no control message: the field at byte {0} is cut or breaks a rule")]
    NotControl(usize),
    /// There is no memory.
    #[error("out of memory")]
    NoMemory,
}

/// Why a DII wasn't written.
#[derive(Clone, Copy, Debug, PartialEq, Eq, Error)]
pub enum DiiFault {
    /// It has more than [`MOST_MODULES`] modules.
    #[error("the DII has more than 139 modules")]
    TooMany,
    /// There is no memory.
    #[error("out of memory")]
    NoMemory,
}

impl From<Cut> for ControlFault {
    ghost from_gives = { λ cut fault. fault ≡ NotControl cut.0 };

    fn from(Cut(place): Cut) -> ControlFault {
        ControlFault::NotControl(place)
    }
}

impl From<AllocError> for ControlFault {
    ghost from_gives = { λ _ fault. fault ≡ ControlNoMemory };

    fn from(_: AllocError) -> ControlFault {
        ControlFault::NoMemory
    }
}

impl<T: Drop> From<AllocFailed<T>> for ControlFault {
    ghost from_gives = { λ _ fault. fault ≡ ControlNoMemory };

    fn from(_: AllocFailed<T>) -> ControlFault {
        ControlFault::NoMemory
    }
}

impl From<AllocError> for DiiFault {
    ghost from_gives = { λ _ fault. fault ≡ DiiNoMemory };

    fn from(_: AllocError) -> DiiFault {
        DiiFault::NoMemory
    }
}

/// How far version `new` is ahead of `old`, modulo 16,384. The sum of the distances counts the
/// generations past the version's wrap.
pub fn distance(old: u16, new: u16) -> u16
    requires old { old < 16384 }
    requires new { new < 16384 }
    ensures { result ≡ distance_of old new }
{
    (new + 16384 - old) % 16384
}
