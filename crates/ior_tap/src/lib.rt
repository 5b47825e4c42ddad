//! IORs: references to objects of a carousel, with the taps that deliver them.
//!
//! The layout is that of ISO/IEC 13818-6, clause 11, in the profile of ETSI TR 101 202, clause 4.7.
//! That written taps have version and flag 0 is this project's own.
//!
//! ```
//! use ior_tap::{IorFault, biop_of, decode};
//! use std::alloc::Global;
//!
//! fn module_of(alloc: Global, bytes: &[u8]) -> Result<Option<u16>, IorFault> {
//!     let (ior, _) = decode(alloc, bytes)?;
//!     let Some((location, _)) = biop_of(&ior) else { return Ok(None) };
//!     Ok(Some(location.module))
//! }
//! ```
#![tactic(auto)]

ghost use Rattle.std.specs.Prelude.{◌≡◌};
ghost use Rattle.ior_tap.specs.declared.IorFault.TheVariants.{BadIor, NoMemory as OutOfMemory};

mod key;
mod lookup;
mod reading;
mod tags;
mod writing;

pub use key::Key;
pub use lookup::{biop_of, delivery_of};
use oc_bytes::Cut;
pub use reading::{decode, one_reading};
use std::alloc::{AllocError, AllocFailed};
pub use tags::{BINDER_TAG, BIOP_TAG, LOCATION_TAG, tags_are_numbers};
use thiserror::Error;
pub use writing::{delivery_of_module, encode, put_reference};

/// How a stream of the network is reached (ISO/IEC 13818-6, clause 5.6).
#[derive(Debug, Drop)]
pub struct Tap {
    /// Its number among taps of its kind; 0 here.
    pub id: u16,
    /// What it is for: 0x0016 delivers control messages.
    pub use_code: u16,
    /// The association tag of the elementary stream.
    pub assoc: u16,
    /// The selector, 0 to 255 bytes.
    pub selector: Vec<u8>,
}

/// Where an object is: a BIOP::ObjectLocation.
#[derive(Debug, Drop)]
pub struct Location {
    /// The carousel's id.
    pub carousel: u32,
    /// The module's id.
    pub module: u16,
    /// The object's key in it.
    pub key: Key,
}

/// The taps that reach the module: a DSM::ConnBinder.
#[derive(Debug, Drop)]
pub struct Binder {
    /// 0 to 255 taps, in order.
    pub taps: Vec<Tap>,
}

/// One profile of an IOR.
#[derive(Debug, Drop)]
pub enum Profile {
    /// A BIOP profile with both components.
    Biop(Location, Binder),
    /// Any other profile, also a BIOP one that lacks a component in the right form: its tag and
    /// bytes.
    Other(u32, Vec<u8>),
}

/// A reference to an object (IOP::IOR).
#[derive(Debug, Drop)]
pub struct Ior {
    /// The type id: `fil`, `dir` or `srg` and a zero byte.
    pub kind: [u8; 4],
    /// The profiles in order.
    pub profiles: Vec<Profile>,
}

/// Why an IOR wasn't read.
#[derive(Clone, Copy, Debug, PartialEq, Eq, Error)]
pub enum IorFault {
    /// The place, in bytes, of the first field outside of the profiles' bytes that is cut, or of a
    /// type_id_length other than 4.
    #[error("no IOR: the field at byte {0} is cut or breaks a rule")]
    BadIor(usize),
    /// There is no memory.
    #[error("out of memory")]
    NoMemory,
}

impl From<Cut> for IorFault {
    ghost from_gives = { λ cut e. e ≡ BadIor cut.0 };

    fn from(Cut(place): Cut) -> IorFault {
        IorFault::BadIor(place)
    }
}

impl From<AllocError> for IorFault {
    ghost from_gives = { λ _ e. e ≡ OutOfMemory };

    fn from(_e: AllocError) -> IorFault {
        IorFault::NoMemory
    }
}

impl<T: Drop> From<AllocFailed<T>> for IorFault {
    ghost from_gives = { λ _ e. e ≡ OutOfMemory };

    fn from(_e: AllocFailed<T>) -> IorFault {
        IorFault::NoMemory
    }
}
