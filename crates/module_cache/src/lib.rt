//! The modules that a receiver of an object carousel holds, whole or in part.
//!
//! The DIIs of a generation list them (ISO/IEC 13818-6, DownloadInfoIndication). When the DIIs of
//! another generation take their place, some modules stay. What stays, and the limits, are this
//! project's own rules.
//!
//! ```
//! use ddb_block::Parts;
//! use dsi_dii::{Dii, ModuleLine, TransactionId};
//! use module_cache::{Cache, Slot, Taken, is_within};
//!
//! let mut cache = Cache::new(alloc);
//! let line = ModuleLine { id: 1, size: 7, version: 0, compressed: false };
//! let transaction = TransactionId(0x8000_0002);
//! let dii = Dii { download: 9, block_size: 4, transaction, modules: vec![in alloc; line]? };
//! assert!(rt; is_within(&dii));
//! cache.turn(&dii, false)?;
//! let block = Parts { download: 9, module: 1, version: 0, block: 0, bytes: b"abcd" };
//! assert_eq!(rt; cache.offer_parts(&block)?, Taken::New);
//! assert_eq!(rt; cache.offer_parts(&block)?, Taken::Again);
//! assert!(rt; matches!(cache.module(1), Slot::Partial));
//! ```
#![tactic(auto)]

mod beside;
mod cache;
mod laws;
mod limits;
mod reach;
mod stored;
mod taken;
mod tuned;

pub use beside::{fits_beside, is_apart, is_identification_held};
pub use cache::Cache;
pub use laws::calls_look_back;
pub use limits::is_within;
pub use stored::{Line, Stored};
pub use taken::{Slot, Taken};
pub use tuned::Tuned;
