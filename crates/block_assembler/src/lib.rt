//! Blocks that make a module: the bytes of a module that come in block messages, in any order and more than once.
//!
//! A module of `size` bytes is cut into blocks of `block_size` bytes, of which the last may be shorter (ISO/IEC 13818-6,
//! the download data block message). An `Assembler` keeps the first block of the right length that was offered for each
//! place, and gives the module's bytes once no block is missing.
//!
//! ```
//! use block_assembler::{Assembler, Offer};
//!
//! let mut module = Assembler::new(alloc, 7, 4)?;
//! assert_eq!(rt; module.offer(1, b"efg"), Offer::New);
//! assert_eq!(rt; module.offer(1, b"xyz"), Offer::Again);
//! assert_eq!(rt; module.whole(), None);
//! assert_eq!(rt; module.first_missing(), Some(0));
//! assert_eq!(rt; module.offer(0, b"abcd"), Offer::New);
//! assert_eq!(rt; module.whole(), Some(&b"abcdefg"[..]));
//! ```
#![tactic(auto)]

pub use limits::limits_are_numbers;
use thiserror::Error;

mod kept;
mod limits;
mod put;

pub use kept::{Assembler, Emptied};

/// The most bytes of a module that is assembled: 16 MiB of a file's content and 64 KiB for what stands around it. This
/// project's own limit.
pub const MOST_MODULE_SIZE: u32 = 16_842_752;

/// Why a module can't be assembled.
#[derive(Clone, Copy, Debug, PartialEq, Eq, Error)]
pub enum NewFault {
    /// The block size is 0, or above [`ddb_block::MOST_BLOCK_SIZE`] bytes, the most that fits in a section.
    #[error("the block size is 0 or above 4,066 bytes")]
    NoBlockSize,
    /// The module has more than [`MOST_MODULE_SIZE`] bytes or more than [`ddb_block::MOST_BLOCKS`] blocks.
    #[error("the module has more than 16,842,752 bytes or 65,536 blocks")]
    TooLarge,
    /// There is no memory.
    #[error("out of memory")]
    NoMemory,
}

/// What became of a block that was offered: the first of these that holds.
#[derive(Clone, Copy, Debug, PartialEq, Eq)]
pub enum Offer {
    /// The module has no block of this number.
    WrongPlace,
    /// The block hasn't the length of its place: the block size, or what is left for the last block.
    WrongLength,
    /// A block is there already; it stays.
    Again,
    /// The block was taken.
    New,
}
