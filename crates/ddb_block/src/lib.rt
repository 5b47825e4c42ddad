//! Block messages, DDB (ISO/IEC 13818-6, clause 7.3.7: DownloadDataBlock), and how a module is cut into blocks.
//!
//! ```
//! use ddb_block::{block_count, block_span, parts_of};
//!
//! let message = [0x11, 3, 0x10, 3, 0, 0, 0, 1, 0xFF, 0, 0, 7, 0, 2, 0, 0xFF, 0, 0, 65];
//! let block = parts_of(&message).unwrap();
//! assert_eq!(rt; (block.download, block.module, block.bytes), (1, 2, &[65][..]));
//!
//! assert_eq!(rt; block_count(4_067, 4_066), 2);
//! assert_eq!(rt; block_span(4_067, 4_066, 1), 1);
//! ```
#![tactic(auto)]

ghost use Rattle.std.specs.Prelude.{◌≡◌, ◌≤◌, ◌<◌, ◌++◌, ◌∷◌, [], Ok, length, ◌+◌, IfOk, IsErrOf, IsOkAnd, OnErr};
ghost use Rattle.oc_bytes.specs.Cursor.{Cursor, value_only};
ghost use Rattle.oc_bytes.specs.Numbers.{two_bytes};
ghost use Rattle.oc_bytes.specs.Outcome.{Gives, MakesList};
ghost use Rattle.oc_bytes.specs.Cause.{place_of};
ghost use Rattle.ddb_block.specs.Blocks.{Block, Fits, view, parts_view, Reads, read, spelling, cause, block_count_of, block_span_of, SpansFill};

mod header;
mod limits;

pub use header::{header_bytes, message, messages_read};
pub use limits::limits_are_numbers;
use oc_bytes::{Cut, NoMemory};
use std::alloc::{AllocError, Global};
use thiserror::Error;

/// The most bytes of a block: what a section's payload has room for beside a block message's 18 bytes of fields.
pub const MOST_BLOCK_SIZE: u16 = 4_066;

/// The most blocks of a module: block numbers have 16 bits.
pub const MOST_BLOCKS: u32 = 65_536;

/// A block message: one block of a module.
#[derive(Debug, Drop)]
pub struct Ddb {
    /// downloadId.
    pub download: u32,
    /// moduleId.
    pub module: u16,
    /// moduleVersion.
    pub version: u8,
    /// blockNumber, from 0.
    pub block: u16,
    /// The block's bytes. All blocks of a module have the DII's blockSize, except the last.
    pub bytes: Vec<u8>,
}

/// Why reading gave no block message.
#[derive(Clone, Copy, Debug, PartialEq, Eq, Error)]
pub enum DdbFault {
    /// The bytes are no block message: the place, counted in bytes from 0, of the first field that is cut or breaks a rule.
    #[error("no block message: the field at byte {0} is cut or breaks a rule")]
    NotDdb(usize),
    /// There is no memory.
    #[error("out of memory")]
    NoMemory,
}

impl From<AllocError> for DdbFault {
    ghost use Rattle.ddb_block.specs.declared.DdbFault.TheVariants.{NoMemory};

    ghost from_gives = { λ _ e. e ≡ NoMemory };

    fn from(_error: AllocError) -> DdbFault {
        DdbFault::NoMemory
    }
}

impl From<Cut> for DdbFault {
    ghost use Rattle.ddb_block.specs.declared.DdbFault.TheVariants.{NotDdb};

    ghost from_gives = { λ cut e. e ≡ NotDdb cut.0 };

    fn from(Cut(place): Cut) -> DdbFault {
        DdbFault::NotDdb(place)
    }
}

/// A block message that is lent its bytes: those of a payload that was read, or those that are to be written.
#[derive(Clone, Copy, Debug)]
pub struct Parts<'a> {
    /// downloadId.
    pub download: u32,
    /// moduleId.
    pub module: u16,
    /// moduleVersion.
    pub version: u8,
    /// blockNumber, from 0.
    pub block: u16,
    /// The block's bytes.
    pub bytes: &'a [u8],
}

/// The fields between the header and the block's bytes: 6 bytes.
fn block_fields(parts: &Parts<'_>) -> [u8; 6]
    ensures fields { two_bytes parts.now.module
        ++ (parts.now.version ∷ 0xFF ∷ [])
        ++ two_bytes parts.now.block
        ≡ result }
    ensures fits { Fits (parts_view parts.now) }
{
    let Parts {
        download,
        module,
        version,
        block,
        bytes: _,
    } = parts;
    let _download = *download;
    let [module_high, module_low] = module.to_be_bytes();
    let [block_high, block_low] = block.to_be_bytes();
    [
        module_high,
        module_low,
        *version,
        0xFF,
        block_high,
        block_low,
    ]
}

/// What a block message has before the block's bytes: its header and the fields after that, 18 bytes (ISO/IEC 13818-6,
/// clause 7.3.7). With the block's bytes after them they are what `encode` writes, so that a writer that is lent the block's
/// bytes copies them only once.
///
/// `parts.bytes` has at most [`MOST_BLOCK_SIZE`] bytes, so that the message fits in one section.
pub fn block_front(parts: &Parts<'_>) -> [u8; 18]
    requires { length parts.now.bytes.now ≤ MOST_BLOCK_SIZE }
    ensures spells { spelling (parts_view parts.now) ≡ result ++ parts.now.bytes.now }
    ensures fits { Fits (parts_view parts.now) }
{
    let size = parts.bytes.len() + 6;
    let mut front = [0; 18];
    front[..12].copy_from_slice(&header_bytes(0x1003, parts.download, size as u16));
    front[12..].copy_from_slice(&block_fields(parts));
    front
}

/// The bytes of a block message.
fn written(alloc: Global, ddb: &Ddb) -> Result<Vec<u8>, NoMemory>
    requires { length ddb.now.bytes.items ≤ MOST_BLOCK_SIZE }
    ensures spells { MakesList result (spelling (view ddb.now)) }
    ensures fits { IfOk result (λ _. Fits (view ddb.now)) }
{
    let mut bytes = Vec::with_capacity(alloc, ddb.bytes.len() + 18)?;
    bytes.extend_from_slice(&block_front(&Parts {
        download: ddb.download,
        module: ddb.module,
        version: ddb.version,
        block: ddb.block,
        bytes: &ddb.bytes,
    }))?;
    bytes.extend_from_slice(&ddb.bytes)?;
    Ok(bytes)
}

/// Writes a block message: its one spelling, without an adaptation header and with the reserved bytes 0xFF. It has 18 bytes
/// and those of the block, and reads as the block.
///
/// `ddb.bytes` has at most [`MOST_BLOCK_SIZE`] bytes, so that the message fits in one section. `NoMemory` comes where the bytes find no
/// memory.
#[tactic(auto, using(crate::proofs::Laws::spelled_reads))]
pub fn encode(alloc: Global, ddb: &Ddb) -> Result<Vec<u8>, NoMemory>
    requires { length ddb.now.bytes.items ≤ MOST_BLOCK_SIZE }
    ensures spells { MakesList result (spelling (view ddb.now)) }
    ensures reads { IfOk result (λ bytes. Reads bytes.items (view ddb.now)) }
{
    let bytes = written(alloc, ddb)?;
    Ok(bytes)
}

/// What holds of each spelling, whoever wrote it: it reads as its block, by the relation and by the reading function, and is
/// 18 bytes longer.
pub fn spellings_read()
    ensures reads { (b : Block) → Fits b → length b.bytes ≤ MOST_BLOCK_SIZE → Reads (spelling b) b }
    ensures is_read { (b : Block)
        → Fits b
        → length b.bytes ≤ MOST_BLOCK_SIZE
        → read (spelling b) ≡ Ok b }
    ensures length { (b : Block) → length (spelling b) ≡ length b.bytes + 18 }
{}

/// Reads a block message as `decode` does, copying nothing. [`Cut`] has the place that `decode` gives.
#[tactic(auto, unfolding(crate::specs::Blocks::block_at, oc_bytes::specs::Grammar::read))]
pub fn parts_of(payload: &[u8]) -> Result<Parts<'_>, Cut>
    ensures { Gives parts_view place_of result (read payload.now) }
{
    let (download, mut fields) = message(payload, 0x1003)?;
    let module = fields.u16()?;
    let version = fields.u8()?;
    fields.u8()?;
    let block = fields.u16()?;
    Ok(Parts {
        download,
        module,
        version,
        block,
        bytes: fields.rest(),
    })
}

/// The same block message with bytes of its own. Memory is asked for only where it has any.
fn owned(alloc: Global, parts: &Parts<'_>) -> Result<Ddb, AllocError>
    ensures same { IfOk result (λ d. view d ≡ parts_view parts.now) }
    ensures memory { OnErr result (0 < length parts.now.bytes.now) }
{
    let mut bytes = Vec::with_capacity(alloc, parts.bytes.len())?;
    bytes.extend_from_slice(parts.bytes)?;
    Ok(Ddb {
        download: parts.download,
        module: parts.module,
        version: parts.version,
        block: parts.block,
        bytes,
    })
}

/// Reads a block message from the front of a section's payload. The adaptation and what follows the message are passed over.
///
/// `NotDdb` comes exactly where the payload is no block message: at the place of the first field that is cut or breaks a rule.
/// The rules are protocolDiscriminator 0x11, dsmccType 0x03, messageId 0x1003, and a messageLength, at place 10, that is at
/// least adaptationLength and at most the number of bytes after it. `NoMemory` comes only of a block message whose block isn't
/// empty, where its bytes find no memory.
#[tactic(auto, using(crate::proofs::Laws::read_is_block))]
pub fn decode(alloc: Global, payload: &[u8]) -> Result<Ddb, DdbFault>
    ensures found { IfOk result (λ d. Reads payload.now (view d)) }
    ensures only { (b : Block) → Reads payload.now b → Gives view cause result (Ok b) }
    ensures exact { Gives view cause result (read payload.now) }
    ensures memory { IsErrOf result DdbFault.NoMemory
        → IsOkAnd (read payload.now) (λ b. 0 < length b.bytes) }
{
    let parts = parts_of(payload)?;
    Ok(owned(alloc, &parts)?)
}

/// How many blocks a module of `size` bytes has at a block size of `block_size` bytes: none where it has no bytes, and each but
/// the last is full.
///
/// `block_size` is at least 1.
#[tactic(auto, using(crate::proofs::Spans::spans_fill))]
pub fn block_count(size: u32, block_size: u16) -> u32
    requires { 1 ≤ block_size }
    ensures count { result ≡ block_count_of size block_size }
    ensures spans { SpansFill size block_size }
{
    size.div_ceil(u32::from(block_size))
}

/// How many bytes block number `block` of such a module has: `block_size`, and in the last block what is left.
///
/// `block_size` is at least 1, and `block` is below the number of blocks.
pub fn block_span(size: u32, block_size: u16, block: u16) -> u16
    requires positive { 1 ≤ block_size }
    requires below { block < block_count_of size block_size }
    ensures { result ≡ block_span_of size block_size block }
{
    let left = u64::from(size).saturating_sub(u64::from(block) * u64::from(block_size));
    left.min(u64::from(block_size)) as u16
}
