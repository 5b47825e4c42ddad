//! The frame of long sections (ISO/IEC 13818-1, 2.4.4): eight bytes before a body, the CRC after
//! it. PSI tables and DSM-CC sections share it. Each sets its own table ids, limits and order of
//! faults.
//!
//! ```
//! use long_section::{Header, frame_of, write_frame};
//!
//! let header = Header { extension: 7, version: 1, number: 0, last: 0 };
//! let bytes = write_frame(alloc, 0x02, &header, &[1, 2], &[3])?;
//! assert_eq!(rt; bytes.len(), 15);
//! assert_eq!(rt; frame_of(&bytes).body, &[1, 2, 3][..]);
//! ```
#![tactic(auto)]

ghost use Rattle.std.specs.Prelude.{◌≡◌, ◌+◌, ◌<◌, ◌≤◌, ◌++◌, ℕ, List, IfOk, length};
ghost use Rattle.oc_bytes.specs.Numbers.{section_length};
ghost use Rattle.long_section.specs.Frames.{Fields, Fits, IsFrame, fields_of, fields_with, prefix_with, spelling};

use oc_bytes::{MOST_LENGTH, NoMemory};
use section_crc::crc;
use std::alloc::Global;

/// The bytes of a section around its body.
pub const ROUND: usize = 12;

/// A frame's fields, except table and body.
#[derive(Clone, Copy, Debug)]
pub struct Header {
    /// table_id_extension.
    pub extension: u16,
    /// version_number, 0 to 31.
    pub version: u8,
    /// section_number.
    pub number: u8,
    /// last_section_number.
    pub last: u8,
}

/// A section's fields.
#[derive(Clone, Copy, Debug)]
pub struct Frame<'a> {
    /// The fields before the body.
    pub header: Header,
    /// What is between header and CRC.
    pub body: &'a [u8],
}

/// The fields in a section of at least 12 bytes. It checks no table, length, indicator or CRC.
#[inline]
pub fn frame_of(bytes: &[u8]) -> Frame<'_>
    requires { ROUND ≤ length bytes.now }
    ensures { fields_with result.header result.body.now ≡ fields_of bytes.now }
{
    Frame {
        header: Header {
            extension: u16::from_be_bytes([bytes[3], bytes[4]]),
            version: bytes[5] / 2 % 32,
            number: bytes[6],
            last: bytes[7],
        },
        body: &bytes[8..bytes.len() - 4],
    }
}

/// The eight bytes before a body, which is `front` and then `rest`. `header.version` is 0 to 31, and
/// the body has at most 4,084 bytes.
pub fn header_bytes(id: u8, header: &Header, front: &[u8], rest: &[u8]) -> [u8; 8]
    requires version { header.now.version < 32 }
    requires room { length front.now + length rest.now + 9 ≤ MOST_LENGTH }
    ensures front { prefix_with id 0 3 3 (fields_with header.now (front.now ++ rest.now))
        ≡ result ++ front.now ++ rest.now }
    ensures fits { Fits MOST_LENGTH (fields_with header.now (front.now ++ rest.now)) }
{
    let Header {
        extension,
        version,
        number,
        last,
    } = header;
    let length = front.len() + rest.len() + 9;
    let [length_high, length_low] = (length as u16).to_be_bytes();
    let [extension_high, extension_low] = extension.to_be_bytes();
    [
        id,
        0xB0 + length_high,
        length_low,
        extension_high,
        extension_low,
        0xC1 + 2 * *version,
        *number,
        *last,
    ]
}

/// Writes the section of table `id` with the body `front`, then `rest`, each copied once.
///
/// The version is 0 to 31, the body at most 4,084 bytes. private_indicator is 0;
/// current_next_indicator and reserved bits are 1. `Err` is out of memory.
pub fn write_frame(
    alloc: Global,
    id: u8,
    header: &Header,
    front: &[u8],
    rest: &[u8],
) -> Result<Vec<u8>, NoMemory>
    requires version { header.now.version < 32 }
    requires room { length front.now + length rest.now + 9 ≤ MOST_LENGTH }
    ensures spells { IfOk result (λ bytes.
        bytes.items ≡ spelling id (fields_with header.now (front.now ++ rest.now))) }
    ensures fits { Fits MOST_LENGTH (fields_with header.now (front.now ++ rest.now)) }
{
    let mut bytes = Vec::with_capacity(alloc, front.len() + rest.len() + ROUND)?;
    bytes.extend_from_slice(&header_bytes(id, header, front, rest))?;
    bytes.extend_from_slice(front)?;
    bytes.extend_from_slice(rest)?;
    let check = crc(&bytes);
    bytes.extend_from_slice(&check.to_be_bytes())?;
    Ok(bytes)
}

/// What holds of each frame, whoever wrote it.
pub fn frames_are_read()
    ensures spelled { (most id : ℕ) (f : Fields) → Fits most f → IsFrame most id (spelling id f) f }
    ensures read { (most id : ℕ) (bytes : List ℕ) (f : Fields)
        → IsFrame most id bytes f → fields_of bytes ≡ f }
    ensures counted { (most id : ℕ) (bytes : List ℕ) (f : Fields)
        → most ≤ MOST_LENGTH → IsFrame most id bytes f
        → (section_length bytes ≤ most) × (length bytes ≡ section_length bytes + 3) }
{}
