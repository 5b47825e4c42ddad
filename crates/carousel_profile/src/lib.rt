//! The numbers that this broadcaster chooses, and those of the formats that several layers name.
//!
//! They are of the profile in ETSI TR 101 202 over ISO/IEC 13818-1 and 13818-6. A number without a
//! clause is this project's own choice.
//!
//! ```
//! use carousel_profile::{CAROUSEL_PID, MOST_PID, PACKET_LENGTH};
//!
//! let packet = [0xFF; PACKET_LENGTH];
//! assert_eq!(rt; packet.len(), 188);
//! assert_eq!(rt; (CAROUSEL_PID, MOST_PID), (256, 8_190));
//! ```
#![tactic(auto)]

mod numbers;

pub use numbers::profile_is_these_numbers;

/// The bytes of a transport packet (ISO/IEC 13818-1, clause 2.4.3.2).
pub const PACKET_LENGTH: usize = 188;

/// The PID of the PAT (ISO/IEC 13818-1, table 2-3).
pub const PAT_PID: u16 = 0;

/// The PID of the written map table.
pub const PMT_PID: u16 = 32;

/// The PID of a carousel, unless a caller asks for another.
pub const CAROUSEL_PID: u16 = 256;

/// The greatest PID that can carry sections (ISO/IEC 13818-1, table 2-3).
pub const MOST_PID: u16 = 8_190;

/// The PID of null packets; for a program's clock it means none (ISO/IEC 13818-1, table 2-3 and
/// clause 2.4.4.9).
pub const NULL_PID: u16 = 8_191;

/// transport_stream_id in the written PAT.
pub const TRANSPORT_STREAM: u16 = 1;

/// The program of the written tables.
pub const PROGRAM: u16 = 1;

/// The type of streams with user-to-network messages, carousels among them (ISO/IEC 13818-6, clause
/// 9.2.3).
pub const STREAM_TYPE: u8 = 0x0B;

/// The component tag in the stream identifier descriptor.
pub const COMPONENT_TAG: u8 = 0x01;

/// The association tag of written taps: it has the number of [`COMPONENT_TAG`] (ETSI TR 101 202,
/// clause 4.7.2).
pub const ASSOCIATION_TAG: u16 = 0x0001;

/// The use of a tap for control messages, BIOP_DELIVERY_PARA_USE (ISO/IEC 13818-6, clause 11.3;
/// ETSI TR 101 202, clause 4.7.2).
pub const DELIVERY_USE: u16 = 0x0016;

/// The use of a tap for blocks, BIOP_OBJECT_USE (ISO/IEC 13818-6, clause
/// 11.3; ETSI TR 101 202, clause 4.7.2).
pub const BLOCK_USE: u16 = 0x0017;

/// The transactionId of each DSI: made by the network, all else 0. Those of DIIs begin so (ISO/IEC
/// 13818-6, clause 11.4.1; ETSI TR 101 202, clause 4.6.5).
pub const DSI_TRANSACTION: u32 = 0x8000_0000;

/// The bytes of a written block but a module's last: as many as a section has room for.
pub const BLOCK_SIZE: u16 = 4_066;

/// The written time-outs, in microseconds: none.
pub const NO_TIME_OUT: u32 = 0xFFFF_FFFF;

/// The id of the carousel of a script's session.
pub const SCRIPT_CAROUSEL: u32 = 1;
