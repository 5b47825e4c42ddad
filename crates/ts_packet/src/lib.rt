//! Transport packets (ISO/IEC 13818-1, 2.4.3.2): a header of four bytes, an adaptation field or
//! none, and a payload that may be empty.
//!
//! ```
//! use ts_packet::{PacketFault, build, parse};
//!
//! let mut bytes = build(256, true, 7, &[0xFF; 184]);
//! let packet = parse(&bytes)?;
//! assert_eq!(rt; (packet.pid, packet.start, packet.counter), (256, true, 7));
//! assert_eq!(rt; packet.payload.len(), 184);
//! bytes[0] = 0;
//! assert_eq!(rt; parse(&bytes).err(), Some(PacketFault::NoSync));
//! ```
#![tactic(auto)]

ghost use Rattle.std.specs.Prelude.{◌≡◌, ◌<◌, ◌≤◌, Err, IfOk, MatchOption, MatchResult, Ok, true, false, length, slice_index, ◌+◌, ◌*◌, ◌/◌, ◌%◌, ◌==◌, [], drop, if◌then◌else◌};
ghost use Rattle.ts_packet.specs.Packets.{view, control, is_plain, parse_packet, packet_bytes};
ghost use Rattle.ts_packet.specs.Fates.{arrival_of, flip_bit};

use carousel_profile::PACKET_LENGTH;
use thiserror::Error;

/// The first byte of each packet.
const SYNC: u8 = 0x47;

/// The greatest adaptation field length before a payload, which has at least one byte.
const MOST_ADAPTATION: u8 = 182;

/// What a packet says to a receiver of sections.
#[derive(Clone, Copy, Debug)]
pub struct Packet<'a> {
    /// The packet identifier, 0 to 8,191.
    pub pid: u16,
    /// The payload unit start indicator: a section begins in this payload.
    pub start: bool,
    /// The continuity counter, 0 to 15.
    pub counter: u8,
    /// The 0 to 184 bytes after the header and the adaptation field.
    pub payload: &'a [u8],
}

/// Why 188 bytes aren't a packet that can be read. The first fault in this order counts.
#[derive(Clone, Copy, Debug, PartialEq, Eq, Error)]
pub enum PacketFault {
    /// The first byte isn't 0x47.
    #[error("the first byte isn't 0x47")]
    NoSync,
    /// The transport error indicator is set.
    #[error("the transport_error_indicator is set")]
    Errored,
    /// The transport scrambling control isn't 00.
    #[error("the payload is scrambled")]
    Scrambled,
    /// The adaptation field control is 00.
    #[error("the adaptation_field_control is 00, which is reserved")]
    Reserved,
    /// The adaptation field leaves no room for the payload.
    #[error("the adaptation field before the payload has more than 182 bytes")]
    BadField,
}

/// What happens to one packet on its way to the receiver.
#[derive(Clone, Copy, Debug, PartialEq, Eq)]
pub enum Fate {
    /// It arrives unchanged.
    Keep,
    /// It doesn't arrive.
    Lose,
    /// It arrives with one bit inverted: this one modulo 1,504, from the first byte's top bit on.
    Flip(u16),
}

const PACKET_BITS: u16 = 8 * PACKET_LENGTH as u16;

impl Fate {
    /// What arrives of a packet, if it arrives.
    pub fn arrived(self, packet: &[u8; PACKET_LENGTH]) -> Option<[u8; PACKET_LENGTH]>
        ensures { result ≡ arrival_of self packet.now }
    {
        match self {
            Fate::Keep => Some(*packet),
            Fate::Lose => None,
            Fate::Flip(bit) => Some(with_bit_flipped(*packet, bit % PACKET_BITS)),
        }
    }
}

fn with_bit_flipped(packet: [u8; PACKET_LENGTH], bit: u16) -> [u8; PACKET_LENGTH]
    requires { bit < PACKET_BITS }
    ensures { result ≡ flip_bit bit packet }
{
    let mut bytes = packet;
    bytes[usize::from(bit / 8)] ^= 1 << (7 - bit % 8);
    bytes
}

/// Reads the packet in `bytes`, or its first fault (ISO/IEC 13818-1, 2.4.3.2 to 2.4.3.5). If the
/// adaptation field control is 10, the payload is empty, whatever that field's length is.
pub fn parse(bytes: &[u8; PACKET_LENGTH]) -> Result<Packet<'_>, PacketFault>
    ensures grammar { MatchResult result (λ p. parse_packet bytes.now ≡ Ok (view p)) (λ fault.
        parse_packet bytes.now ≡ Err fault) }
    ensures ranges { IfOk result (λ p.
        (p.pid < 8192) × (p.counter < 16) × (length p.payload.now ≤ 184)) }
{
    if bytes[0] != SYNC {
        return Err(PacketFault::NoSync);
    }
    if bytes[1] & 0x80 != 0 {
        return Err(PacketFault::Errored);
    }
    if bytes[3] & 0xC0 != 0 {
        return Err(PacketFault::Scrambled);
    }
    let control = bytes[3] >> 4 & 3;
    if control == 0 {
        return Err(PacketFault::Reserved);
    }
    if control == 3 && bytes[4] > MOST_ADAPTATION {
        return Err(PacketFault::BadField);
    }
    Ok(with_payload(bytes, payload_of(bytes)))
}

/// Reads a packet as `parse` does, but only one with neither a fault nor an adaptation field.
#[inline]
pub fn parse_plain(bytes: &[u8; PACKET_LENGTH]) -> Option<Packet<'_>>
    ensures { MatchOption result (is_plain bytes.now ≡ false) (λ p.
        (is_plain bytes.now ≡ true) × (parse_packet bytes.now ≡ Ok (view p))
        × (p.payload.now ≡ drop 4 bytes.now)) }
{
    let header = header_of(bytes);
    // The sync byte and no error; neither scrambled nor with an adaptation field.
    if header >> 23 != u32::from(SYNC) << 1 || header >> 4 & 15 != 1 {
        return None;
    }
    Some(with_payload(bytes, &bytes[4..]))
}

/// The header as one number.
#[inline]
fn header_of(bytes: &[u8; PACKET_LENGTH]) -> u32
    ensures { result
        ≡ slice_index bytes.now 0 * 16777216 + slice_index bytes.now 1 * 65536
        + slice_index bytes.now 2 * 256 + slice_index bytes.now 3 }
{
    u32::from_be_bytes([bytes[0], bytes[1], bytes[2], bytes[3]])
}

/// The fields of the header, with this payload.
#[inline]
fn with_payload<'a>(bytes: &[u8; PACKET_LENGTH], payload: &'a [u8]) -> Packet<'a>
    ensures pid { result.pid ≡ slice_index bytes.now 1 % 32 * 256 + slice_index bytes.now 2 }
    ensures start { result.start ≡ (slice_index bytes.now 1 / 64 % 2 == 1) }
    ensures counter { result.counter ≡ slice_index bytes.now 3 % 16 }
    ensures payload { result.payload.now ≡ payload.now }
{
    let header = header_of(bytes);
    Packet {
        pid: (header >> 8 & 0x1FFF) as u16,
        start: header >> 22 & 1 == 1,
        counter: (header & 0x0F) as u8,
        payload,
    }
}

fn payload_of(bytes: &[u8]) -> &[u8]
    requires whole { length bytes.now ≡ PACKET_LENGTH }
    requires field { control bytes.now ≡ 3 → slice_index bytes.now 4 ≤ 182 }
    ensures { result.now
        ≡ (if control bytes.now == 1 then drop 4 bytes.now else
        (if control bytes.now == 3 then drop (5 + slice_index bytes.now 4) bytes.now else [])) }
{
    match bytes[3] >> 4 & 3 {
        1 => &bytes[4..],
        3 => &bytes[5 + usize::from(bytes[4])..],
        _ => &[],
    }
}

/// A packet of nothing but a header and a payload, without error, priority or scrambling.
///
/// `pid` is 0 to 8,191 and `counter`, the continuity counter, 0 to 15.
pub fn build(pid: u16, start: bool, counter: u8, payload: &[u8; 184]) -> [u8; PACKET_LENGTH]
    requires pid { pid < 8192 }
    requires counter { counter < 16 }
    ensures bytes { result ≡ packet_bytes pid start counter payload.now }
    ensures parses { parse_packet result
        ≡ Ok (record { pid = pid; start = start; counter = counter; payload = payload.now }) }
{
    let mut bytes = [0; PACKET_LENGTH];
    bytes[0] = SYNC;
    bytes[1] = if start { 0x40 } else { 0 } | (pid >> 8) as u8;
    bytes[2] = (pid & 0xFF) as u8;
    bytes[3] = 0x10 | counter;
    bytes[4..].copy_from_slice(payload);
    bytes
}
