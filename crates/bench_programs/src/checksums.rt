// The CRC of pieces of the same bytes: again and again, and beside its meaning bit by bit.

use section_crc::{crc, crc_step};

/// From how many places on pieces begin, one after another.
const PLACES: usize = 16;

/// The most bytes of a piece whose CRC is compared.
const LONGEST: usize = 9_000;

/// The CRCs of `rounds` pieces of at most `length` bytes, joined by exclusive or. Piece k begins at
/// byte k % 16.
pub fn joined(bytes: &[u8], rounds: u32, length: usize) -> u32 {
    let mut joined = 0;
    for round in 0..rounds as usize {
        let behind = &bytes[(round % PLACES).min(bytes.len())..];
        joined ^= crc(&behind[..length.min(behind.len())]);
    }
    joined
}

/// How many pieces of 0 to 9,000 bytes, from each of the first 16 bytes on, have the CRC that bits
/// one after another give.
pub fn agreeing(bytes: &[u8]) -> u64 {
    let mut agree: u64 = 0;
    for first in 0..PLACES {
        agree = agree.wrapping_add(agreeing_from(&bytes[first.min(bytes.len())..]));
    }
    agree
}

/// The same from the first byte on.
fn agreeing_from(bytes: &[u8]) -> u64 {
    let mut state = 0xFFFF_FFFF;
    let mut agree = u64::from(crc(&[]) == state);
    for last in 0..LONGEST.min(bytes.len()) {
        state = crc_step(state, bytes[last]);
        agree = agree.wrapping_add(u64::from(crc(&bytes[..=last]) == state));
    }
    agree
}
