//! What the words of a row say, beside bytes and numbers.

use test_rows::{Row, RowFault};

/// The bytes that the word at a place says, of which there have to be so many.
pub(crate) fn array<const N: usize>(row: &Row<'_>, place: usize) -> [u8; N] {
    match <[u8; N]>::try_from(row.octets(place).as_slice()) {
        Ok(bytes) => bytes,
        Err(_) => {
            row.fail(RowFault::BadRow);
            [0; N]
        }
    }
}
