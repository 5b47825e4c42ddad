//! The CRC of sections.
//!
//! - `crc BYTES`: the CRC of the bytes.
//! - `crc-step STATE BYTE`: the state after a byte more, of a state of four bytes.

use crate::words::array;
use section_crc::{crc, crc_step};
use test_rows::{Line, Row};

pub(crate) fn call(row: &Row<'_>) -> Option<Line> {
    match row.name() {
        "crc" => Some(whole(row)),
        "crc-step" => Some(stepped(row)),
        _ => None,
    }
}

fn whole(row: &Row<'_>) -> Line {
    let state = crc(&row.octets(0));
    row.line().bytes("", &state.to_be_bytes())
}

fn stepped(row: &Row<'_>) -> Line {
    let state = u32::from_be_bytes(array(row, 0));
    let [byte]: [u8; 1] = array(row, 1);
    row.line().bytes("", &crc_step(state, byte).to_be_bytes())
}
