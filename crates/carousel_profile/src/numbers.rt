ghost use Rattle.std.specs.Prelude.{◌≡◌};

use crate::{
    ASSOCIATION_TAG, BLOCK_SIZE, BLOCK_USE, CAROUSEL_PID, COMPONENT_TAG, DELIVERY_USE,
    DSI_TRANSACTION, MOST_PID, NO_TIME_OUT, NULL_PID, PACKET_LENGTH, PAT_PID, PMT_PID, PROGRAM,
    SCRIPT_CAROUSEL, STREAM_TYPE, TRANSPORT_STREAM,
};

/// The constants as numbers, which clauses cite by name.
pub fn profile_is_these_numbers()
    // Packets and PIDs:
    ensures packet_length { PACKET_LENGTH ≡ 188 }
    ensures pat_pid { PAT_PID ≡ 0 }
    ensures pmt_pid { PMT_PID ≡ 32 }
    ensures carousel_pid { CAROUSEL_PID ≡ 256 }
    ensures most_pid { MOST_PID ≡ 8190 }
    ensures null_pid { NULL_PID ≡ 8191 }
    // Tables:
    ensures transport_stream { TRANSPORT_STREAM ≡ 1 }
    ensures program { PROGRAM ≡ 1 }
    ensures stream_type { STREAM_TYPE ≡ 0x0B }
    ensures component_tag { COMPONENT_TAG ≡ 1 }
    // Taps, messages and blocks:
    ensures association_tag { ASSOCIATION_TAG ≡ 1 }
    ensures delivery_use { DELIVERY_USE ≡ 0x16 }
    ensures block_use { BLOCK_USE ≡ 0x17 }
    ensures dsi_transaction { DSI_TRANSACTION ≡ 0x80000000 }
    ensures block_size { BLOCK_SIZE ≡ 4066 }
    ensures no_time_out { NO_TIME_OUT ≡ 0xFFFFFFFF }
    // Scripts:
    ensures script_carousel { SCRIPT_CAROUSEL ≡ 1 }
{}
