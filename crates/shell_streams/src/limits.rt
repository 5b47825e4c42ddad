//! The limits as numbers, which clauses cite by name.
ghost use Rattle.std.specs.Prelude.{◌≡◌};

use crate::output::MOST_PENDING;
use crate::packets::MOST_PACKETS;

/// The limits of an input, in packets, and of what waits to be written, in bytes.
pub fn limits_are_numbers()
    ensures packets { MOST_PACKETS ≡ 16777216 }
    ensures pending { MOST_PENDING ≡ 65536 }
{}
