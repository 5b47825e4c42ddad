//! The limit that clauses cite by name, as a number.
ghost use Rattle.std.specs.Prelude.{◌≡◌};

use crate::demux::MOST_PIECE;

pub fn limits_are_numbers()
    ensures piece { MOST_PIECE ≡ 65536 }
{}
