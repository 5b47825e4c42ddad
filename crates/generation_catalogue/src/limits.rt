//! The limits as numbers, which clauses cite by name.
ghost use Rattle.std.specs.Prelude.{◌≡◌};

use crate::journal::{MOST_DRAWS, MOST_PUT_BYTES};

/// The most bytes put, and the most draws.
pub fn limits_are_numbers()
    ensures put { MOST_PUT_BYTES ≡ 536870912 }
    ensures draws { MOST_DRAWS ≡ 16777216 }
{}
