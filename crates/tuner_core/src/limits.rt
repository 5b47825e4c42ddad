//! The limits as numbers, which clauses cite by name.
ghost use Rattle.std.specs.Prelude.{◌≡◌};

use crate::turns::MOST_HELD;

/// The limit of what is held together, in DIIs.
pub fn limits_are_numbers()
    ensures held { MOST_HELD ≡ 16 }
{}
