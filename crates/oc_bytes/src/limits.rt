ghost use Rattle.std.specs.Prelude.{◌≡◌};

use crate::lengths::{MOST_LENGTH, MOST_SECTION};

/// The limits as numbers, which clauses cite by name.
pub fn limits_are_numbers()
    ensures length { MOST_LENGTH ≡ 4093 }
    ensures section { MOST_SECTION ≡ 4096 }
{}
