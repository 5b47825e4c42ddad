ghost use Rattle.std.specs.Prelude.{◌≡◌};

use crate::directory::MOST_FOLLOWED;
use crate::frame::MOST_LENGTH;

/// The limits as numbers, which clauses cite by name.
pub fn limits_are_numbers()
    ensures length { MOST_LENGTH ≡ 1021 }
    ensures followed { MOST_FOLLOWED ≡ 64 }
{}
