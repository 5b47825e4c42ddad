ghost use Rattle.std.specs.Prelude.{◌≡◌};

use crate::walking::MOST_LISTED;

/// The limit as a number, which clauses cite by name.
pub fn limits_are_numbers()
    ensures { MOST_LISTED ≡ 65536 }
{}
