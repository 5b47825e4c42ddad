//! The limits as numbers, which clauses cite by name.
ghost use Rattle.std.specs.Prelude.{◌≡◌};

use crate::MOST_DRAWN;
use crate::weigh::GREATEST_WEIGHT;

/// The limits of weights, and of a draw in items. `module_groups` has the greatest id.
pub fn limits_are_numbers()
    ensures weight { GREATEST_WEIGHT ≡ 8 }
    ensures drawn { MOST_DRAWN ≡ 1048576 }
{}
