//! The limits as numbers, which clauses cite by name.
ghost use Rattle.std.specs.Prelude.{◌≡◌};

use crate::limit::MOST_OBJECTS;

/// The limit of a generation, in objects.
pub fn limits_are_numbers()
    ensures { MOST_OBJECTS ≡ 8192 }
{}
