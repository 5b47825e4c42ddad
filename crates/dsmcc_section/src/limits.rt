//! The limits as numbers, which clauses cite by name.
ghost use Rattle.std.specs.Prelude.{◌≡◌};

use crate::MOST_PAYLOAD;

/// The limit of a payload, in bytes.
pub fn limits_are_numbers()
    ensures { MOST_PAYLOAD ≡ 4084 }
{}
