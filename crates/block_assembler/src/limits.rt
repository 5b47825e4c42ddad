//! The limits as numbers, which clauses cite by name.
ghost use Rattle.std.specs.Prelude.{◌≡◌};

use crate::MOST_MODULE_SIZE;

/// The limit of a module, in bytes.
pub fn limits_are_numbers()
    ensures { MOST_MODULE_SIZE ≡ 16842752 }
{}
