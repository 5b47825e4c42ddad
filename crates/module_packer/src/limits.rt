//! The limits as numbers, which clauses cite by name.
ghost use Rattle.std.specs.Prelude.{◌≡◌};

use crate::packing::ROOM;

/// The limit of a module of more than one object, in bytes.
pub fn limits_are_numbers()
    ensures { ROOM ≡ 65536 }
{}
