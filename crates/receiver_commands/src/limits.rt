//! The limits as numbers, which clauses cite by name.
ghost use Rattle.std.specs.Prelude.{◌≡◌};

use crate::assemble::{ASSEMBLED_BLOCK, MOST_ASSEMBLED};

/// The limits of `assemble`: of its input in sections, and of a block in bytes.
pub fn limits_are_numbers()
    ensures assembled { MOST_ASSEMBLED ≡ 65536 }
    ensures assembled_block { ASSEMBLED_BLOCK ≡ 4066 }
{}
