//! The limits as numbers, which clauses cite by name.
ghost use Rattle.std.specs.Prelude.{◌≡◌};

use crate::{MOST_BLOCK_SIZE, MOST_BLOCKS};

/// The limits of a block, in bytes, and of a module, in blocks.
pub fn limits_are_numbers()
    ensures block { MOST_BLOCK_SIZE ≡ 4066 }
    ensures blocks { MOST_BLOCKS ≡ 65536 }
{}
