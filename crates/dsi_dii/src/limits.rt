ghost use Rattle.std.specs.Prelude.{◌≡◌};

use crate::{LAST_GENERATION, MOST_MODULES, MOST_TOTAL_SIZE};
use carousel_profile::BLOCK_SIZE;
use ddb_block::MOST_BLOCK_SIZE;

/// The limits as numbers, which clauses cite by name.
pub fn limits_are_numbers()
    ensures modules { MOST_MODULES ≡ 139 }
    ensures block { BLOCK_SIZE ≡ MOST_BLOCK_SIZE }
    ensures total { MOST_TOTAL_SIZE ≡ 268435456 }
    ensures generation { LAST_GENERATION ≡ 16383 }
{}
