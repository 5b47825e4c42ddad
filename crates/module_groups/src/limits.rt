ghost use Rattle.std.specs.Prelude.{◌≡◌, ◌*◌};

use crate::{GREATEST_ID, GROUP_SIZE, MOST_GROUPS};

/// The limits as numbers, which clauses cite by name.
pub fn limits_are_numbers()
    ensures size { GROUP_SIZE ≡ 139 }
    ensures groups { MOST_GROUPS ≡ 16 }
    ensures id { GREATEST_ID ≡ 2224 }
    ensures ids { GREATEST_ID ≡ GROUP_SIZE * MOST_GROUPS }
{}
