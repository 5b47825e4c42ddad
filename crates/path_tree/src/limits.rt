//! The limits as numbers, which clauses cite by name.
ghost use Rattle.std.specs.Prelude.{◌≡◌};

use crate::text::MOST_NAMES;
use crate::tree::MOST_CONTENT;

/// The limits of a path, in names, and of a file, in bytes.
pub fn limits_are_numbers()
    ensures names { MOST_NAMES ≡ 16 }
    ensures content { MOST_CONTENT ≡ 16777216 }
{}
