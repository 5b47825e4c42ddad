ghost use Rattle.std.specs.Prelude.{ℕ};

use path_resolver::Shot;

/// A value that a board can show. Of it the board knows the number alone: the first one that it
/// shows has the number 0, and each other one a number that is one above the last.
pub trait Numbered: Drop {
    // The value's number.
    ghost number: { Self → ℕ };
}

impl Numbered for Shot {
    ghost number = { λ shot. shot.number };
}
