//! The limits as numbers, which clauses cite by name.
ghost use Rattle.std.specs.Prelude.{◌≡◌, ◌∷◌, []};

use crate::reading::{DIRECTORY, FILE, GATEWAY, HEAD};
use crate::written::{
    FILE_BINDING, FILE_FRONT, FOLDER_BINDING, FOLDER_FRONT, MESSAGE_HEAD, MOST_FOLDER_SIZE,
};

/// Sizes in bytes.
pub fn limits_are_numbers()
    // Messages:
    ensures folder { MOST_FOLDER_SIZE ≡ 1048576 }
    ensures head { MESSAGE_HEAD ≡ 12 }
    ensures file_front { FILE_FRONT ≡ 44 }
    ensures folder_front { FOLDER_FRONT ≡ 34 }
    // Bindings, without their names:
    ensures file_binding { FILE_BINDING ≡ 82 }
    ensures folder_binding { FOLDER_BINDING ≡ 74 }
{}

/// The kinds of objects, and how a message begins, in bytes.
pub fn kinds_are_bytes()
    ensures file { FILE ≡ 102 ∷ 105 ∷ 108 ∷ 0 ∷ [] }
    ensures directory { DIRECTORY ≡ 100 ∷ 105 ∷ 114 ∷ 0 ∷ [] }
    ensures gateway { GATEWAY ≡ 115 ∷ 114 ∷ 103 ∷ 0 ∷ [] }
    ensures head { HEAD ≡ 0x42494F5001000000 }
{}
