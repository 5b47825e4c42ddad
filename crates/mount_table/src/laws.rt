//! Laws of mounts, as functions that do nothing.
ghost use Rattle.std.specs.Prelude.{◌≡◌};
ghost use Rattle.mount_table.specs.Laws.{OneMountDecides, OnePidDecides, OrderIsFree, PremisesMet, SoundIsAccepted};

use crate::mount::{MOST_MOUNTS, MOST_NAME};

/// The limits of a table, which clauses cite by name.
pub fn limits_are_numbers()
    ensures mounts { MOST_MOUNTS ≡ 16 }
    ensures name { MOST_NAME ≡ 32 }
{}

/// If the packets that parse with one PID are the same in two lists, so are that PID's candidates,
/// each at the same byte of its packet.
pub fn one_pid_decides()
    ensures { OnePidDecides }
{}

/// So answers under a mount depend on its PID's packets alone.
pub fn one_mount_decides()
    ensures { OneMountDecides }
{}

/// Which mounts are accepted: at most 16, each of a sound name and PID, none of them twice.
pub fn sound_is_accepted()
    ensures { SoundIsAccepted }
{}

/// The answers don't depend on the order of the mounts.
pub fn order_is_free()
    ensures { OrderIsFree }
{}

/// The premises of the other laws can be met.
pub fn premises_can_be_met()
    ensures { PremisesMet }
{}
