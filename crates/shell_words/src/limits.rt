//! The limits as numbers, which clauses cite by name.
ghost use Rattle.std.specs.Prelude.{◌≡◌};

use crate::parsing::{MOST_AIR_CYCLES, MOST_BIG, MOST_BITRATE, MOST_CYCLES};
use crate::table::MOST_MOUNT_NAME;
use crate::values::{MOST_PID, MOST_WATCHED};

/// The limits of the words of commands.
pub fn limits_are_numbers()
    // Of values and names:
    ensures pid { MOST_PID ≡ 8190 }
    ensures watched { MOST_WATCHED ≡ 1024 }
    ensures mount_name { MOST_MOUNT_NAME ≡ 32 }
    // Of what is sent and played:
    ensures cycles { MOST_CYCLES ≡ 1000 }
    ensures air_cycles { MOST_AIR_CYCLES ≡ 4294967295 }
    ensures bitrate { MOST_BITRATE ≡ 4294967295 }
    ensures big { MOST_BIG ≡ 16 }
{}
