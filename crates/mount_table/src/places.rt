ghost use Rattle.std.specs.Prelude.{◌≡◌, IfOk};
ghost use Rattle.mount_table.specs.Inner.Places.{pids_of, AreApart, ArePlaces};

use crate::mount::Mount;
use oc_bytes::NoMemory;
use std::alloc::Global;

/// How many PIDs 13 bits of a header give (ISO/IEC 13818-1, 2.4.3.2).
const PIDS: usize = 8192;

/// For each PID the place of its mount.
pub fn places_of(alloc: Global, mounts: &[Mount]) -> Result<Vec<Option<u8>>, NoMemory>
    requires { AreApart mounts.now }
    ensures { IfOk result (λ places. ArePlaces (pids_of mounts.now) places.items) }
{
    let mut places = vec![in alloc; None; PIDS]?;
    for (place, mount) in mounts.iter().enumerate() {
        places[usize::from(mount.pid)] = Some(place as u8);
    }
    Ok(places)
}
