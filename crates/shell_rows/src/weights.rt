//! Commands under weights: how often each module is sent in a cycle.
ghost use Rattle.std.specs.Prelude.{◌≡◌, ◌==◌, if◌then◌else◌};

use crate::ends::Ends;
use crate::watchers::run_watched;
use cycle_planner::{GREATEST_ID, Weigh};
use folder_store::MemStore;
use path_tree::Path;
use shell_commands::Status;
use std::alloc::{AllocError, Global};

/// The status of a command under which each module is sent once a cycle, with a watcher for each of the prefixes.
pub(crate) fn run_once(
    alloc: Global,
    words: &[String],
    prefixes: &[Path],
    ends: &mut Ends,
    store: &mut MemStore,
) -> Result<Status, AllocError> {
    let call = Box::new(
        alloc,
        |_id: u16| -> u8
            ensures { result ≡ 1 }
        { 1 },
    )?;
    let weigh = Weigh::new([1; GREATEST_ID], call);
    run_watched(alloc, words, prefixes, ends, store, weigh)
}

/// The status of a command under which module 1 is sent twice a cycle, and each other one once, with a watcher for each of the
/// prefixes.
pub(crate) fn run_first_twice(
    alloc: Global,
    words: &[String],
    prefixes: &[Path],
    ends: &mut Ends,
    store: &mut MemStore,
) -> Result<Status, AllocError> {
    let mut weights = [1; GREATEST_ID];
    weights[0] = 2;
    let call = Box::new(
        alloc,
        |id: u16| -> u8
            ensures { result ≡ (if id == 1 then 2 else 1) }
        { if id == 1 { 2u8 } else { 1u8 } },
    )?;
    let weigh = Weigh::new(weights, call);
    run_watched(alloc, words, prefixes, ends, store, weigh)
}
