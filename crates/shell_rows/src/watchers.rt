//! Commands with watchers.
ghost use Rattle.std.specs.Prelude.{◌≡◌};
ghost use Rattle.watch_desk.specs.Wanting.{is_wanted};

use crate::ends::Ends;
use cycle_planner::Weigh;
use folder_store::MemStore;
use path_tree::{Path, PathFault};
use shell_commands::{Status, run_plain};
use std::alloc::{AllocError, Global};
use test_rows::{Row, RowFault};
use watch_desk::Filter;

/// The paths that a row's words are.
pub(crate) fn prefixes_of(alloc: Global, row: &Row<'_>) -> Result<Vec<Path>, RowFault> {
    let mut prefixes = Vec::new(alloc);
    for place in 0..row.len() {
        let prefix = prefix_of(alloc, row.word(place)?)?;
        if prefixes.push(prefix).is_err() {
            return Err(RowFault::NoMemory);
        }
    }
    Ok(prefixes)
}

fn prefix_of(alloc: Global, word: &str) -> Result<Path, RowFault> {
    match Path::parse(alloc, word.as_bytes()) {
        Ok(prefix) => Ok(prefix),
        Err(PathFault::NoMemory) => Err(RowFault::NoMemory),
        Err(_) => Err(RowFault::BadRow),
    }
}

/// The status of a command that has a watcher for each of the prefixes.
pub(crate) fn run_watched(
    alloc: Global,
    words: &[String],
    prefixes: &[Path],
    ends: &mut Ends,
    store: &mut MemStore,
    weigh: Weigh,
) -> Result<Status, AllocError> {
    let mut filters = Vec::new(alloc);
    for prefix in prefixes {
        let own = prefix.share()?;
        let call = Box::new(
            alloc,
            move |path: &Path| -> bool
                ensures { result ≡ is_wanted own path.now }
            { own.is_same(path) || own.is_above(path) },
        )?;
        filters.push(Filter::new(prefix.share()?, call))?;
    }
    let Ends {
        source,
        sink,
        folders,
        notices,
    } = ends;
    Ok(run_plain(
        alloc, words, source, sink, folders, store, notices, weigh, filters,
    ))
}
