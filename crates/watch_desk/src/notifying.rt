//! The notices of a shot.

ghost use Rattle.std.specs.Prelude.{◌≡◌, ◌≤◌, ◌<◌, ◌++◌, ◌&&◌, length, OnOk, OnErr};
ghost use Rattle.oc_bytes.specs.Outcome.{MakesList};
ghost use Rattle.watch_desk.specs.Prefixes.{prefixes_of};
ghost use Rattle.watch_desk.specs.Inner.Showing.{told_from, told_to_all};
ghost use Rattle.watch_desk.specs.Wanting.{is_wanted};
ghost use Rattle.watch_desk.specs.declared.TheConstants.{MOST_FILTERS, MOST_WATCHED};

use crate::filter::Filter;
use crate::notice::Notice;
use oc_bytes::NoMemory;
use path_tree::Path;
use std::alloc::Global;

/// The notices to each watcher of the paths that changed: `changed` says of each whether it did.
pub(crate) fn notify_all(
    alloc: Global,
    filters: &[Filter],
    paths: &[Path],
    changed: &[bool],
) -> Result<Vec<Notice>, NoMemory>
    requires filters { length filters.now ≤ MOST_FILTERS }
    requires paths { length paths.now ≤ MOST_WATCHED }
    requires changed { length changed.now ≡ length paths.now }
    ensures told { MakesList result
        (told_to_all 0 (prefixes_of filters.now) paths.now changed.now) }
    ensures memory { OnErr result (0 < length paths.now) }
{
    let mut notices = Vec::new(alloc);
    for (watcher, filter) in filters.iter().enumerate() {
        notify(watcher as u32, filter, paths, changed, &mut notices)?;
    }
    Ok(notices)
}

/// Puts the notices to one watcher after the others.
fn notify(
    watcher: u32,
    filter: &Filter,
    paths: &[Path],
    changed: &[bool],
    notices: &mut Vec<Notice>,
) -> Result<(), NoMemory>
    requires paths { length paths.now ≤ MOST_WATCHED }
    requires changed { length changed.now ≡ length paths.now }
    ensures told { OnOk result (notices.new.items
        ≡ notices.old.items ++ told_from watcher filter.now.prefix 0 paths.now changed.now) }
    ensures memory { OnErr result (0 < length paths.now) }
{
    for (i, path) in paths.iter().enumerate() {
        if is_told(filter, path, changed[i]) {
            let path = i as u32;
            notices.push(Notice { watcher, path })?;
        }
    }
    Ok(())
}

/// Whether a watcher is told of a path, which may have changed.
fn is_told(filter: &Filter, path: &Path, changed: bool) -> bool
    ensures { result ≡ (changed && is_wanted filter.now.prefix path.now) }
{
    changed && filter.wants(path)
}
