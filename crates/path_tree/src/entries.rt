//! Searches in entries in the order of paths. What is below a path follows it directly; a file that
//! it leads through comes directly before it. `place` is the path's place among the entries.
ghost use Rattle.std.specs.Prelude.{◌≡◌, ◌≢◌, ◌≤◌, ◌||◌, ◌==◌, [], length, OnOk, OnErr};
ghost use Rattle.std.specs.List.{dedup};
ghost use Rattle.std.specs.Option.{option_map};
ghost use Rattle.oc_bytes.specs.Outcome.{MakesList};
ghost use Rattle.path_tree.specs.Paths.{same_name, IsPath};
ghost use Rattle.path_tree.specs.Trees.{IsTree, is_kept, entry_at, content_at, leads_on, is_folder, next_names, names_below};
ghost use Rattle.path_tree.specs.Inner.Places.{place_in, first_at, beyond, first_is_below, last_is_above, count_below, last_name_is, with_name};

use crate::entry::Entry;
use crate::path::{Name, Path, same_bytes};
use oc_bytes::{Blob, NoMemory};
use std::alloc::Global;

pub(crate) fn place_of(entries: &[(Path, Entry)], path: &Path) -> usize
    requires { IsTree entries.now }
    ensures place { result ≡ place_in entries.now path.now }
    ensures within { result ≤ length entries.now }
{
    entries.partition_point(|entry| entry.0.compare(path).is_lt())
}

/// The first of these entries, if it is at the path.
pub(crate) fn first_at<'a>(entries: &'a [(Path, Entry)], path: &Path) -> Option<&'a Entry>
    ensures { option_map (λ entry. entry.now) result ≡ first_at entries.now path.now }
{
    match entries {
        [(first, entry), ..] if path.is_same(first) => Some(entry),
        _ => None,
    }
}

/// These entries without a first one at the path.
fn beyond<'a>(entries: &'a [(Path, Entry)], path: &Path) -> &'a [(Path, Entry)]
    ensures { result.now ≡ beyond entries.now path.now }
{
    match entries {
        [(first, _), rest @ ..] if path.is_same(first) => rest,
        _ => entries,
    }
}

fn first_is_below(entries: &[(Path, Entry)], path: &Path) -> bool
    ensures { result ≡ first_is_below entries.now path.now }
{
    match entries {
        [(first, _), ..] => path.is_above(first),
        [] => false,
    }
}

/// Whether the last of these entries is a file that the path leads through.
pub(crate) fn last_is_above(entries: &[(Path, Entry)], path: &Path) -> bool
    ensures { result ≡ last_is_above entries.now path.now }
{
    match entries {
        [.., (last, entry)] => entry.is_file() && last.is_above(path),
        [] => false,
    }
}

/// Whether something is below the path.
pub(crate) fn leads_on(entries: &[(Path, Entry)], place: usize, path: &Path) -> bool
    requires tree { IsTree entries.now }
    requires place { place ≡ place_in entries.now path.now }
    requires within { place ≤ length entries.now }
    ensures { result ≡ leads_on entries.now path.now }
{
    first_is_below(beyond(&entries[place..], path), path)
}

/// The bytes of the file at the path.
pub(crate) fn content_at<'a>(
    entries: &'a [(Path, Entry)],
    place: usize,
    path: &Path,
) -> Option<&'a Blob>
    requires tree { IsTree entries.now }
    requires place { place ≡ place_in entries.now path.now }
    requires within { place ≤ length entries.now }
    ensures { option_map (λ content. content.now) result ≡ content_at entries.now path.now }
{
    match first_at(&entries[place..], path) {
        Some(Entry::File(content)) => Some(content),
        _ => None,
    }
}

pub(crate) fn is_kept(entries: &[(Path, Entry)], place: usize, path: &Path) -> bool
    requires tree { IsTree entries.now }
    requires place { place ≡ place_in entries.now path.now }
    requires within { place ≤ length entries.now }
    ensures { result ≡ is_kept (entry_at entries.now path.now) }
{
    matches!(first_at(&entries[place..], path), Some(Entry::Folder))
}

/// Whether the path is the root, a kept folder, or above another path.
pub(crate) fn is_folder(entries: &[(Path, Entry)], place: usize, path: &Path) -> bool
    requires tree { IsTree entries.now }
    requires place { place ≡ place_in entries.now path.now }
    requires within { place ≤ length entries.now }
    ensures folder { result ≡ is_folder entries.now path.now }
    ensures path { IsPath path.now }
{
    path.len() == 0 || is_kept(entries, place, path) || leads_on(entries, place, path)
}

/// How many of the first entries are below the path.
fn count_below(entries: &[(Path, Entry)], path: &Path) -> usize
    ensures count { result ≡ count_below entries.now path.now }
    ensures within { result ≤ length entries.now }
{
    for (i, (entry, _)) in entries.iter().enumerate() {
        if !path.is_above(entry) {
            return i;
        }
    }
    entries.len()
}

fn last_name_is(names: &[Name], name: &[u8]) -> bool
    ensures { result ≡ last_name_is names.now name.now }
{
    match names {
        [.., last] => same_bytes(name, last.bytes()),
        [] => false,
    }
}

/// Adds a name, unless it is the last already.
fn list_name(names: &mut Vec<Name>, name: &Name) -> Result<(), NoMemory>
    ensures { OnOk result (names.new.items ≡ with_name names.old.items name.now) }
{
    if !last_name_is(names, name.bytes()) {
        names.push(name.copy()?)?;
    }
    Ok(())
}

/// The next names, each once, where all entries are below the path.
fn next_names(alloc: Global, entries: &[(Path, Entry)], path: &Path) -> Result<Vec<Name>, NoMemory>
    ensures names { MakesList result (dedup same_name (next_names entries.now path.now)) }
    ensures no_memory { OnErr result (next_names entries.now path.now ≢ []) }
{
    let mut names = Vec::new(alloc);
    for (entry, _) in entries {
        if let Some(name) = path.next_below(entry) {
            list_name(&mut names, name)?;
        }
    }
    Ok(names)
}

/// The next names below a path, each once, in byte order.
pub(crate) fn names_below(
    alloc: Global,
    entries: &[(Path, Entry)],
    place: usize,
    path: &Path,
) -> Result<Vec<Name>, NoMemory>
    requires tree { IsTree entries.now }
    requires place { place ≡ place_in entries.now path.now }
    requires within { place ≤ length entries.now }
    ensures names { MakesList result (names_below entries.now path.now) }
    ensures no_memory { OnErr result (names_below entries.now path.now ≢ []) }
{
    let behind = beyond(&entries[place..], path);
    next_names(alloc, &behind[..count_below(behind, path)], path)
}
