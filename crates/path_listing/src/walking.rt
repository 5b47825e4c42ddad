ghost use Rattle.std.specs.Prelude.{◌≡◌, ◌<◌, ◌≤◌, ◌-◌, length, take, option_map, nat_le, IfOk};
ghost use Rattle.path_resolver.specs.Shots.{answers_of};
ghost use Rattle.path_listing.specs.Walk.{all_paths, walk};
ghost use Rattle.path_listing.specs.Inner.Walk.{Lists, folder_in, paths_below, paths_by};

use oc_bytes::NoMemory;
use path_resolver::{Answer, FolderRef, Shot, resolve};
use path_tree::{MOST_NAMES, Path};
use std::alloc::{AllocError, Global};

/// The most paths that are listed.
pub const MOST_LISTED: usize = 65_536;

/// The paths of what a receiver holds.
#[derive(Drop)]
pub struct Listing {
    /// The first of them, at most [`MOST_LISTED`].
    pub paths: Vec<Path>,
    /// Whether these are all.
    pub whole: bool,
}

/// The paths from the root that a shot's folders lead to, of at most [`MOST_NAMES`] names. `Err` is
/// out of memory.
///
/// A path comes before those below it. They follow the bindings, each name at its first one. Names
/// that no `Path` can have are ignored. A folder that leads back to itself gives a path for each
/// way.
pub fn listed_paths(alloc: Global, shot: &Shot) -> Result<Listing, NoMemory>
    ensures paths { IfOk result (λ l.
        l.paths.items ≡ take MOST_LISTED (all_paths (answers_of shot.now))) }
    ensures whole { IfOk result (λ l.
        l.whole ≡ nat_le (length (all_paths (answers_of shot.now))) MOST_LISTED) }
{
    let Ok(root) = Path::parse(alloc, b"/") else {
        return Err(AllocError);
    };
    let mut paths = Vec::new(alloc);
    let whole = list_from(shot, root, &mut paths)?;
    Ok(Listing { paths, whole })
}

/// Lists a path and those below it; false if there wasn't room for all, as in the next two.
#[cycle(list)]
fn list_from(shot: &Shot, path: Path, paths: &mut Vec<Path>) -> Result<bool, NoMemory>
    requires { length paths.old.items ≤ MOST_LISTED }
    ensures { IfOk result (λ whole.
        Lists (walk (answers_of shot.now) (MOST_NAMES - length path) path) paths.old.items
        paths.new.items whole) }
{
    if paths.len() == MOST_LISTED {
        return Ok(false);
    }
    let answer = resolve(shot, &path)?;
    let place = path.share()?;
    paths.push(path)?;
    if place.len() == MOST_NAMES {
        return Ok(true);
    }
    match folder_of(&answer) {
        Some(folder) => list_names(shot, &place, folder, paths),
        None => Ok(true),
    }
}

#[cycle(list)]
fn list_names(
    shot: &Shot,
    path: &Path,
    folder: &FolderRef,
    paths: &mut Vec<Path>,
) -> Result<bool, NoMemory>
    requires room { length path.now < MOST_NAMES }
    requires few { length paths.old.items ≤ MOST_LISTED }
    ensures { IfOk result (λ whole.
        Lists (paths_below (answers_of shot.now) (15 - length path.now) path.now folder.now)
        paths.old.items paths.new.items whole) }
{
    for i in 0..folder.count() {
        let name = folder.name(i);
        if folder.is_first(i) {
            let whole = list_below(shot, path, name, paths)?;
            if !whole {
                return Ok(false);
            }
        }
    }
    Ok(true)
}

#[cycle(list)]
fn list_below(
    shot: &Shot,
    path: &Path,
    name: &[u8],
    paths: &mut Vec<Path>,
) -> Result<bool, NoMemory>
    requires room { length path.now < MOST_NAMES }
    requires few { length paths.old.items ≤ MOST_LISTED }
    ensures { IfOk result (λ whole.
        Lists (paths_by (answers_of shot.now) (15 - length path.now) path.now name.now)
        paths.old.items paths.new.items whole) }
{
    match path.below(name)? {
        Some(below) => list_from(shot, below, paths),
        None => Ok(true),
    }
}

fn folder_of(answer: &Answer) -> Option<&FolderRef>
    ensures { option_map (λ folder. folder.now) result ≡ folder_in answer.now }
{
    match answer {
        Answer::Folder(folder) => Some(folder),
        _ => None,
    }
}
