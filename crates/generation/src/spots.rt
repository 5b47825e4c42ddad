//! The objects of a tree, in order, without a copy of their paths.
ghost use Rattle.std.specs.Prelude.{◌≡◌, ◌≤◌, ◌<◌, ◌==◌, ◌&&◌, length, map, take, IfOk};
ghost use Rattle.std.specs.List.{All};
ghost use Rattle.path_tree.specs.Paths.{path_cmp, same_name, shared};
ghost use Rattle.path_tree.specs.Trees.{IsTree, is_a_file, item_at, path_at, bytes_at};
ghost use Rattle.path_tree.specs.declared.tree.TheConstants.{MOST_CONTENT};
ghost use Rattle.generation.specs.Publication.{spots_of};
ghost use Rattle.generation.specs.Inner.Passing.{path_before, spot_at};
ghost use Rattle.generation.specs.View.{view_spot};
ghost use Rattle.generation.specs.Inner.View.{IsSpotIn};

use oc_bytes::NoMemory;
use path_tree::{Entry, MOST_NAMES, Path, Tree};
use std::alloc::Global;
use std::cmp::Ordering;

/// An object of a tree: the first names of the path of one of the tree's entries, and whether it is that entry's file.
/// The gateway is no names of any path. Each object has its number, counted from 0 at the gateway, and the number of the
/// folder that it stands in.
#[derive(Clone, Copy, Debug, PartialEq, Eq)]
pub(crate) struct Spot {
    pub(crate) entry: usize,
    pub(crate) names: usize,
    pub(crate) whole: bool,
    pub(crate) number: usize,
    pub(crate) parent: Option<usize>,
}

impl Spot {
    /// The gateway of any tree.
    pub(crate) const GATEWAY: Spot = Spot {
        entry: 0,
        names: 0,
        whole: false,
        number: 0,
        parent: None,
    };
}

/// The objects of a tree: the gateway first, and then by path, in one pass. Of each entry's path those names are objects that the path
/// before it didn't have, and each stands in the last object of one name less.
pub(crate) fn spots(alloc: Global, tree: &Tree) -> Result<Vec<Spot>, NoMemory>
    ensures spots { IfOk result (λ v. map (view_spot tree.now) v.items ≡ spots_of tree.now) }
    ensures valid { IfOk result (λ v. All (IsSpotIn tree.now) v.items) }
    ensures tree { IfOk result (λ _. IsTree tree.now) }
{
    let entries = tree.entries();
    let mut spots = Vec::new(alloc);
    spots.push(Spot::GATEWAY)?;
    let mut folders = vec![in alloc; 0; MOST_NAMES + 1]?;
    for at in 0..entries.len() {
        for depth in shared_before(entries, at)..entries[at].0.len() {
            let number = spots.len();
            spots.push(spot_of(entries, at, depth, number, folders[depth]))?;
            folders[depth + 1] = number;
        }
    }
    Ok(spots)
}

/// The object of the names of an entry's path up to the one at a depth: the entry itself, or a folder above it.
#[tactic(auto, using(crate::proofs::Spotting::item_is))]
fn spot_of(entries: &[(Path, Entry)], at: usize, depth: usize, number: usize, parent: usize) -> Spot
    requires few { depth < MOST_NAMES }
    requires within { at < length entries.now }
    requires name { depth < length (path_at entries.now at) }
    ensures valid { IsSpotIn entries.now result }
    ensures spot { view_spot entries.now result
        ≡ spot_at (item_at entries.now at) depth number parent }
{
    Spot {
        entry: at,
        names: depth + 1,
        whole: is_file_of(&entries[at], depth + 1),
        number,
        parent: Some(parent),
    }
}

/// Whether an entry is a file whose path has so many names.
fn is_file_of(entry: &(Path, Entry), names: usize) -> bool
    ensures { result ≡ ((length entry.now.0 == names) && is_a_file entry.now.1) }
{
    entry.0.len() == names && entry.1.is_file()
}

/// With how many names an entry's path begins like the path of the entry before it.
fn shared_before(entries: &[(Path, Entry)], at: usize) -> usize
    requires { at < length entries.now }
    ensures shared { result ≡ shared (path_before entries.now at) (path_at entries.now at) }
    ensures within { result ≤ length (path_at entries.now at) }
{
    if at == 0 {
        return 0;
    }
    entries[at - 1].0.shared_names(&entries[at].0)
}

/// The path of one of a tree's entries, which has names: an entry that isn't there has none.
#[tactic(auto, using(crate::proofs::Spotting::item_is))]
pub(crate) fn path_of(tree: &Tree, entry: usize) -> &Path
    requires { 1 ≤ length (path_at tree.now entry) }
    ensures { result.now ≡ path_at tree.now entry }
{
    &tree.entries()[entry].0
}

/// The bytes of one of a tree's entries; a kept folder has none.
#[tactic(auto, using(crate::proofs::Spotting::item_is))]
pub(crate) fn content_of(tree: &Tree, entry: usize) -> &[u8]
    requires entry { entry < length tree.now }
    ensures bytes { result.now ≡ bytes_at tree.now entry }
    ensures small { length result.now ≤ MOST_CONTENT }
{
    match &tree.entries()[entry].1 {
        Entry::File(content) => content.bytes(),
        Entry::Folder => &[],
    }
}

/// The name of an object other than the gateway.
pub(crate) fn name_of(tree: &Tree, spot: Spot) -> &[u8]
    requires tree { IsTree tree.now }
    requires spot { IsSpotIn tree.now spot }
    requires named { 1 ≤ spot.names }
    ensures name { result.now ≡ (view_spot tree.now spot).name }
    ensures range { (1 ≤ length result.now) × (length result.now ≤ 254) }
{
    path_of(tree, spot.entry).name(spot.names - 1)
}

/// Whether two texts of bytes are the same.
pub(crate) fn is_equal(a: &[u8], b: &[u8]) -> bool
    ensures { result ≡ same_name a.now b.now }
{
    a == b
}

/// How the path of an object stands to the path of another in the order of paths, each of its own tree.
pub(crate) fn compare(a_tree: &Tree, a: Spot, b_tree: &Tree, b: Spot) -> Ordering
    requires left { IsSpotIn a_tree.now a }
    requires right { IsSpotIn b_tree.now b }
    ensures { result ≡ path_cmp (view_spot a_tree.now a).path (view_spot b_tree.now b).path }
{
    if a.names == 0 || b.names == 0 {
        return a.names.cmp(&b.names);
    }
    path_of(a_tree, a.entry).compare_first(a.names, path_of(b_tree, b.entry), b.names)
}
