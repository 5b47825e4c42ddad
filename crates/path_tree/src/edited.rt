ghost use Rattle.std.specs.Prelude.{◌≡◌, ◌≢◌, [], Ok, map, IfOk, OnErr};
ghost use Rattle.oc_bytes.specs.Outcome.{MakesList};
ghost use Rattle.path_tree.specs.Edits.{apply_all, is_edited, AreAsBefore};
ghost use Rattle.path_tree.specs.Trees.{Tree as TreeFiles};

use crate::laws::others_stay;
use crate::tree::{Edit, Tree};
use oc_bytes::NoMemory;
use std::alloc::Global;

/// For each entry, in the order of `Tree::entries`, whether one of the edits names its path. `Err`
/// is out of memory.
///
/// Where `apply` made the tree by these edits, any other file has the bytes it had before.
pub fn edited_entries(alloc: Global, tree: &Tree, edits: &[Edit]) -> Result<Vec<bool>, NoMemory>
    ensures edited { MakesList result (map (λ e. is_edited edits.now e.0) tree.now) }
    ensures as_before { IfOk result (λ v.
        (old : TreeFiles)
        → apply_all old edits.now ≡ Ok tree.now
        → AreAsBefore old tree.now v.items) }
    ensures no_memory { OnErr result (tree.now ≢ []) }
{
    others_stay();
    if tree.entries().is_empty() {
        return Ok(Vec::new(alloc));
    }
    let mut edited = vec![in alloc; false; tree.entries().len()]?;
    for edit in edits {
        if let Some(entry) = tree.find(edit.path()) {
            edited[entry] = true;
        }
    }
    Ok(edited)
}
