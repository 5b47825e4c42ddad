//! Which modules stay as they were: those of files that no edit names.

ghost use Rattle.std.specs.Prelude.{◌≡◌, ◌≤◌, ◌<◌, ◌++◌, List, ℕ, map, true, get_or, IfOk, IfSome};
ghost use Rattle.std.specs.List.{All};
ghost use Rattle.path_tree.specs.Edits.{AreAsBefore};
ghost use Rattle.path_tree.specs.Trees.{IsTree};
ghost use Rattle.generation.specs.Layouts.{Placed as PlacedState, object_bytes};
ghost use Rattle.generation.specs.Inner.Stays.{SameModules, bytes_of_all};
ghost use Rattle.generation.specs.View.{view_placed, objects_in};
ghost use Rattle.generation.specs.Inner.View.{IsSpotIn, AreReady};

use crate::objects::{Objects, Placed, last_module};
use crate::spots::compare;
use oc_bytes::NoMemory;
use path_tree::Tree;
use std::alloc::Global;

/// Of each module's id, whether the module has the same objects as before, all of them files that are as before.
pub(crate) fn modules_that_stay(
    alloc: Global,
    old: &Objects,
    objects: &Objects,
    named: &[bool],
) -> Result<Vec<bool>, NoMemory>
    requires old { AreReady old.now }
    requires objects { AreReady objects.now }
    requires named { AreAsBefore old.now.tree objects.now.tree named.now }
    ensures { IfOk result (λ v.
        SameModules (objects_in old.now) (objects_in objects.now) v.items) }
{
    let mut staying = Vec::new(alloc);
    for id in 0..last_module(&objects.all) + 1 {
        let before = old.in_module(id);
        let after = objects.in_module(id);
        staying.push(are_same_files(&old.tree, before, &objects.tree, after, named))?;
    }
    Ok(staying)
}

/// Whether objects are the files that others are, one after another, and no edit names any of them.
fn are_same_files(
    old_tree: &Tree,
    before: &[Placed],
    tree: &Tree,
    after: &[Placed],
    named: &[bool],
) -> bool
    requires old_tree { IsTree old_tree.now }
    requires before { All (λ o. IsSpotIn old_tree.now o.spot) before.now }
    requires after { All (λ o. IsSpotIn tree.now o.spot) after.now }
    requires named { AreAsBefore old_tree.now tree.now named.now }
    ensures { result ≡ true
        → (c : ℕ) (olds objects : List PlacedState)
        → bytes_of_all c olds old_tree.now before.now ≡ bytes_of_all c objects tree.now after.now }
{
    if before.len() != after.len() {
        return false;
    }
    for (place, object) in after.iter().enumerate() {
        if !is_same_file(old_tree, before[place], tree, *object, named) {
            return false;
        }
    }
    true
}

/// Whether two objects are one file under one key, and no edit names it.
fn is_same_file(
    old_tree: &Tree,
    before: Placed,
    tree: &Tree,
    object: Placed,
    named: &[bool],
) -> bool
    requires old_tree { IsTree old_tree.now }
    requires before { IsSpotIn old_tree.now before.spot }
    requires object { IsSpotIn tree.now object.spot }
    requires named { AreAsBefore old_tree.now tree.now named.now }
    ensures { result ≡ true
        → (c : ℕ) (olds objects : List PlacedState)
        → object_bytes c olds (view_placed old_tree.now before)
        ≡ object_bytes c objects (view_placed tree.now object) }
{
    if !before.spot.whole || !object.spot.whole || before.key != object.key {
        return false;
    }
    if is_named(named, object.spot.entry) {
        return false;
    }
    compare(old_tree, before.spot, tree, object.spot).is_eq()
}

/// Whether an entry may have changed: it is flagged, or it has no flag.
fn is_named(named: &[bool], entry: usize) -> bool
    ensures { result ≡ get_or named.now entry true }
{
    entry >= named.len() || named[entry]
}
