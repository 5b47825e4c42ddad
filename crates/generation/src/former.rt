//! What objects had in the generation before: their keys and their modules.

ghost use Rattle.std.specs.Prelude.{◌≡◌, ◌&&◌, None, Some, cond, map, take, IfOk};
ghost use Rattle.std.specs.List.{All, zip};
ghost use Rattle.std.specs.Option.{option_map};
ghost use Rattle.std.specs.Ordering.{is_eq};
ghost use Rattle.oc_bytes.specs.Outcome.{MakesList};
ghost use Rattle.generation.specs.Publication.{AreRising};
ghost use Rattle.path_tree.specs.Trees.{Tree as TreeFiles};
ghost use Rattle.generation.specs.Layouts.{key_in as key_of, module_of, old_keys, old_modules, placed_at, same_kind};
ghost use Rattle.generation.specs.Inner.Merging.{AreBefore};
ghost use Rattle.generation.specs.View.{view_spot, view_placed, all_placed};
ghost use Rattle.generation.specs.Inner.View.{IsSpotIn};
ghost use Rattle.module_packer.specs.Kept.{AreObjects, kept_modules};
ghost use Rattle.module_groups.specs.declared.TheConstants.{GREATEST_ID};

use crate::objects::Placed;
use crate::spots::{Spot, compare};
use module_packer::place;
use oc_bytes::NoMemory;
use path_tree::Tree;
use std::alloc::Global;
use std::cmp::Ordering;

/// The keys and the modules that objects had before, where an object of the same path and kind was there.
#[derive(Drop)]
pub(crate) struct Former {
    pub(crate) keys: Vec<Option<u32>>,
    pub(crate) modules: Vec<Option<u16>>,
}

/// What each of a tree's objects had among the objects of another tree, in the tree's order. Both stand in the order of
/// paths, so it is one pass over both.
pub(crate) fn former_of(
    alloc: Global,
    old: &[Placed],
    old_tree: &Tree,
    spots: &[Spot],
    tree: &Tree,
) -> Result<Former, NoMemory>
    requires old { All (λ o. IsSpotIn old_tree.now o.spot) old.now }
    requires old_rising { AreRising (map (λ o. o.spot) (all_placed old_tree.now old.now)) }
    requires spots { All (IsSpotIn tree.now) spots.now }
    requires rising { AreRising (map (view_spot tree.now) spots.now) }
    ensures keys { IfOk result (λ f.
        f.keys.items
        ≡ old_keys (all_placed old_tree.now old.now) (map (view_spot tree.now) spots.now)) }
    ensures modules { IfOk result (λ f.
        f.modules.items
        ≡ old_modules (all_placed old_tree.now old.now) (map (view_spot tree.now) spots.now)) }
{
    let mut keys = Vec::new(alloc);
    let mut modules = Vec::new(alloc);
    let mut place = 0;
    for spot in spots {
        let (object, from_here) = seek(old, place, old_tree, *spot, tree);
        keys.push(key_in(object))?;
        modules.push(module_in(object))?;
        place = from_here;
    }
    Ok(Former { keys, modules })
}

/// The object of a spot's path and kind among objects in the order of paths, and the place of the first that doesn't come
/// before that path. Those before the place where it begins to look do.
fn seek(
    old: &[Placed],
    from: usize,
    old_tree: &Tree,
    spot: Spot,
    tree: &Tree,
) -> (Option<Placed>, usize)
    requires old { All (λ o. IsSpotIn old_tree.now o.spot) old.now }
    requires rising { AreRising (map (λ o. o.spot) (all_placed old_tree.now old.now)) }
    requires spot { IsSpotIn tree.now spot }
    requires before { AreBefore old_tree.now (view_spot tree.now spot).path (take from old.now) }
    ensures object { option_map (view_placed old_tree.now) result.0
        ≡ placed_at (all_placed old_tree.now old.now) (view_spot tree.now spot) }
    ensures before { AreBefore old_tree.now (view_spot tree.now spot).path
        (take result.1 old.now) }
{
    for place in from..old.len() {
        let object = old[place];
        match compare(old_tree, object.spot, tree, spot) {
            Ordering::Less => {}
            order => return (if_there(order, object, spot), place),
        }
    }
    (None, old.len())
}

/// The key of an object, if there is one.
fn key_in(object: Option<Placed>) -> Option<u32>
    ensures { (t : TreeFiles) → result ≡ key_of (option_map (view_placed t) object) }
{
    Some(object?.key)
}

/// The module of an object, if there is one.
fn module_in(object: Option<Placed>) -> Option<u16>
    ensures { (t : TreeFiles) → result ≡ module_of (option_map (view_placed t) object) }
{
    Some(object?.module)
}

/// An object that stands in this order to a spot's path, where that is the path, and of the spot's kind.
fn if_there(order: Ordering, object: Placed, spot: Spot) -> Option<Placed>
    ensures { (t u : TreeFiles)
        → result
        ≡ cond (is_eq order
        && same_kind (view_spot t object.spot).content (view_spot u spot).content)
        (Some object) None }
{
    match (order, object.spot.whole, spot.whole) {
        (Ordering::Equal, true, true) | (Ordering::Equal, false, false) => Some(object),
        _ => None,
    }
}

/// The module of each object: the one where it was, as far as there is room.
pub(crate) fn modules(
    alloc: Global,
    sizes: &[u32],
    former: &[Option<u16>],
) -> Result<Vec<u16>, NoMemory>
    requires { AreObjects GREATEST_ID (zip sizes.now former.now) }
    ensures { MakesList result (kept_modules GREATEST_ID (zip sizes.now former.now)) }
{
    let objects = with_former(alloc, sizes, former)?;
    place(alloc, &objects)
}

/// Each size beside the module of that object.
fn with_former(
    alloc: Global,
    sizes: &[u32],
    former: &[Option<u16>],
) -> Result<Vec<(u32, Option<u16>)>, NoMemory>
    ensures { MakesList result (zip sizes.now former.now) }
{
    sizes
        .iter()
        .zip(former)
        .map(|(size, module)| (*size, *module))
        .collect(alloc)
}
