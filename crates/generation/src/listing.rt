//! The objects of a generation as callers see them.
ghost use Rattle.std.specs.Prelude.{◌≡◌, [], map, IfOk};
ghost use Rattle.std.specs.List.{All};
ghost use Rattle.oc_bytes.specs.Outcome.{MakesList};
ghost use Rattle.path_tree.specs.Trees.{IsTree};
ghost use Rattle.generation.specs.Objects.{kind_of, object_of};
ghost use Rattle.generation.specs.View.{view_placed, view_spot, all_placed};
ghost use Rattle.generation.specs.Inner.View.{IsSpotIn};

use crate::objects::Placed;
use crate::spots::{Spot, content_of, path_of};
use oc_bytes::NoMemory;
use path_tree::{Path, Tree};
use std::alloc::{AllocError, Global};

/// What an object of a generation is.
#[derive(Clone, Copy, Debug, PartialEq, Eq)]
pub enum ObjectKind {
    /// A file of so many bytes, at most [`path_tree::MOST_CONTENT`].
    File(usize),
    /// A folder, or the gateway.
    Folder,
}

/// An object of a generation: the gateway, a folder or a file.
#[derive(Drop)]
pub struct Object {
    /// Its path. The gateway's is the root.
    pub path: Path,
    /// What it is.
    pub kind: ObjectKind,
    /// The id of the module that it lies in, 1 to [`module_groups::GREATEST_ID`].
    pub module: u16,
}

/// Each of a tree's objects.
pub(crate) fn list_objects(
    alloc: Global,
    tree: &Tree,
    objects: &[Placed],
) -> Result<Vec<Object>, NoMemory>
    requires tree { IsTree tree.now }
    requires spots { All (λ o. IsSpotIn tree.now o.spot) objects.now }
    ensures { MakesList result (map object_of (all_placed tree.now objects.now)) }
{
    let mut list = Vec::new(alloc);
    for object in objects {
        list.push(list_object(alloc, tree, *object)?)?;
    }
    Ok(list)
}

fn list_object(alloc: Global, tree: &Tree, object: Placed) -> Result<Object, NoMemory>
    requires tree { IsTree tree.now }
    requires spot { IsSpotIn tree.now object.spot }
    ensures { IfOk result (λ o. o ≡ object_of (view_placed tree.now object)) }
{
    Ok(Object {
        path: spot_path(alloc, tree, object.spot)?,
        kind: spot_kind(tree, object.spot),
        module: object.module,
    })
}

fn spot_kind(tree: &Tree, spot: Spot) -> ObjectKind
    requires tree { IsTree tree.now }
    requires spot { IsSpotIn tree.now spot }
    ensures { result ≡ kind_of (view_spot tree.now spot).content }
{
    if spot.whole {
        ObjectKind::File(content_of(tree, spot.entry).len())
    } else {
        ObjectKind::Folder
    }
}

/// The path of an object. The gateway's is the root, also in a tree in which nothing stands.
#[tactic(auto, using(crate::proofs::Spotting::path_at_within))]
pub(crate) fn spot_path(alloc: Global, tree: &Tree, spot: Spot) -> Result<Path, NoMemory>
    requires { IsSpotIn tree.now spot }
    ensures { IfOk result (λ p. p ≡ (view_spot tree.now spot).path) }
{
    if spot.names == 0 {
        return root(alloc);
    }
    path_of(tree, spot.entry).above(spot.names)
}

fn root(alloc: Global) -> Result<Path, NoMemory>
    ensures { IfOk result (λ p. p ≡ []) }
{
    match Path::parse(alloc, b"/") {
        Ok(path) => Ok(path),
        Err(_) => Err(AllocError),
    }
}
