//! The sizes of objects, and the limits of a generation.
ghost use Rattle.std.specs.Prelude.{◌≡◌, ◌≤◌, ◌<◌, ◌+◌, ℕ, List, [], None, Some, length, map, sum, get_or, IfOk, IfSome, Ok, Err};
ghost use Rattle.std.specs.List.{All, find};
ghost use Rattle.oc_bytes.specs.Outcome.{Gives, MakesList};
ghost use Rattle.generation.specs.Limits.{check_of, limit_cause, unless_passed};
ghost use Rattle.std.specs.Option.{option_map};
ghost use Rattle.generation.specs.Sizes.{large_size};
ghost use Rattle.generation.specs.Publication.{Spot as SpotFields, size_of as size_in, is_large_folder, large_folder, binding_rest as rest_of, binding_size as size_in_folder, gateway_spot, spots_of, sizes_of, limit_of};
ghost use Rattle.path_tree.specs.Trees.{Tree, IsTree};
ghost use Rattle.path_tree.specs.declared.tree.TheConstants.{MOST_CONTENT};
ghost use Rattle.biop_object.specs.declared.written.TheConstants.{FILE_FRONT, FILE_BINDING};
ghost use Rattle.generation.specs.View.{view_spot};
ghost use Rattle.generation.specs.Inner.View.{IsSpotIn, AreSpotsOf, IsWeighed};

use crate::listing::spot_path;
use crate::spots::{Spot, content_of, name_of, spots};
use biop_object::{FILE_BINDING, FILE_FRONT, FOLDER_BINDING, FOLDER_FRONT, MOST_FOLDER_SIZE};
use dsi_dii::MOST_TOTAL_SIZE;
use module_groups::GREATEST_ID;
use module_packer::need;
use oc_bytes::NoMemory;
use path_tree::{Path, Tree};
use std::alloc::{AllocError, Global};
use std::marker::Model;
use thiserror::Error;

/// The most objects of a generation: the gateway, folders and files. This project's own limit.
pub const MOST_OBJECTS: usize = 8_192;

/// The first limit that a tree passes. These limits are this project's own.
#[derive(Debug, Drop, Error)]
pub enum Limit {
    /// More than [`MOST_OBJECTS`] objects (the gateway, folders and files): how many, or the greatest `u32`.
    #[error("there are {0} objects, more than 8,192")]
    TooManyObjects(u32),
    /// A folder whose object has more than [`MOST_FOLDER_SIZE`] bytes: the first such folder in the order of objects.
    #[error("the object of folder {0} has more than 1,048,576 bytes")]
    FolderTooLarge(Path),
    /// More than [`MOST_TOTAL_SIZE`] bytes in all objects: how many.
    #[error("the objects have {0} bytes, more than 268,435,456")]
    TooManyBytes(u64),
    /// More than [`GREATEST_ID`] modules: how many the fresh placement takes.
    #[error("the objects take {0} modules, more than 2,224")]
    TooManyModules(usize),
    /// Out of memory.
    #[error("out of memory")]
    NoMemory,
}

impl From<AllocError> for Limit {
    ghost use Rattle.generation.specs.declared.limit.Limit.TheVariants.{NoMemory};

    ghost from_gives = { λ _ l. l ≡ NoMemory };

    fn from(_: AllocError) -> Limit {
        Limit::NoMemory
    }
}

/// Whether a tree can be a generation, or the first limit that it passes, in the order in which `Limit` lists them.
pub fn check(alloc: Global, tree: &Tree) -> Result<(), Limit>
    ensures { Gives (λ _. 0) limit_cause result (check_of tree.now) }
{
    weigh(alloc, tree)?;
    Ok(())
}

/// A tree that passes no limit, with its objects and their sizes, so that a generation can be made of it without working
/// them out again. Contracts see the tree alone.
#[derive(Drop)]
pub struct Publishable {
    pub(crate) tree: Tree,
    pub(crate) weighed: Weighed,
}

impl Model for Publishable {
    ghost use Rattle.path_tree.specs.Trees.{Tree};
    ghost use Rattle.generation.specs.Inner.View.{IsChecked};

    ghost Value = { Tree };

    ghost view = { λ c. c.tree };

    ghost invariant = { IsChecked };
}

impl Publishable {
    /// The tree.
    pub fn tree(&self) -> &Tree
        ensures tree { result.now ≡ self.now }
        ensures within { limit_of self.now ≡ None }
    {
        &self.tree
    }
}

/// The tree with what `check` works out, or the first limit that it passes, as `check` answers it. A refused tree is
/// given up.
pub fn checked(alloc: Global, tree: Tree) -> Result<Publishable, Limit>
    ensures limit { Gives (λ _. 0) limit_cause result (check_of tree) }
    ensures tree { IfOk result (λ c. c ≡ tree) }
{
    let weighed = weigh(alloc, &tree)?;
    Ok(Publishable { tree, weighed })
}

/// The objects of a tree with their sizes.
#[derive(Drop)]
pub(crate) struct Weighed {
    pub(crate) spots: Vec<Spot>,
    pub(crate) sizes: Vec<u32>,
}

/// The objects of a tree with their sizes, or the first limit that the tree passes.
pub(crate) fn weigh(alloc: Global, tree: &Tree) -> Result<Weighed, Limit>
    ensures limit { Gives (λ _. 0) limit_cause result (check_of tree.now) }
    ensures weighed { IfOk result (IsWeighed tree.now) }
    ensures within { IfOk result (λ _. limit_of tree.now ≡ None) }
{
    let spots = spots(alloc, tree)?;
    if spots.len() > MOST_OBJECTS {
        return Err(Limit::TooManyObjects(u32::try_from(spots.len()).unwrap_or(u32::MAX)));
    }
    let sizes = sizes(alloc, tree, &spots)?;
    check_folders(alloc, tree, &spots, &sizes)?;
    let total = total(&sizes);
    if total > u64::from(MOST_TOTAL_SIZE) {
        return Err(Limit::TooManyBytes(total));
    }
    let modules = need(&sizes);
    if modules > GREATEST_ID {
        return Err(Limit::TooManyModules(modules));
    }
    Ok(Weighed { spots, sizes })
}

/// The objects of a tree that passes no limit, with their sizes.
pub(crate) fn measure(alloc: Global, tree: &Tree) -> Result<Weighed, NoMemory>
    requires { limit_of tree.now ≡ None }
    ensures { IfOk result (IsWeighed tree.now) }
{
    let spots = spots(alloc, tree)?;
    let sizes = sizes(alloc, tree, &spots)?;
    Ok(Weighed { spots, sizes })
}

/// How many bytes the object of a tree's first folder has that has more than [`MOST_FOLDER_SIZE`]: what passes the limit where `check`
/// answers `FolderTooLarge`. None where no folder has more, or where there are more than [`MOST_OBJECTS`] objects. The only refusal is
/// out of memory.
pub fn large_folder_size(alloc: Global, tree: &Tree) -> Result<Option<u32>, NoMemory>
    ensures { IfOk result (λ n. n ≡ large_size tree.now) }
{
    let spots = spots(alloc, tree)?;
    if spots.len() > MOST_OBJECTS {
        return Ok(None);
    }
    let sizes = sizes(alloc, tree, &spots)?;
    Ok(first_large_size(&spots, &sizes))
}

/// The size of the first folder that is too large, where these are the sizes of a tree's objects.
fn first_large_size(spots: &[Spot], sizes: &[u32]) -> Option<u32>
    requires { length sizes.now ≤ length spots.now }
    ensures { (t : Tree)
        → sizes.now ≡ map (size_in (map (view_spot t) spots.now)) (map (view_spot t) spots.now)
        → result ≡ option_map (size_in (map (view_spot t) spots.now))
        (find (is_large_folder (map (view_spot t) spots.now)) (map (view_spot t) spots.now)) }
{
    match first_large(spots, sizes) {
        Some(index) => Some(sizes[index]),
        None => None,
    }
}

/// The number of the first folder that is too large, where these are a tree's objects and their sizes.
fn first_large(spots: &[Spot], sizes: &[u32]) -> Option<usize>
    requires { length sizes.now ≤ length spots.now }
    ensures within { IfSome result (λ i. (i < length sizes.now) × (i < length spots.now)) }
    ensures large { (t : Tree) (all : List SpotFields) → map (view_spot t) spots.now ≡ all
        → sizes.now ≡ map (size_in all) all
        → option_map (λ i. get_or all i gateway_spot) result ≡ find (is_large_folder all) all }
    ensures size { (t : Tree) (all : List SpotFields) → map (view_spot t) spots.now ≡ all
        → sizes.now ≡ map (size_in all) all → option_map (λ i. get_or sizes.now i 0) result
        ≡ option_map (size_in all) (find (is_large_folder all) all) }
{
    for (index, size) in sizes.iter().enumerate() {
        if is_large(spots[index], *size) {
            return Some(index);
        }
    }
    None
}

/// Refuses the first folder that is too large.
fn check_folders(alloc: Global, tree: &Tree, spots: &[Spot], sizes: &[u32]) -> Result<(), Limit>
    requires spots { AreSpotsOf tree.now spots.now }
    requires sizes { sizes.now ≡ sizes_of tree.now }
    ensures { Gives (λ _. 0) limit_cause result
        (unless_passed
        (large_folder (find (is_large_folder (spots_of tree.now)) (spots_of tree.now)))) }
{
    if let Some(index) = first_large(spots, sizes) {
        let path = spot_path(alloc, tree, spots[index])?;
        return Err(Limit::FolderTooLarge(path));
    }
    Ok(())
}

/// Whether an object of a size is a folder that is too large.
fn is_large(spot: Spot, size: u32) -> bool
    ensures { (t : Tree) (spots : List SpotFields)
        → size ≡ size_in spots (view_spot t spot)
        → result ≡ is_large_folder spots (view_spot t spot) }
{
    !spot.whole && size > MOST_FOLDER_SIZE
}

/// The sizes of a tree's objects, in their order: each object adds its binding to the folder that it stands in.
fn sizes(alloc: Global, tree: &Tree, spots: &[Spot]) -> Result<Vec<u32>, NoMemory>
    requires spots { AreSpotsOf tree.now spots.now }
    requires few { length spots.now ≤ MOST_OBJECTS }
    ensures { MakesList result (sizes_of tree.now) }
{
    let mut sizes = own_sizes(alloc, tree, spots)?;
    add_bindings(&mut sizes, tree, spots);
    Ok(sizes)
}

/// Adds each object's binding.
fn add_bindings(sizes: &mut [u32], tree: &Tree, spots: &[Spot])
    requires spots { AreSpotsOf tree.now spots.now }
    requires few { length spots.now ≤ MOST_OBJECTS }
    requires own { sizes.now ≡ map (size_in []) (map (view_spot tree.now) spots.now) }
    requires small { All (λ n. n ≤ FILE_FRONT + MOST_CONTENT) sizes.now }
    ensures { sizes.new ≡ sizes_of tree.now }
{
    for spot in spots {
        add_binding(sizes, tree, *spot);
    }
}

/// Adds an object's binding to the size of its folder. The gateway has neither.
fn add_binding(sizes: &mut [u32], tree: &Tree, spot: Spot)
    requires tree { IsTree tree.now }
    requires spot { IsSpotIn tree.now spot }
    requires folder { (p : ℕ) → spot.parent ≡ Some p → p < length sizes.now }
    requires room { (k : ℕ) → k < length sizes.now
        → get_or sizes.now k 0 + 254 + FILE_BINDING < 4294967296 }
    ensures each { (k : ℕ) → k < length sizes.old
        → get_or sizes.new k 0 ≡ get_or sizes.old k 0 + size_in_folder k (view_spot tree.now spot) }
    ensures small { (k : ℕ) → size_in_folder k (view_spot tree.now spot) ≤ 254 + FILE_BINDING }
{
    if let Some(folder) = spot.parent {
        sizes[folder] += binding_size(tree, spot);
    }
}

/// The sizes of a tree's objects without bindings.
fn own_sizes(alloc: Global, tree: &Tree, spots: &[Spot]) -> Result<Vec<u32>, NoMemory>
    requires { All (IsSpotIn tree.now) spots.now }
    ensures sizes { MakesList result (map (size_in []) (map (view_spot tree.now) spots.now)) }
    ensures small { IfOk result (λ v. All (λ n. n ≤ FILE_FRONT + MOST_CONTENT) v.items) }
{
    let mut sizes = Vec::with_capacity(alloc, spots.len())?;
    for spot in spots {
        sizes.push(own_size(tree, *spot))?;
    }
    Ok(sizes)
}

/// How many bytes an object has without bindings.
fn own_size(tree: &Tree, spot: Spot) -> u32
    requires { IsSpotIn tree.now spot }
    ensures size { result ≡ size_in [] (view_spot tree.now spot) }
    ensures small { result ≤ FILE_FRONT + MOST_CONTENT }
{
    if spot.whole {
        FILE_FRONT + content_of(tree, spot.entry).len() as u32
    } else {
        FOLDER_FRONT
    }
}

/// What the binding of an object other than the gateway takes in its folder.
fn binding_size(tree: &Tree, spot: Spot) -> u32
    requires tree { IsTree tree.now }
    requires spot { IsSpotIn tree.now spot }
    requires named { 1 ≤ spot.names }
    ensures size { result ≡ length (view_spot tree.now spot).name
        + rest_of (view_spot tree.now spot).content }
    ensures small { result ≤ 254 + FILE_BINDING }
{
    let rest = if spot.whole {
        FILE_BINDING
    } else {
        FOLDER_BINDING
    };
    name_of(tree, spot).len() as u32 + rest
}

fn total(sizes: &[u32]) -> u64
    requires { length sizes.now ≤ MOST_OBJECTS }
    ensures { result ≡ sum sizes.now }
{
    sizes.iter().map(|size| u64::from(*size)).sum()
}
