//! The objects with their keys and modules, and their bytes.
ghost use Rattle.std.specs.Prelude.{◌≡◌, ◌≤◌, ◌<◌, ◌+◌, ◌++◌, length, map, IfOk, OnOk, false};
ghost use Rattle.std.specs.List.{All, filter};
ghost use Rattle.oc_bytes.specs.Outcome.{MakesList};
ghost use Rattle.path_tree.specs.Trees.{IsTree};
ghost use Rattle.generation.specs.Layouts.{location_of, entries_of, object_bytes as bytes_of, module_bytes as bytes_in, key_bytes, bound_of, greatest};
ghost use Rattle.generation.specs.Inner.Linking.{is_of};
ghost use Rattle.generation.specs.declared.links.By.TheVariants.{Folder, Module};
ghost use Rattle.generation.specs.View.{view_spot, view_placed, objects_in};
ghost use Rattle.generation.specs.Inner.View.{IsChildIn, IsSpotIn, placed_from, AreReady, kind_in};
ghost use Rattle.biop_object.specs.Objects.{folder_spelling, IsEntry};
ghost use Rattle.biop_object.specs.declared.written.TheConstants.{MOST_FOLDER_SIZE};

use crate::links::By;
use crate::ordered::of_key;
use crate::spots::{Spot, content_of, name_of};
use biop_object::{Bound, FolderKind, ObjectFault, Written, encode_file, encode_folder};
use ior_tap::{Key, Location};
use oc_bytes::NoMemory;
use path_tree::{Name, Tree};
use std::alloc::{AllocError, Global};

/// An object with its key and the module that it lies in.
#[derive(Clone, Copy, Debug, PartialEq, Eq)]
pub(crate) struct Placed {
    pub(crate) spot: Spot,
    pub(crate) key: u32,
    pub(crate) module: u16,
}

/// Puts each object together with its key and its module.
pub(crate) fn place_all(
    alloc: Global,
    spots: &[Spot],
    keys: &[u32],
    modules: &[u16],
) -> Result<Vec<Placed>, NoMemory>
    ensures { MakesList result (placed_from spots.now keys.now modules.now) }
{
    spots
        .iter()
        .zip(keys)
        .zip(modules)
        .map(|((spot, key), id)| Placed {
            spot: *spot,
            key: *key,
            module: *id,
        })
        .collect(alloc)
}

/// The four bytes of a key.
fn key_of(alloc: Global, key: u32) -> Result<Key, NoMemory>
    ensures bytes { IfOk result (λ k. k ≡ key_bytes key) }
    ensures four { IfOk result (λ k. length k ≡ 4) }
{
    let bytes = key.to_be_bytes().to_vec(alloc)?;
    Ok(Key::new(bytes))
}

/// A tree with its objects, and these by the folder that each stands in and by the module that each lies in.
#[derive(Drop)]
pub(crate) struct Objects {
    pub(crate) tree: Tree,
    pub(crate) all: Vec<Placed>,
    pub(crate) folders: Vec<Placed>,
    pub(crate) modules: Vec<Placed>,
}

impl Objects {
    /// The objects that stand right in the folder of a number.
    fn in_folder(&self, number: usize) -> &[Placed]
        requires { AreReady self.now }
        ensures { result.now ≡ filter (is_of Folder (number + 1)) self.now.all.items }
    {
        of_key(&By::Folder, &self.folders, number as u128 + 1)
    }

    /// The objects that lie in a module.
    pub(crate) fn in_module(&self, id: u16) -> &[Placed]
        requires { AreReady self.now }
        ensures { result.now ≡ filter (is_of Module id) self.now.all.items }
    {
        of_key(&By::Module, &self.modules, u128::from(id))
    }
}

/// The greatest id of a module in which an object lies.
pub(crate) fn last_module(objects: &[Placed]) -> u16
    ensures { result ≡ greatest (map (λ o. o.module) objects.now) }
{
    let mut last = 0;
    for object in objects {
        last = object.module.max(last);
    }
    last
}

/// The bindings of the folder of a number: the objects that stand right in it.
fn entries(
    alloc: Global,
    carousel: u32,
    objects: &Objects,
    folder: usize,
) -> Result<Vec<Written>, NoMemory>
    requires { AreReady objects.now }
    ensures valid { IfOk result (λ v. All IsEntry v.items) }
    ensures entries { MakesList result (entries_of carousel (objects_in objects.now) folder) }
{
    let members = objects.in_folder(folder);
    let mut entries = Vec::new(alloc);
    for child in members {
        entries.push(written(alloc, carousel, &objects.tree, *child)?)?;
    }
    Ok(entries)
}

/// The binding of an object other than the gateway.
fn written(alloc: Global, carousel: u32, tree: &Tree, object: Placed) -> Result<Written, NoMemory>
    requires tree { IsTree tree.now }
    requires object { IsChildIn tree.now object }
    ensures valid { IfOk result IsEntry }
    ensures written { IfOk result (λ w.
        w ≡ record {
          name = (view_spot tree.now object.spot).name;
          bound = bound_of
              (view_spot tree.now object.spot).content;
          location = location_of carousel
              (view_placed tree.now object);
        }) }
{
    let bound = if object.spot.whole {
        Bound::File(content_of(tree, object.spot.entry).len() as u64)
    } else {
        Bound::Folder
    };
    let key = key_of(alloc, object.key)?;
    let location = Location {
        carousel,
        module: object.module,
        key,
    };
    let name = Name::new(name_of(tree, object.spot).to_vec(alloc)?);
    Ok(Written {
        name,
        bound,
        location,
    })
}

/// The bytes of an object.
fn object_bytes(
    alloc: Global,
    carousel: u32,
    objects: &Objects,
    object: Placed,
) -> Result<Vec<u8>, NoMemory>
    requires ready { AreReady objects.now }
    requires object { IsSpotIn objects.now.tree object.spot }
    requires small { object.spot.whole ≡ false
        → length (bytes_of carousel (objects_in objects.now)
        (view_placed objects.now.tree object)) ≤ MOST_FOLDER_SIZE }
    ensures { MakesList result
        (bytes_of carousel (objects_in objects.now) (view_placed objects.now.tree object)) }
{
    let key = key_of(alloc, object.key)?;
    if object.spot.whole {
        return encode_file(alloc, &key, content_of(&objects.tree, object.spot.entry));
    }
    let entries = entries(alloc, carousel, objects, object.spot.number)?;
    folder_bytes(alloc, object.spot.names, &key, &entries)
}

/// The bytes of a folder; the gateway is the folder of no names.
fn folder_bytes(
    alloc: Global,
    names: usize,
    key: &Key,
    entries: &[Written],
) -> Result<Vec<u8>, NoMemory>
    requires key { length key.now ≡ 4 }
    requires entries { All IsEntry entries.now }
    requires small { length (folder_spelling (kind_in names) key.now entries.now)
        ≤ MOST_FOLDER_SIZE }
    ensures { MakesList result (folder_spelling (kind_in names) key.now entries.now) }
{
    let kind = if names == 0 {
        FolderKind::Gateway
    } else {
        FolderKind::Directory
    };
    match encode_folder(alloc, kind, key, entries) {
        Ok(bytes) => Ok(bytes),
        Err(ObjectFault::NoMemory) => Err(AllocError),
        Err(ObjectFault::TooLarge) => unreachable!(),
    }
}

/// The bytes of a module: those of its objects, one after another.
pub(crate) fn module_bytes(
    alloc: Global,
    carousel: u32,
    objects: &Objects,
    id: u16,
) -> Result<Vec<u8>, NoMemory>
    requires { AreReady objects.now }
    ensures { MakesList result (bytes_in carousel (objects_in objects.now) id) }
{
    let members = objects.in_module(id);
    let mut bytes = Vec::new(alloc);
    for object in members {
        append(&mut bytes, object_bytes(alloc, carousel, objects, *object)?)?;
    }
    Ok(bytes)
}

/// Puts bytes after others; the first bytes become the whole, without a copy.
fn append(bytes: &mut Vec<u8>, more: Vec<u8>) -> Result<(), NoMemory>
    ensures { OnOk result (bytes.new.items ≡ bytes.old.items ++ more.items) }
{
    if bytes.is_empty() {
        *bytes = more;
        return Ok(());
    }
    bytes.extend_from_slice(&more)
}
