ghost use Rattle.std.specs.Prelude.{◌≡◌, ◌≤◌, ◌<◌, [], length, slice_get, None, Some, IfOk, IfNone, IfSome, IsErrOf, OnOk, OnSome, ◌≢◌, OnErr};
ghost use Rattle.std.specs.BTreeMap.{insert_entry};
ghost use Rattle.std.specs.Option.{option_map};
ghost use Rattle.oc_bytes.specs.Numbers.{IsBytes};
ghost use Rattle.oc_bytes.specs.Outcome.{Gives, MakesList};
ghost use Rattle.path_tree.specs.Edits.{apply_all, apply_cause, fault_of, first_fault, after_edit, path_in, IsEdit};
ghost use Rattle.path_tree.specs.Paths.{IsPath, path_cmp};
ghost use Rattle.path_tree.specs.Inner.Places.{place_in};
ghost use Rattle.path_tree.specs.Trees.{Folder, IfFolder, IsListing, IsTree, NoSuch, node_at, files_in, made_in};

use crate::entries::{
    content_at, first_at, is_folder, is_kept, last_is_above, leads_on, names_below, place_of,
};
use crate::entry::Entry;
use crate::path::{Name, Path};
use oc_bytes::{Blob, NoMemory, are_bytes};
use std::alloc::{AllocError, AllocFailed, Global};
use std::marker::Model;
use thiserror::Error;

/// The most bytes of a file.
pub const MOST_CONTENT: usize = 16_777_216;

/// A change of a tree.
#[derive(Drop)]
pub enum Edit {
    /// The file at the path has these bytes from now on, whether it was there or not.
    Put(Path, Blob),
    /// Removes the file, and each folder above it that is then empty and not kept.
    Remove(Path),
    /// The folder is kept from now on, whether it was there or not.
    MakeFolder(Path),
    /// Removes the kept, empty folder, and each one above it that is then empty and not kept.
    RemoveFolder(Path),
}

impl Edit {
    /// The path of the edit's file or folder.
    pub fn path(&self) -> &Path
        ensures { result.now ≡ path_in self.now }
    {
        match self {
            Edit::Put(path, _)
            | Edit::Remove(path)
            | Edit::MakeFolder(path)
            | Edit::RemoveFolder(path) => path,
        }
    }

    /// The same edit; a file's bytes aren't copied. `Err` is out of memory.
    pub fn share(&self) -> Result<Edit, NoMemory>
        ensures { IfOk result (λ edit. edit ≡ self.now) }
    {
        match self {
            Edit::Put(path, content) => Ok(Edit::Put(path.share()?, content.share()?)),
            Edit::Remove(path) => Ok(Edit::Remove(path.share()?)),
            Edit::MakeFolder(path) => Ok(Edit::MakeFolder(path.share()?)),
            Edit::RemoveFolder(path) => Ok(Edit::RemoveFolder(path.share()?)),
        }
    }
}

/// Why an edit is refused.
#[derive(Clone, Copy, Debug, PartialEq, Eq, Error)]
pub enum EditFault {
    /// No file is at the path to be removed.
    #[error("no file stands at the path")]
    NoSuchFile,
    /// A file is to be put at the root, a kept folder or a folder that isn't empty; or a folder is
    /// to be made at the root or a kept folder.
    #[error("a folder stands at the path")]
    FolderThere,
    /// The path of a put or of a made folder leads through a file.
    #[error("the path leads through a file")]
    ThroughFile,
    /// The file has more than [`MOST_CONTENT`] bytes.
    #[error("the file has more than 16,777,216 bytes")]
    FileTooLarge,
    /// A folder is to be made where a file is.
    #[error("a file stands at the path")]
    FileThere,
    /// No folder is kept at the path to be removed.
    #[error("no folder is kept at the path")]
    NoSuchFolder,
    /// The folder to be removed isn't empty.
    #[error("the folder isn't empty")]
    NotEmpty,
}

/// Why a list of edits is refused.
#[derive(Debug, Drop, Error)]
pub enum ApplyFault {
    /// The first refused edit: its place from 0, and its fault.
    #[error("edit {0}: {1}")]
    Edit(usize, EditFault),
    /// There is no memory.
    #[error("out of memory")]
    NoMemory,
}

impl From<AllocError> for ApplyFault {
    ghost use Rattle.std.specs.Prelude.{◌≡◌};
    ghost use Rattle.path_tree.specs.declared.tree.ApplyFault.TheVariants.{NoMemory};

    ghost from_gives = { λ _ e. e ≡ NoMemory };

    fn from(_error: AllocError) -> ApplyFault {
        ApplyFault::NoMemory
    }
}

/// What is at a path.
#[derive(Drop)]
pub enum Lookup {
    /// A file, and its bytes.
    File(Blob),
    /// A folder, and its names, each once, in byte order. The root is always one.
    Folder(Vec<Name>),
    /// Nothing.
    NoSuch,
}

/// A list of edits, in the order in which they are made.
#[derive(Drop)]
pub struct Edits {
    list: Vec<Edit>,
}

impl Model for Edits {
    ghost use Rattle.std.specs.Prelude.{List};
    ghost use Rattle.path_tree.specs.declared.tree.Edit.{Edit};

    ghost Value = { List Edit };

    ghost view = { λ e. e.list.items };
}

impl Edits {
    /// The list of these edits.
    pub fn new(list: Vec<Edit>) -> Edits
        ensures { result ≡ list.items }
    {
        Edits { list }
    }

    /// The edits in order.
    pub fn list(&self) -> &[Edit]
        ensures { result.now ≡ self.now }
    {
        &self.list
    }
}

/// A tree: a map from paths below the root to files of at most [`MOST_CONTENT`] bytes, and to kept
/// folders. No file's path leads on to another path. Every folder is kept or not empty.
#[derive(Drop)]
pub struct Tree {
    entries: Vec<(Path, Entry)>,
}

impl Model for Tree {
    ghost use Rattle.path_tree.specs.Trees.{Tree, IsTree};

    ghost Value = { Tree };

    ghost view = { λ t. t.entries.items };

    ghost invariant = { λ t. IsTree t.entries.items };
}

impl Tree {
    ghost use Rattle.path_tree.specs.Edits.{view_lookup};
    ghost use Rattle.path_tree.specs.Trees.{content_at, entry_at};

    /// The empty tree.
    pub fn empty(alloc: Global) -> Tree
        ensures { result ≡ [] }
    {
        Tree {
            entries: Vec::new(alloc),
        }
    }

    /// The files and kept folders, in the order of paths: as lists of names, which compare by
    /// bytes.
    pub fn entries(&self) -> &[(Path, Entry)]
        ensures entries { result.now ≡ self.now }
        ensures tree { IsTree self.now }
    {
        &self.entries
    }

    /// The number of files. It takes a time that grows with the number of entries.
    pub fn len(&self) -> usize
        ensures files { result ≡ length (files_in self.now) }
        ensures tree { IsTree self.now }
    {
        count_files(&self.entries)
    }

    /// File number `i` in the order of paths, from 0. It searches from the first entry; for all
    /// files, use `entries`.
    pub fn file(&self, i: usize) -> (&Path, &Blob)
        requires { i < length (files_in self.now) }
        ensures { slice_get (files_in self.now) i ≡ Some (result.0.now, result.1.now) }
    {
        file_at(&self.entries, i).unwrap()
    }

    /// The number of kept folders, counted as by `len`.
    pub fn made_len(&self) -> usize
        ensures folders { result ≡ length (made_in self.now) }
        ensures tree { IsTree self.now }
    {
        count_made(&self.entries)
    }

    /// The path of kept folder number `i` in the order of paths, from 0, sought as by `file`.
    pub fn made(&self, i: usize) -> &Path
        requires { i < length (made_in self.now) }
        ensures { slice_get (made_in self.now) i ≡ Some result.now }
    {
        made_at(&self.entries, i).unwrap()
    }

    /// The place of a path's entry in `entries`, from 0.
    pub fn find(&self, path: &Path) -> Option<usize>
        ensures found { IfSome result (λ i.
            option_map (λ e. e.0) (slice_get self.now i) ≡ Some path.now) }
        ensures none { IfNone result (entry_at self.now path.now ≡ None) }
    {
        let entries = self.entries.as_slice();
        let place = place_of(entries, path);
        match first_at(&entries[place..], path) {
            Some(_) => Some(place),
            None => None,
        }
    }

    /// The bytes of the file at a path.
    pub fn content(&self, path: &Path) -> Option<&Blob>
        ensures { option_map (λ content. content.now) result ≡ content_at self.now path.now }
    {
        content_at(&self.entries, place_of(&self.entries, path), path)
    }

    /// What is at a path. A file's bytes aren't copied. `Err` is out of memory.
    pub fn lookup(&self, path: &Path) -> Result<Lookup, NoMemory>
        ensures node { IfOk result (λ found. view_lookup found ≡ node_at self.now path.now) }
        ensures listing { IfOk result (λ found.
            IfFolder (view_lookup found) (IsListing self.now path.now)) }
        ensures no_memory { OnErr result ((node_at self.now path.now ≢ NoSuch)
            × (node_at self.now path.now ≢ Folder [])) }
    {
        let entries = self.entries.as_slice();
        let place = place_of(entries, path);
        if let Some(content) = content_at(entries, place, path) {
            return Ok(Lookup::File(content.share()?));
        }
        if !is_folder(entries, place, path) {
            return Ok(Lookup::NoSuch);
        }
        let names = names_below(*self.entries.allocator(), entries, place, path)?;
        Ok(Lookup::Folder(names))
    }
}

fn count_files(entries: &[(Path, Entry)]) -> usize
    ensures { result ≡ length (files_in entries.now) }
{
    let mut count = 0;
    for (_, entry) in entries {
        if entry.is_file() {
            count += 1;
        }
    }
    count
}

fn count_made(entries: &[(Path, Entry)]) -> usize
    ensures { result ≡ length (made_in entries.now) }
{
    let mut count = 0;
    for (_, entry) in entries {
        if !entry.is_file() {
            count += 1;
        }
    }
    count
}

fn file_at(entries: &[(Path, Entry)], i: usize) -> Option<(&Path, &Blob)>
    ensures { option_map (λ file. (file.0.now, file.1.now)) result
        ≡ slice_get (files_in entries.now) i }
{
    let mut left = i;
    for (path, entry) in entries {
        if let Entry::File(content) = entry {
            if left == 0 {
                return Some((path, content));
            }
            left -= 1;
        }
    }
    None
}

fn made_at(entries: &[(Path, Entry)], i: usize) -> Option<&Path>
    ensures { option_map (λ path. path.now) result ≡ slice_get (made_in entries.now) i }
{
    let mut left = i;
    for (path, entry) in entries {
        if let Entry::Folder = entry {
            if left == 0 {
                return Some(path);
            }
            left -= 1;
        }
    }
    None
}

fn shared(alloc: Global, entries: &[(Path, Entry)]) -> Result<Vec<(Path, Entry)>, NoMemory>
    ensures { MakesList result entries.now }
{
    let mut copy = Vec::with_capacity(alloc, entries.len())?;
    for (path, entry) in entries {
        copy.push((path.share()?, entry.share()?))?;
    }
    Ok(copy)
}

fn put_fault(
    entries: &[(Path, Entry)],
    place: usize,
    path: &Path,
    content: &Blob,
) -> Option<EditFault>
    // What callers give:
    requires tree { IsTree entries.now }
    requires place { place ≡ place_in entries.now path.now }
    requires within { place ≤ length entries.now }
    // What is answered, and what is so of each path and content:
    ensures fault { result ≡ fault_of entries.now (Edit.Put path.now content.now) }
    ensures path { IsPath path.now }
    ensures content { IsBytes content.now }
{
    are_bytes(content.bytes());
    if is_folder(entries, place, path) {
        Some(EditFault::FolderThere)
    } else if last_is_above(&entries[..place], path) {
        Some(EditFault::ThroughFile)
    } else if content.bytes().len() > MOST_CONTENT {
        Some(EditFault::FileTooLarge)
    } else {
        None
    }
}

fn remove_fault(entries: &[(Path, Entry)], place: usize, path: &Path) -> Option<EditFault>
    requires tree { IsTree entries.now }
    requires place { place ≡ place_in entries.now path.now }
    requires within { place ≤ length entries.now }
    ensures { result ≡ fault_of entries.now (Edit.Remove path.now) }
{
    match content_at(entries, place, path) {
        Some(_) => None,
        None => Some(EditFault::NoSuchFile),
    }
}

fn make_folder_fault(entries: &[(Path, Entry)], place: usize, path: &Path) -> Option<EditFault>
    requires tree { IsTree entries.now }
    requires place { place ≡ place_in entries.now path.now }
    requires within { place ≤ length entries.now }
    ensures fault { result ≡ fault_of entries.now (Edit.MakeFolder path.now) }
    ensures path { IsPath path.now }
{
    if path.len() == 0 {
        return Some(EditFault::FolderThere);
    }
    match first_at(&entries[place..], path) {
        Some(Entry::Folder) => Some(EditFault::FolderThere),
        Some(Entry::File(_)) => Some(EditFault::FileThere),
        None if last_is_above(&entries[..place], path) => Some(EditFault::ThroughFile),
        None => None,
    }
}

fn remove_folder_fault(entries: &[(Path, Entry)], place: usize, path: &Path) -> Option<EditFault>
    requires tree { IsTree entries.now }
    requires place { place ≡ place_in entries.now path.now }
    requires within { place ≤ length entries.now }
    ensures { result ≡ fault_of entries.now (Edit.RemoveFolder path.now) }
{
    if !is_kept(entries, place, path) {
        Some(EditFault::NoSuchFolder)
    } else if leads_on(entries, place, path) {
        Some(EditFault::NotEmpty)
    } else {
        None
    }
}

/// Why an edit, whose path has this place, is refused.
fn refusal(entries: &[(Path, Entry)], place: usize, edit: &Edit) -> Option<EditFault>
    requires tree { IsTree entries.now }
    requires place { place ≡ place_in entries.now (path_in edit.now) }
    requires within { place ≤ length entries.now }
    ensures fault { result ≡ fault_of entries.now edit.now }
    ensures edit { IsEdit edit.now }
{
    match edit {
        Edit::Put(path, content) => put_fault(entries, place, path, content),
        Edit::Remove(path) => remove_fault(entries, place, path),
        Edit::MakeFolder(path) => make_folder_fault(entries, place, path),
        Edit::RemoveFolder(path) => remove_folder_fault(entries, place, path),
    }
}

fn first_refusal(entries: &[(Path, Entry)], edits: &[Edit]) -> Option<EditFault>
    requires { IsTree entries.now }
    ensures { result ≡ first_fault entries.now edits.now }
{
    match edits.first() {
        Some(edit) => refusal(entries, place_of(entries, edit.path()), edit),
        None => None,
    }
}

/// Maps a path, which has this place, to an entry.
fn enter(
    entries: &mut Vec<(Path, Entry)>,
    place: usize,
    path: Path,
    entry: Entry,
) -> Result<(), NoMemory>
    requires place { place ≡ place_in entries.old.items path }
    requires within { place ≤ length entries.old.items }
    ensures { OnOk result (entries.new.items ≡ insert_entry path_cmp entries.old.items path entry) }
{
    if first_at(&entries[place..], &path).is_some() {
        entries[place] = (path, entry);
    } else {
        entries.insert(place, (path, entry))?;
    }
    Ok(())
}

/// Makes an edit that isn't refused.
fn make(entries: &mut Vec<(Path, Entry)>, place: usize, edit: &Edit) -> Result<(), NoMemory>
    requires tree { IsTree entries.old.items }
    requires place { place ≡ place_in entries.old.items (path_in edit.now) }
    requires within { place ≤ length entries.old.items }
    requires no_fault { fault_of entries.old.items edit.now ≡ None }
    ensures { OnOk result (entries.new.items ≡ after_edit entries.old.items edit.now) }
{
    match edit {
        Edit::Put(path, content) => {
            enter(entries, place, path.share()?, Entry::File(content.share()?))
        }
        Edit::MakeFolder(path) => enter(entries, place, path.share()?, Entry::Folder),
        Edit::Remove(_) | Edit::RemoveFolder(_) => {
            entries.remove(place);
            Ok(())
        }
    }
}

/// Makes one edit, or answers why not.
fn apply_one(entries: &mut Vec<(Path, Entry)>, edit: &Edit) -> Result<Option<EditFault>, NoMemory>
    requires { IsTree entries.old.items }
    ensures fault { IfOk result (λ fault. fault ≡ fault_of entries.old.items edit.now) }
    ensures done { IfOk result (λ fault.
        IfNone fault (entries.new.items ≡ after_edit entries.old.items edit.now)) }
    ensures tree { IfOk result (λ fault. IfNone fault (IsTree entries.new.items)) }
    ensures same { IfOk result (λ fault. OnSome fault (entries.new.items ≡ entries.old.items)) }
{
    let place = place_of(entries, edit.path());
    let fault = refusal(entries, place, edit);
    if fault.is_none() {
        make(entries, place, edit)?;
    }
    Ok(fault)
}

/// The tree after all edits in order, or the place and fault of the first that is refused. The old
/// tree shares the files' bytes and stays.
///
/// An edit compares a number of paths that grows with the logarithm of the number of entries.
/// Memory is asked for only after the first edit is checked, so a later refusal may be hidden by a
/// lack of it.
pub fn apply(alloc: Global, tree: &Tree, edits: &[Edit]) -> Result<Tree, ApplyFault>
    ensures applied { Gives (λ t. t) apply_cause result (apply_all tree.now edits.now) }
    ensures tree { IfOk result (λ t. IsTree t) }
    ensures no_memory { IsErrOf result ApplyFault.NoMemory → first_fault tree.now edits.now ≡ None }
{
    if let Some(fault) = first_refusal(&tree.entries, edits) {
        return Err(ApplyFault::Edit(0, fault));
    }
    let mut entries = shared(alloc, &tree.entries)?;
    for (place, edit) in edits.iter().enumerate() {
        if let Some(fault) = apply_one(&mut entries, edit)? {
            return Err(ApplyFault::Edit(place, fault));
        }
    }
    Ok(Tree { entries })
}
