ghost use Rattle.std.specs.Prelude.{◌≡◌, ◌≤◌, ◌<◌, ◌+◌, ◌-◌, ◌^◌, ◌++◌, ◌⊎◌, [], ◌∷◌, Some, None, Ok, Err, true, false, length, map, take, nat_lt, IfOk, OnOk, IsErrOf};
ghost use Rattle.std.specs.String.{string_bytes};
ghost use Rattle.oc_bytes.specs.Outcome.{Faulted};
ghost use Rattle.path_tree.specs.Paths.{Bytes};
ghost use Rattle.path_tree.specs.Texts.{is_name};
ghost use Rattle.folder_store.specs.Folders.{Entry, AFile, FolderTree, IsFolderTree, is_folder_at, kind_of, entry_at, content_of, view_entry, IsRefused, MayFail, IsNoFolder, WhereTold};
ghost use Rattle.folder_store.specs.Walk.{PutsFiles, edits_of, met_below, met_or_made, text_below, IsTooDeep, IsBadName};
ghost use Rattle.folder_store.specs.Inner.Gathering.{IsSortedListing, Walks, met_one, kind_at};
ghost use Rattle.folder_store.specs.Surveys.{at_in, first_large, marks_below, text_at};
ghost use Rattle.folder_store.specs.Inner.Sighting.{Tells, look_in, marks_one, with_file};

use crate::folders::{EntryKind, FolderEntry, FolderFault, Folders};
use crate::sights::Sights;
use crate::surveying::survey;
use generation_catalogue::{MOST_PUT_BYTES, Refusal};
use oc_bytes::{Blob, NoMemory};
use path_tree::{Edit, MOST_CONTENT, MOST_NAMES, Path};
use std::alloc::{AllocError, AllocFailed, Global};
use thiserror::Error;

/// The most bytes read of one file: one more than allowed, so that a commit refuses a longer one.
pub(crate) const MOST_READ: usize = MOST_CONTENT + 1;

/// Why a folder isn't published.
#[derive(Debug, Drop, Error)]
pub enum TreeFault {
    /// A file or folder would have a path of more than 16 names.
    #[error("a file or a folder stands below more than 16 folders")]
    TooDeep,
    /// A name that no path has: empty, over 254 bytes, or with a zero byte or `/`.
    #[error("a file or a folder has a name that no path has")]
    BadName,
    /// The commit of the edits is refused.
    #[error("the commit is refused: {0}")]
    Commit(Refusal),
}

/// Why a folder isn't read.
#[derive(Clone, Copy, Debug, PartialEq, Eq, Error)]
pub enum ReadTree {
    /// A fault of the outside, or the path is no folder of it.
    #[error("the folder could not be read")]
    FolderFault,
    /// A file or folder would have a path of more than 16 names.
    #[error("a file or a folder stands below more than 16 folders")]
    TooDeep,
    /// A name that no path has: empty, over 254 bytes, or with a zero byte or `/`.
    #[error("a file or a folder has a name that no path has")]
    BadName,
    /// There is no memory.
    #[error("out of memory")]
    NoMemory,
}

impl From<AllocError> for ReadTree {
    ghost use Rattle.std.specs.Prelude.{◌≡◌};
    ghost use Rattle.folder_store.specs.declared.reading.ReadTree.TheVariants.{NoMemory};

    ghost from_gives = { λ _ e. e ≡ NoMemory };

    fn from(_error: AllocError) -> ReadTree {
        ReadTree::NoMemory
    }
}

impl<T: Drop> From<AllocFailed<T>> for ReadTree {
    ghost use Rattle.std.specs.Prelude.{◌≡◌};
    ghost use Rattle.folder_store.specs.declared.reading.ReadTree.TheVariants.{NoMemory};

    ghost from_gives = { λ _ e. e ≡ NoMemory };

    fn from(_error: AllocFailed<T>) -> ReadTree {
        ReadTree::NoMemory
    }
}

impl From<FolderFault> for ReadTree {
    ghost use Rattle.std.specs.Prelude.{◌≡◌};
    ghost use Rattle.folder_store.specs.Gathering.{read_fault};

    ghost from_gives = { λ fault e. e ≡ read_fault fault };

    fn from(fault: FolderFault) -> ReadTree {
        match fault {
            FolderFault::Failed => ReadTree::FolderFault,
            FolderFault::NoMemory => ReadTree::NoMemory,
        }
    }
}

/// A file's or folder's path below the folder that is read, and its path text outside.
#[derive(Drop)]
pub(crate) struct Place {
    pub(crate) path: Path,
    pub(crate) text: String,
}

impl Place {
    /// The place of a name in this folder. Depth is checked before the name.
    fn below(&self, alloc: Global, name: &str) -> Result<Place, ReadTree>
        // What is answered:
        ensures room { OnOk result (length self.now.path < MOST_NAMES) }
        ensures name { OnOk result (is_name name.now ≡ true) }
        ensures path { IfOk result (λ p. p.path ≡ self.now.path ++ name.now ∷ []) }
        ensures text { IfOk result (λ p.
            string_bytes p.text ≡ string_bytes self.now.text ++ 47 ∷ name.now) }
        // When each error comes:
        ensures too_deep { IsErrOf result ReadTree.TooDeep → length self.now.path ≡ MOST_NAMES }
        ensures bad_name { IsErrOf result ReadTree.BadName
            → (length self.now.path < MOST_NAMES) × (is_name name.now ≡ false) }
        ensures no_fault { IsErrOf result ReadTree.FolderFault → ⊥ }
    {
        if self.path.len() == MOST_NAMES {
            return Err(ReadTree::TooDeep);
        }
        let Some(path) = self.path.below(name.as_bytes())? else {
            return Err(ReadTree::BadName);
        };
        let text = format!(in alloc; "{}/{name}", self.text)?;
        Ok(Place { path, text })
    }
}

/// What was read so far.
#[derive(Drop)]
pub(crate) struct Gathered {
    /// An edit for each file and bare folder, in the order of the walk.
    pub(crate) edits: Vec<Edit>,
    /// The files' bytes in all.
    pub(crate) read: u64,
}

impl Gathered {
    /// Whether more bytes were read than the limit, which ends the walk.
    fn is_full(&self) -> bool
        ensures { result ≡ nat_lt MOST_PUT_BYTES self.now.read }
    {
        self.read > MOST_PUT_BYTES
    }

    fn add(&mut self, alloc: Global, path: Path, content: Vec<u8>) -> Result<(), NoMemory>
        ensures edits { OnOk result
            (self.new.edits.items ≡ self.old.edits.items ++ Edit.Put path content.items ∷ []) }
        ensures read { OnOk result (self.old.read + length content.items < 2 ^ 64
            → self.new.read ≡ self.old.read + length content.items) }
    {
        let size = content.len() as u64;
        let content = Blob::new(alloc, content)?;
        self.edits.push(Edit::Put(path, content))?;
        self.read = self.read.saturating_add(size);
        Ok(())
    }

    fn make(&mut self, folder: Path) -> Result<(), NoMemory>
        ensures edits { OnOk result
            (self.new.edits.items ≡ self.old.edits.items ++ Edit.MakeFolder folder ∷ []) }
        ensures read { OnOk result (self.new.read ≡ self.old.read) }
    {
        self.edits.push(Edit::MakeFolder(folder))?;
        Ok(())
    }
}

/// The entries of a folder, by the bytes of their names.
fn sorted_entries<F: Folders>(
    alloc: Global,
    folders: &mut F,
    path: &str,
) -> Result<Vec<FolderEntry>, ReadTree>
    // What is answered:
    ensures entries { IfOk result (λ es.
        WhereTold (F.tree folders.old) (λ t.
        IsSortedListing t path.now (map view_entry es.items))) }
    // When it fails:
    ensures fault { IsErrOf result ReadTree.FolderFault
        → MayFail (Faulted F.faults folders.old folders.new) (F.tree folders.old)
        (IsNoFolder path.now) }
    ensures owed { WhereTold (F.tree folders.old) (λ t.
        is_folder_at t path.now ≡ true → F.strayed folders.new ≡ F.strayed folders.old) }
    ensures failed { IsErrOf result ReadTree.FolderFault
        → IsRefused (F.refused folders.new) path.now }
    ensures not_deep { IsErrOf result ReadTree.TooDeep → ⊥ }
    ensures not_bad { IsErrOf result ReadTree.BadName → ⊥ }
    // What stays:
    ensures same { F.tree folders.new ≡ F.tree folders.old }
    ensures later { F.faults folders.old ≤ F.faults folders.new }
{
    let mut entries = folders.list(alloc, path)?;
    entries.sort_unstable_by(|entry, other| entry.name.cmp(&other.name));
    Ok(entries)
}

fn read_file<F: Folders>(
    alloc: Global,
    folders: &mut F,
    place: Place,
    gathered: &mut Gathered,
    sights: &mut Sights,
) -> Result<(), ReadTree>
    // What is gathered:
    requires { gathered.old.read ≤ MOST_PUT_BYTES }
    ensures walk { (t : FolderTree) (content : Bytes)
        → F.tree folders.old ≡ Some t
        → entry_at t (string_bytes place.text) ≡ Some (AFile content)
        → Walks (Ok (Edit.Put place.path (take MOST_READ content)) ∷ []) gathered.old.edits.items
        gathered.old.read result gathered.new.edits.items gathered.new.read }
    ensures look { (t : FolderTree) (content : Bytes)
        → F.tree folders.old ≡ Some t
        → entry_at t (string_bytes place.text) ≡ Some (AFile content)
        → OnOk result
        (look_in sights.new
        ≡ with_file (look_in sights.old) (string_bytes place.text)
        (length (take MOST_READ content))) }
    ensures large { (root : Bytes)
        → string_bytes place.text ≡ text_below root place.path
        → (look_in sights.old).large ≡ first_large root gathered.old.edits.items
        → OnOk result ((look_in sights.new).large ≡ first_large root gathered.new.edits.items) }
    ensures at { sights.new.at ≡ sights.old.at }
    // When it fails:
    ensures failed { IsErrOf result ReadTree.FolderFault
        → IsRefused (F.refused folders.new) (string_bytes place.text) }
    ensures not_deep { IsErrOf result ReadTree.TooDeep → ⊥ }
    ensures not_bad { IsErrOf result ReadTree.BadName → ⊥ }
    ensures fault { IsErrOf result ReadTree.FolderFault
        → MayFail (Faulted F.faults folders.old folders.new) (F.tree folders.old) (λ t.
        content_of (entry_at t (string_bytes place.text)) ≡ None) }
    ensures owed { (t : FolderTree) (content : Bytes)
        → F.tree folders.old ≡ Some t
        → entry_at t (string_bytes place.text) ≡ Some (AFile content)
        → F.strayed folders.new ≡ F.strayed folders.old }
    // What stays:
    ensures same { F.tree folders.new ≡ F.tree folders.old }
    ensures later { F.faults folders.old ≤ F.faults folders.new }
{
    let content = folders.read(alloc, &place.text, MOST_READ)?;
    sights.note(place.text, content.len());
    gathered.add(alloc, place.path, content)?;
    Ok(())
}

/// Adds the edits of what is below a folder. Folders, and so the calls, are at most 16 deep.
#[cycle(walk)]
pub(crate) fn walk_folder<F: Folders>(
    alloc: Global,
    folders: &mut F,
    place: &Place,
    gathered: &mut Gathered,
    sights: &mut Sights,
) -> Result<(), ReadTree>
    // What is gathered:
    ensures walk { WhereTold (F.tree folders.old) (λ t.
        Walks
        (met_below t (MOST_NAMES - length place.now.path) place.now.path
        (string_bytes place.now.text)) gathered.old.edits.items gathered.old.read result
        gathered.new.edits.items gathered.new.read) }
    ensures tells { WhereTold (F.tree folders.old) (λ t.
        Tells
        (marks_below t (MOST_NAMES - length place.now.path) place.now.path
        (string_bytes place.now.text)) (look_in sights.old) gathered.old.read result
        (look_in sights.new) gathered.new.read (at_in sights.new.at)) }
    ensures large { (root : Bytes)
        → string_bytes place.now.text ≡ text_below root place.now.path
        → (look_in sights.old).large ≡ first_large root gathered.old.edits.items
        → OnOk result ((look_in sights.new).large ≡ first_large root gathered.new.edits.items) }
    // When it fails:
    ensures named { (root : Bytes)
        → string_bytes place.now.text ≡ text_below root place.now.path
        → text_at root sights.old.at ≡ string_bytes place.now.text
        → IsErrOf result ReadTree.FolderFault
        → IsRefused (F.refused folders.new) (text_at root sights.new.at) }
    ensures fault { IsErrOf result ReadTree.FolderFault
        → MayFail (Faulted F.faults folders.old folders.new) (F.tree folders.old)
        (IsNoFolder (string_bytes place.now.text)) }
    ensures no_folder { WhereTold (F.tree folders.old) (λ t.
        is_folder_at t (string_bytes place.now.text) ≡ false
        → (result ≡ Err ReadTree.FolderFault) ⊎ (result ≡ Err ReadTree.NoMemory)) }
    ensures owed { WhereTold (F.tree folders.old) (λ t.
        is_folder_at t (string_bytes place.now.text) ≡ true
        → F.strayed folders.new ≡ F.strayed folders.old) }
    // What stays:
    ensures same { F.tree folders.new ≡ F.tree folders.old }
    ensures later { F.faults folders.old ≤ F.faults folders.new }
{
    let entries = sorted_entries(alloc, folders, &place.text)?;
    for entry in &entries {
        walk_entry(alloc, folders, place, entry, gathered, sights)?;
    }
    Ok(())
}

/// Adds the edits of what is below a folder, or, if there are none, the one that makes it.
#[cycle(walk)]
fn walk_below<F: Folders>(
    alloc: Global,
    folders: &mut F,
    place: Place,
    gathered: &mut Gathered,
    sights: &mut Sights,
) -> Result<(), ReadTree>
    // What is gathered:
    requires { gathered.old.read ≤ MOST_PUT_BYTES }
    ensures walk { WhereTold (F.tree folders.old) (λ t.
        Walks
        (met_or_made place.path
        (met_below t (MOST_NAMES - length place.path) place.path (string_bytes place.text)))
        gathered.old.edits.items gathered.old.read result gathered.new.edits.items
        gathered.new.read) }
    ensures tells { WhereTold (F.tree folders.old) (λ t.
        Tells (marks_below t (MOST_NAMES - length place.path) place.path (string_bytes place.text))
        (look_in sights.old) gathered.old.read result (look_in sights.new) gathered.new.read
        (at_in sights.new.at)) }
    ensures large { (root : Bytes)
        → string_bytes place.text ≡ text_below root place.path
        → (look_in sights.old).large ≡ first_large root gathered.old.edits.items
        → OnOk result ((look_in sights.new).large ≡ first_large root gathered.new.edits.items) }
    // When it fails:
    ensures named { (root : Bytes)
        → string_bytes place.text ≡ text_below root place.path
        → text_at root sights.old.at ≡ string_bytes place.text
        → IsErrOf result ReadTree.FolderFault
        → IsRefused (F.refused folders.new) (text_at root sights.new.at) }
    ensures fault { IsErrOf result ReadTree.FolderFault
        → MayFail (Faulted F.faults folders.old folders.new) (F.tree folders.old)
        (IsNoFolder (string_bytes place.text)) }
    ensures owed { WhereTold (F.tree folders.old) (λ t.
        is_folder_at t (string_bytes place.text) ≡ true
        → F.strayed folders.new ≡ F.strayed folders.old) }
    // What stays:
    ensures same { F.tree folders.new ≡ F.tree folders.old }
    ensures later { F.faults folders.old ≤ F.faults folders.new }
{
    let met_before = gathered.edits.len();
    walk_folder(alloc, folders, &place, gathered, sights)?;
    if gathered.edits.len() > met_before {
        return Ok(());
    }
    Ok(gathered.make(place.path)?)
}

/// Adds the edits of one entry and what is below it.
#[cycle(walk)]
fn walk_entry<F: Folders>(
    alloc: Global,
    folders: &mut F,
    place: &Place,
    entry: &FolderEntry,
    gathered: &mut Gathered,
    sights: &mut Sights,
) -> Result<(), ReadTree>
    // What is gathered:
    ensures walk { (t : FolderTree) (e : Entry)
        → F.tree folders.old ≡ Some t
        → entry_at t (string_bytes place.now.text ++ 47 ∷ string_bytes entry.now.name) ≡ Some e
        → kind_of e ≡ entry.now.kind
        → Walks
        (met_one t (MOST_NAMES - length place.now.path) place.now.path
        (string_bytes place.now.text) (string_bytes entry.now.name, e))
        gathered.old.edits.items gathered.old.read result gathered.new.edits.items
        gathered.new.read }
    ensures tells { (t : FolderTree) (e : Entry)
        → F.tree folders.old ≡ Some t
        → entry_at t (string_bytes place.now.text ++ 47 ∷ string_bytes entry.now.name) ≡ Some e
        → kind_of e ≡ entry.now.kind
        → Tells
        (marks_one t (MOST_NAMES - length place.now.path) place.now.path
        (string_bytes place.now.text) (string_bytes entry.now.name, e)) (look_in sights.old)
        gathered.old.read result (look_in sights.new) gathered.new.read (at_in sights.new.at) }
    ensures large { (root : Bytes)
        → string_bytes place.now.text ≡ text_below root place.now.path
        → (look_in sights.old).large ≡ first_large root gathered.old.edits.items
        → OnOk result ((look_in sights.new).large ≡ first_large root gathered.new.edits.items) }
    // When it fails:
    ensures named { (root : Bytes)
        → string_bytes place.now.text ≡ text_below root place.now.path
        → IsErrOf result ReadTree.FolderFault
        → IsRefused (F.refused folders.new) (text_at root sights.new.at) }
    ensures fault { IsErrOf result ReadTree.FolderFault
        → MayFail (Faulted F.faults folders.old folders.new) (F.tree folders.old) (λ t.
        kind_at t (string_bytes place.now.text ++ 47 ∷ string_bytes entry.now.name)
        ≡ Some entry.now.kind
        → ⊥) }
    ensures owed { WhereTold (F.tree folders.old) (λ t.
        kind_at t (string_bytes place.now.text ++ 47 ∷ string_bytes entry.now.name)
        ≡ Some entry.now.kind
        → F.strayed folders.new ≡ F.strayed folders.old) }
    // What stays:
    ensures same { F.tree folders.new ≡ F.tree folders.old }
    ensures later { F.faults folders.old ≤ F.faults folders.new }
{
    if gathered.is_full() {
        return Ok(());
    }
    match entry.kind {
        EntryKind::File => {
            sights.reach(alloc, &place.path, &entry.name)?;
            let file = place.below(alloc, &entry.name)?;
            read_file(alloc, folders, file, gathered, sights)
        }
        EntryKind::Folder => {
            sights.reach(alloc, &place.path, &entry.name)?;
            let folder = place.below(alloc, &entry.name)?;
            walk_below(alloc, folders, folder, gathered, sights)
        }
        EntryKind::Other => Ok(sights.pass(alloc, &place.path, &entry.name)?),
    }
}

/// Reads a folder as edits: a `Put` for each file, a `MakeFolder` for each bare folder, in the
/// order of paths from `root` on.
///
/// A path text is its folder's text, `/` and its name. Links and other kinds are passed over, so a
/// folder with only these is bare. At most [`MOST_CONTENT`] bytes and one are read of a file. The
/// walk ends after the file at which more than [`MOST_PUT_BYTES`] are read in all.
///
/// The first entry that can't be taken ends the walk: `TooDeep` if its folder has 16 names already,
/// else `BadName`. `FolderFault` comes as [`FolderFault::Failed`] does, and always if the tree is
/// known and `root` is no folder.
pub fn read_tree<F: Folders>(
    alloc: Global,
    folders: &mut F,
    root: &str,
) -> Result<Vec<Edit>, ReadTree>
    // What is answered:
    ensures edits { IfOk result (λ es.
        WhereTold (F.tree folders.old) (λ t. edits_of t root.now ≡ Ok es.items)) }
    ensures files { IfOk result (λ es.
        WhereTold (F.tree folders.old) (λ t. IsFolderTree t → PutsFiles t root.now es.items)) }
    // When each error comes:
    ensures too_deep { IsErrOf result ReadTree.TooDeep
        → WhereTold (F.tree folders.old) (λ t. edits_of t root.now ≡ Err IsTooDeep) }
    ensures bad_name { IsErrOf result ReadTree.BadName
        → WhereTold (F.tree folders.old) (λ t. edits_of t root.now ≡ Err IsBadName) }
    ensures fault { IsErrOf result ReadTree.FolderFault
        → MayFail (Faulted F.faults folders.old folders.new) (F.tree folders.old)
        (IsNoFolder root.now) }
    ensures no_folder { WhereTold (F.tree folders.old) (λ t.
        is_folder_at t root.now ≡ false
        → (result ≡ Err ReadTree.FolderFault) ⊎ (result ≡ Err ReadTree.NoMemory)) }
    // What is asked for, and what stays:
    ensures owed { WhereTold (F.tree folders.old) (λ t.
        is_folder_at t root.now ≡ true → F.strayed folders.new ≡ F.strayed folders.old) }
    ensures same { F.tree folders.new ≡ F.tree folders.old }
    ensures later { F.faults folders.old ≤ F.faults folders.new }
{
    match survey(alloc, folders, root) {
        Ok(survey) => Ok(survey.edits),
        Err(fault) => Err(fault.cause),
    }
}
