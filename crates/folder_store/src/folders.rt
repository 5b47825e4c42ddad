ghost use Rattle.std.specs.Prelude.{◌≡◌, ◌≤◌, ℕ, Bool, Option, map, true, false, None, is_some, IfOk, IsErrOf};
ghost use Rattle.std.specs.Option.{option_map};
ghost use Rattle.std.specs.String.{string_bytes};
ghost use Rattle.oc_bytes.specs.Outcome.{Faulted};
ghost use Rattle.folder_store.specs.Folders.{IsRefused, IsNoFolder, WhereTold};

use oc_bytes::NoMemory;
use std::alloc::{AllocError, AllocFailed, Global};
use thiserror::Error;

/// What an entry of a folder is.
#[derive(Clone, Copy, Debug, PartialEq, Eq)]
pub enum EntryKind {
    /// A regular file.
    File,
    /// A folder.
    Folder,
    /// A link or anything else, which readers pass over.
    Other,
}

/// What is directly below a folder.
#[derive(Drop)]
pub struct FolderEntry {
    /// The last name of its path text, without `/`.
    pub name: String,
    /// What the entry is.
    pub kind: EntryKind,
}

/// Why a folder wasn't listed, or a file not read.
#[derive(Clone, Copy, Debug, PartialEq, Eq, Error)]
pub enum FolderFault {
    /// The system answered with an error, and the count of faults rose unless it is saturated. Or
    /// the tree is known and has no such folder (`list`) or file (`read`).
    #[error("the folder could not be listed, or the file not read")]
    Failed,
    /// There is no memory.
    #[error("out of memory")]
    NoMemory,
}

impl From<AllocError> for FolderFault {
    ghost use Rattle.std.specs.Prelude.{◌≡◌};
    ghost use Rattle.folder_store.specs.declared.folders.FolderFault.TheVariants as faults;

    ghost from_gives = { λ _ e. e ≡ faults.NoMemory };

    fn from(_error: AllocError) -> FolderFault {
        FolderFault::NoMemory
    }
}

/// Folders and files of the outside.
///
/// A path text is the names of a file or folder, the outermost first, separated by `/`:
/// `site/img/logo.png`. No call changes the tree, nor whether it is known.
pub trait Folders {
    ghost use Rattle.path_tree.specs.Paths.{Bytes};
    ghost use Rattle.folder_store.specs.Folders.{FolderTree, entry_at, content_of, is_folder_at, view_entry, IsListed, IsRead, IsRefused, MayFail};

    /// The tree, if it is known.
    ghost tree: { Self → Option FolderTree };

    /// How often a call failed. It never falls.
    ghost faults: { Self → ℕ };

    /// Whether a call asked a known tree for what isn't there.
    ghost strayed: { Self → Bool };

    /// The path text of the last call that answered `Failed`, if it is kept.
    ghost refused: { Self → Option Bytes };

    /// The entries directly below the folder `path`, each once, in any order.
    fn list(&mut self, alloc: Global, path: &str) -> Result<Vec<FolderEntry>, FolderFault>
        // What is listed:
        ensures same { tree self.new ≡ tree self.old }
        ensures entries { IfOk result (λ es.
            WhereTold (tree self.old) (λ t. IsListed t path.now (map view_entry es.items))) }
        // When it fails:
        ensures later { faults self.old ≤ faults self.new }
        ensures cause { IsErrOf result FolderFault.Failed
            → MayFail (Faulted faults self.old self.new) (tree self.old) (IsNoFolder path.now) }
        // What is noted of a wrong path:
        ensures owed { WhereTold (tree self.old) (λ t.
            is_folder_at t path.now ≡ true → strayed self.new ≡ strayed self.old) }
        ensures strays { WhereTold (tree self.old) (λ t.
            is_folder_at t path.now ≡ false → strayed self.new ≡ true) }
        ensures failed { IsErrOf result FolderFault.Failed → IsRefused (refused self.new) path.now }
        ensures kept { (IsErrOf result FolderFault.Failed → ⊥)
            → refused self.new ≡ refused self.old };

    /// The first `most` bytes of the file `path`, or all if it has fewer.
    fn read(&mut self, alloc: Global, path: &str, most: usize) -> Result<Vec<u8>, FolderFault>
        // What is read:
        ensures same { tree self.new ≡ tree self.old }
        ensures bytes { IfOk result (λ bs.
            WhereTold (tree self.old) (λ t. IsRead t path.now most bs.items)) }
        // When it fails:
        ensures later { faults self.old ≤ faults self.new }
        ensures cause { IsErrOf result FolderFault.Failed
            → MayFail (Faulted faults self.old self.new) (tree self.old) (λ t.
            content_of (entry_at t path.now) ≡ None) }
        // What is noted of a wrong path:
        ensures owed { WhereTold (tree self.old) (λ t.
            is_some (content_of (entry_at t path.now)) ≡ true
            → strayed self.new ≡ strayed self.old) }
        ensures strays { WhereTold (tree self.old) (λ t.
            content_of (entry_at t path.now) ≡ None → strayed self.new ≡ true) }
        ensures failed { IsErrOf result FolderFault.Failed → IsRefused (refused self.new) path.now }
        ensures kept { (IsErrOf result FolderFault.Failed → ⊥)
            → refused self.new ≡ refused self.old };

    /// The count of faults, saturating.
    fn faults(&self) -> u64
        ensures { result ≡ faults self.now };
}

/// A refused path text, if there is memory to keep it.
pub(crate) fn kept_text(alloc: Global, path: &str) -> Option<String>
    ensures { IsRefused (option_map string_bytes result) path.now }
{
    String::from_str(alloc, path).ok()
}
