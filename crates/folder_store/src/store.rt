ghost use Rattle.std.specs.Prelude.{◌≡◌, ◌≤◌, ℕ, Option, [], ◌∷◌, true, false, IfSome, OnOk, OnErr, IsErrOf};
ghost use Rattle.oc_bytes.specs.Outcome.{Faulted};

use std::alloc::{AllocError, AllocFailed, Global};
use thiserror::Error;

/// Why a file or folder wasn't written.
#[derive(Clone, Copy, Debug, PartialEq, Eq, Error)]
pub enum StoreFault {
    /// The system answered with an error, and the count of faults rose unless it is saturated. Or
    /// the tree is known, and the path is taken or lacks the folder above it.
    #[error("the file or the folder could not be written")]
    Failed,
    /// There is no memory.
    #[error("out of memory")]
    NoMemory,
}

impl From<AllocError> for StoreFault {
    ghost use Rattle.std.specs.Prelude.{◌≡◌};
    ghost use Rattle.folder_store.specs.declared.store.StoreFault.TheVariants as faults;

    ghost from_gives = { λ _ e. e ≡ faults.NoMemory };

    fn from(_error: AllocError) -> StoreFault {
        StoreFault::NoMemory
    }
}

impl<T: Drop> From<AllocFailed<T>> for StoreFault {
    ghost use Rattle.std.specs.Prelude.{◌≡◌};
    ghost use Rattle.folder_store.specs.declared.store.StoreFault.TheVariants as faults;

    ghost from_gives = { λ _ e. e ≡ faults.NoMemory };

    fn from(_error: AllocFailed<T>) -> StoreFault {
        StoreFault::NoMemory
    }
}

/// Folders of the outside into which files and folders are written.
///
/// A path text is that of [`Folders`](crate::Folders). A call only adds one entry, whole or not at
/// all. No call changes whether the tree is known.
pub trait Store {
    ghost use Rattle.folder_store.specs.Folders.{AFile, AFolder, FolderTree, MayFail};
    ghost use Rattle.folder_store.specs.Stores.{can_add, with_entries};

    /// The tree, if it is known.
    ghost tree: { Self → Option FolderTree };

    /// How often a call failed. It never falls.
    ghost faults: { Self → ℕ };

    /// Makes the folder `path` in a folder that is there.
    fn make_folder(&mut self, alloc: Global, path: &str) -> Result<(), StoreFault>
        ensures made { OnOk result
            (tree self.new ≡ with_entries (tree self.old) ((path.now, AFolder) ∷ [])) }
        ensures free { OnOk result (IfSome (tree self.old) (λ t. can_add t path.now ≡ true)) }
        ensures err { OnErr result (tree self.new ≡ tree self.old) }
        ensures later { faults self.old ≤ faults self.new }
        ensures cause { IsErrOf result StoreFault.Failed
            → MayFail (Faulted faults self.old self.new) (tree self.old) (λ t.
            can_add t path.now ≡ false) };

    /// Writes the file `path` of these bytes in a folder that is there.
    fn write_new(&mut self, alloc: Global, path: &str, bytes: &[u8]) -> Result<(), StoreFault>
        ensures written { OnOk result
            (tree self.new ≡ with_entries (tree self.old) ((path.now, AFile bytes.now) ∷ [])) }
        ensures free { OnOk result (IfSome (tree self.old) (λ t. can_add t path.now ≡ true)) }
        ensures err { OnErr result (tree self.new ≡ tree self.old) }
        ensures later { faults self.old ≤ faults self.new }
        ensures cause { IsErrOf result StoreFault.Failed
            → MayFail (Faulted faults self.old self.new) (tree self.old) (λ t.
            can_add t path.now ≡ false) };

    /// The count of faults, saturating.
    fn faults(&self) -> u64
        ensures { result ≡ faults self.now };
}
