ghost use Rattle.std.specs.Prelude.{◌≡◌, true, IfOk, OnErr};
ghost use Rattle.path_tree.specs.Trees.{is_a_file};

use oc_bytes::{Blob, NoMemory};

/// What a path of a tree maps to.
#[derive(Drop)]
pub enum Entry {
    /// A file, and its bytes.
    File(Blob),
    /// A kept folder, empty or not.
    Folder,
}

impl Entry {
    /// Whether this is a file.
    pub fn is_file(&self) -> bool
        ensures { result ≡ is_a_file self.now }
    {
        matches!(self, Entry::File(_))
    }

    /// The same entry; a file's bytes aren't copied. `Err` is out of memory.
    pub fn share(&self) -> Result<Entry, NoMemory>
        ensures entry { IfOk result (λ entry. entry ≡ self.now) }
        ensures no_memory { OnErr result (is_a_file self.now ≡ true) }
    {
        match self {
            Entry::File(content) => Ok(Entry::File(content.share()?)),
            Entry::Folder => Ok(Entry::Folder),
        }
    }
}
