ghost use Rattle.std.specs.Prelude.{◌≡◌, ◌++◌, ◌∷◌, [], map, IfOk, OnOk};
ghost use Rattle.std.specs.String.{string_bytes};
ghost use Rattle.folder_store.specs.Surveys.{at_in, names_to, view_standing};
ghost use Rattle.folder_store.specs.Inner.Sighting.{look_in, with_file};

use oc_bytes::NoMemory;
use path_tree::{MOST_CONTENT, Path};
use std::alloc::Global;

/// What is in a folder under a name.
#[derive(Drop)]
pub struct Standing {
    /// The path of the folder, below the one that is read.
    pub folder: Path,
    /// The name, which no path may have.
    pub name: String,
}

impl Standing {
    fn new(alloc: Global, folder: &Path, name: &str) -> Result<Standing, NoMemory>
        ensures folder { IfOk result (λ s. s.folder ≡ folder.now) }
        ensures name { IfOk result (λ s. string_bytes s.name ≡ name.now) }
    {
        Ok(Standing {
            folder: folder.share()?,
            name: String::from_str(alloc, name)?,
        })
    }
}

/// What a walk met besides the files.
#[derive(Drop)]
pub(crate) struct Sights {
    /// What was passed over.
    pub(crate) left: Vec<Standing>,
    /// The path text of the first file of more than [`MOST_CONTENT`] bytes.
    pub(crate) large: Option<String>,
    /// The file or folder that the walk came to last.
    pub(crate) at: Option<Standing>,
}

impl Sights {
    /// Comes to a file or folder.
    pub(crate) fn reach(&mut self, alloc: Global, folder: &Path, name: &str) -> Result<(), NoMemory>
        ensures at { OnOk result (at_in self.new.at ≡ (folder.now, name.now)) }
        ensures names { OnOk result (names_to self.new.at ≡ folder.now ++ name.now ∷ []) }
        ensures look { OnOk result (look_in self.new ≡ look_in self.old) }
    {
        self.at = Some(Standing::new(alloc, folder, name)?);
        Ok(())
    }

    /// Passes over an entry.
    pub(crate) fn pass(&mut self, alloc: Global, folder: &Path, name: &str) -> Result<(), NoMemory>
        ensures left { OnOk result
            (map view_standing self.new.left.items
            ≡ map view_standing self.old.left.items ++ (folder.now, name.now) ∷ []) }
        ensures large { OnOk result (self.new.large ≡ self.old.large) }
    {
        self.left.push(Standing::new(alloc, folder, name)?)?;
        Ok(())
    }

    /// Notes a file of which this many bytes were read.
    pub(crate) fn note(&mut self, text: String, read: usize)
        ensures look { look_in self.new ≡ with_file (look_in self.old) (string_bytes text) read }
        ensures at { self.new.at ≡ self.old.at }
    {
        if read > MOST_CONTENT && self.large.is_none() {
            self.large = Some(text);
        }
    }
}
