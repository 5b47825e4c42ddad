ghost use Rattle.std.specs.Prelude.{◌≡◌, ◌≤◌, ◌<◌, ◌+◌, Some, take, drop, length, slice_get, IfOk, IsSome};
ghost use Rattle.std.specs.Arc.{arc_value};
ghost use Rattle.biop_object.specs.ObjectReading.{bindings_of};
ghost use Rattle.path_resolver.specs.Names.{names_of, is_first_in};

use biop_object::{Module, Span};
use oc_bytes::NoMemory;
use std::alloc::AllocError;
use std::marker::Model;
use std::sync::Arc;

/// A file's content in a shared module.
#[derive(Drop)]
pub struct FileRef {
    module: Arc<Module>,
    span: Span,
}

impl Model for FileRef {
    ghost use Rattle.path_tree.specs.Paths.{Bytes};

    ghost Value = { Bytes };

    ghost use Rattle.path_resolver.specs.Shared.{view_file};
    ghost use Rattle.path_resolver.specs.Inner.Shared.{IsFileRef};

    ghost view = { view_file };

    ghost invariant = { IsFileRef };
}

impl FileRef {
    pub(crate) fn new(home: &Arc<Module>, span: Span) -> Result<FileRef, NoMemory>
        requires { span.first + span.length ≤ length (arc_value home.now) }
        ensures { IfOk result (λ r. r ≡ take span.length (drop span.first (arc_value home.now))) }
    {
        let module = Arc::try_clone(home)?;
        Ok(FileRef { module, span })
    }

    /// The file's bytes, lent from the module.
    pub fn bytes(&self) -> &[u8]
        ensures { result.now ≡ self.now }
    {
        let bytes = self.module.bytes();
        &bytes[self.span.first..self.span.first + self.span.length]
    }

    /// The same file. `Err` is out of memory.
    pub fn share(&self) -> Result<FileRef, NoMemory>
        ensures { IfOk result (λ r. r ≡ self.now) }
    {
        let module = Arc::try_clone(&self.module)?;
        Ok(FileRef {
            module,
            span: self.span,
        })
    }
}

/// A folder's names in a shared module, in the order of its bindings, repeated ones too.
#[derive(Drop)]
pub struct FolderRef {
    module: Arc<Module>,
    folder: usize,
}

impl Model for FolderRef {
    ghost use Rattle.std.specs.Prelude.{List};
    ghost use Rattle.path_tree.specs.Paths.{Bytes};

    ghost Value = { List Bytes };

    ghost use Rattle.path_resolver.specs.Shared.{view_folder};
    ghost use Rattle.path_resolver.specs.Inner.Shared.{IsFolderRef};

    ghost view = { view_folder };

    ghost invariant = { IsFolderRef };
}

impl FolderRef {
    pub(crate) fn new(home: &Arc<Module>, folder: usize) -> Result<FolderRef, NoMemory>
        requires { IsSome (bindings_of (arc_value home.now) folder) }
        ensures { IfOk result (λ r. r ≡ names_of (bindings_of (arc_value home.now) folder)) }
    {
        let module = Arc::try_clone(home)?;
        Ok(FolderRef { module, folder })
    }

    /// The number of bindings.
    pub fn count(&self) -> usize
        ensures { result ≡ length self.now }
    {
        self.module.bindings(self.folder).len()
    }

    /// The name of binding `i`, lent from the module.
    pub fn name(&self, i: usize) -> &[u8]
        requires { i < length self.now }
        ensures { slice_get self.now i ≡ Some result.now }
    {
        self.module.bindings(self.folder)[i].name.bytes()
    }

    /// Whether binding `i` is the first with its name, found by halves.
    pub fn is_first(&self, i: usize) -> bool
        requires { i < length self.now }
        ensures { result ≡ is_first_in self.now i }
    {
        self.module.is_first(self.folder, i)
    }

    /// The same folder. `Err` is out of memory.
    pub fn share(&self) -> Result<FolderRef, NoMemory>
        ensures { IfOk result (λ r. r ≡ self.now) }
    {
        let module = Arc::try_clone(&self.module)?;
        Ok(FolderRef {
            module,
            folder: self.folder,
        })
    }
}

/// What a path is on what is held. Numbers are ids of the module at which the walk ended.
#[derive(Drop)]
pub enum Answer {
    /// The path is a file.
    File(FileRef),
    /// The path is a folder.
    Folder(FolderRef),
    /// A whole folder on the way lacks the next name, or a name follows a file.
    NoSuch,
    /// This module isn't whole yet, or its DII isn't held.
    NotYet(u16),
    /// No gateway or no DII was heard yet.
    NoCarousel,
    /// The walk leads to another carousel, to a delivery of identification 0, which no DII that
    /// lists modules has, or to an IOR without a location.
    Elsewhere,
    /// This module is sent compressed.
    Compressed(u16),
    /// Reading this module stopped at this place, in bytes, before the object was found.
    Bad(u16, usize),
    /// The DII that delivers this module doesn't list it, or the module lacks the object.
    Dangling(u16),
    /// The object in this module is of another kind.
    OtherKind(u16),
}

impl Answer {
    ghost use Rattle.std.specs.Prelude.{OnErr, IsTrue};
    ghost use Rattle.path_resolver.specs.Resolving.{is_shared};

    /// The same answer. A file or folder shares its module; only there memory can run out.
    pub fn share(&self) -> Result<Answer, NoMemory>
        ensures same { IfOk result (λ shared. shared ≡ self.now) }
        ensures memory { OnErr result (IsTrue (is_shared self.now)) }
    {
        match self {
            Answer::File(file) => Ok(Answer::File(file.share()?)),
            Answer::Folder(folder) => Ok(Answer::Folder(folder.share()?)),
            Answer::NoSuch => Ok(Answer::NoSuch),
            Answer::NotYet(module) => Ok(Answer::NotYet(*module)),
            Answer::NoCarousel => Ok(Answer::NoCarousel),
            Answer::Elsewhere => Ok(Answer::Elsewhere),
            Answer::Compressed(module) => Ok(Answer::Compressed(*module)),
            Answer::Bad(module, place) => Ok(Answer::Bad(*module, *place)),
            Answer::Dangling(module) => Ok(Answer::Dangling(*module)),
            Answer::OtherKind(module) => Ok(Answer::OtherKind(*module)),
        }
    }
}
