ghost use Rattle.std.specs.Prelude.{◌≡◌, ◌≤◌, ◌+◌, ◌-◌, ◌^◌, None, min, OnOk, IsErrOf};
ghost use Rattle.oc_bytes.specs.Outcome.{Rose};

use crate::real::{TRIES, is_want_of_memory};
use crate::store::{Store, StoreFault};
use oc_bytes::{NoMemory, Sink, StdSink, WriteFault, write_all};
use std::alloc::Global;
use std::fs::File;
use std::io::{Error, ErrorKind};
use std::rt::Files;
use std::{fs, io};

/// The last name of a file while it is written. No file of this name itself can be written.
pub const PART_NAME: &str = ".carousel-part";

/// Folders of the system as [`Store`], of unknown content.
///
/// Each error of the system counts as a fault. A call that a signal interrupts is repeated at most
/// 16 times. Path texts are the system's.
///
/// A file is written as [`PART_NAME`] in its folder. It gets its own name as a second one, which
/// the system refuses if anything, even a link, is there. Then the first name is removed. If the
/// system has no second names, the file is renamed once its place is found free. No call waits for
/// the disk, so nothing is promised of a machine that stops.
#[derive(Drop)]
pub struct OsStore<R: Drop> {
    rt: R,
    faults: u64,
}

impl<R: Files + Drop> OsStore<R> {
    /// The folders that this runtime reaches, without faults.
    pub fn new(rt: R) -> OsStore<R>
        ensures { result.faults ≡ 0 }
    {
        OsStore { rt, faults: 0 }
    }

    /// Counts an error, and fails unless a signal interrupted the call.
    fn note(&mut self, error: &Error) -> Result<(), StoreFault>
        ensures later { self.old.faults ≤ self.new.faults }
        ensures again { OnOk result (min (self.old.faults + 1) (2 ^ 64 - 1) ≤ self.new.faults) }
        ensures cause { IsErrOf result StoreFault.Failed → Rose self.old.faults self.new.faults }
    {
        if is_want_of_memory(error) {
            return Err(StoreFault::NoMemory);
        }
        self.faults = self.faults.saturating_add(1);
        match error.kind() {
            ErrorKind::Interrupted => Ok(()),
            _ => Err(StoreFault::Failed),
        }
    }

    /// Creates a file, which mustn't be there.
    fn create(&mut self, path: &str) -> Result<R::File, StoreFault>
        ensures later { self.old.faults ≤ self.new.faults }
        ensures cause { IsErrOf result StoreFault.Failed → Rose self.old.faults self.new.faults }
    {
        for _ in 0..TRIES {
            match File::create_new(&self.rt, path) {
                Ok(file) => return Ok(file),
                Err(error) => self.note(&error)?,
            }
        }
        Err(StoreFault::Failed)
    }

    fn fill(&mut self, file: R::File, bytes: &[u8]) -> Result<(), StoreFault>
        ensures later { self.old.faults ≤ self.new.faults }
        ensures cause { IsErrOf result StoreFault.Failed → Rose self.old.faults self.new.faults }
    {
        let mut sink = StdSink::new(file);
        let written = write_all(&mut sink, bytes);
        self.faults = self.faults.saturating_add(sink.faults());
        match written {
            Ok(()) => Ok(()),
            Err(WriteFault::Failed) => Err(StoreFault::Failed),
            Err(WriteFault::NoMemory) => Err(StoreFault::NoMemory),
        }
    }

    /// Gives the file `part` its own name, unless that is taken.
    fn place(&mut self, part: &str, path: &str) -> Result<(), StoreFault>
        ensures later { self.old.faults ≤ self.new.faults }
        ensures cause { IsErrOf result StoreFault.Failed → Rose self.old.faults self.new.faults }
    {
        for _ in 0..TRIES {
            match place_once(&self.rt, part, path) {
                Ok(()) => return Ok(()),
                Err(error) => self.note(&error)?,
            }
        }
        Err(StoreFault::Failed)
    }

    /// Removes the name `part`, if it is there. If that fails, the name is left.
    fn clear(&mut self, part: &str)
        ensures { self.old.faults ≤ self.new.faults }
    {
        for _ in 0..TRIES {
            match fs::remove_file(&self.rt, part) {
                Err(error) if error.kind() != ErrorKind::NotFound => {
                    self.faults = self.faults.saturating_add(1);
                    if error.kind() != ErrorKind::Interrupted {
                        return;
                    }
                }
                _ => return,
            }
        }
    }
}

impl<R: Files + Drop> Store for OsStore<R> {
    ghost tree = { λ _. None };

    ghost faults = { λ s. s.faults };

    fn make_folder(&mut self, _alloc: Global, path: &str) -> Result<(), StoreFault> {
        for _ in 0..TRIES {
            match fs::create_dir(&self.rt, path) {
                Ok(()) => return Ok(()),
                Err(error) => self.note(&error)?,
            }
        }
        Err(StoreFault::Failed)
    }

    fn write_new(&mut self, alloc: Global, path: &str, bytes: &[u8]) -> Result<(), StoreFault> {
        let part = part_beside(alloc, path)?;
        let part = part.as_str();
        let file = self.create(part)?;
        let written = match self.fill(file, bytes) {
            Ok(()) => self.place(part, path),
            Err(fault) => Err(fault),
        };
        self.clear(part);
        written
    }

    fn faults(&self) -> u64 {
        self.faults
    }
}

/// The part's text, in the folder of a path.
fn part_beside(alloc: Global, path: &str) -> Result<String, NoMemory> {
    match path.rsplit_once('/') {
        Some((folder, _)) => format!(in alloc; "{folder}/{PART_NAME}"),
        None => String::from_str(alloc, PART_NAME),
    }
}

/// Gives a file its second name, or renames it on a system without such names.
fn place_once<R: Files>(rt: &R, part: &str, path: &str) -> io::Result<()> {
    match fs::hard_link(rt, part, path) {
        Err(error) if lacks_links(&error) => rename_new(rt, part, path),
        linked => linked,
    }
}

/// Whether the system may lack second names.
fn lacks_links(error: &Error) -> bool {
    matches!(
        error.kind(),
        ErrorKind::Unsupported | ErrorKind::PermissionDenied
    )
}

/// Renames a file, unless the new name is taken.
fn rename_new<R: Files>(rt: &R, part: &str, path: &str) -> io::Result<()> {
    match fs::symlink_metadata(rt, path) {
        Ok(_) => Err(Error::from(ErrorKind::AlreadyExists)),
        Err(error) if error.kind() == ErrorKind::NotFound => fs::rename(rt, part, path),
        Err(error) => Err(error),
    }
}
