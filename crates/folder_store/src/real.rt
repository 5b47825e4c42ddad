ghost use Rattle.std.specs.Prelude.{◌≡◌, ◌≤◌, ◌+◌, ◌-◌, ◌^◌, ◌<◌, [], length, take, min, None, false, IfOk, OnOk, IsErrOf};
ghost use Rattle.std.specs.Option.{option_map};
ghost use Rattle.std.specs.String.{string_bytes};
ghost use Rattle.oc_bytes.specs.Outcome.{Rose, Known, Faulted};
ghost use Rattle.oc_bytes.specs.Streams.{Takes};
ghost use Rattle.folder_store.specs.Folders.{IsRefused};

use crate::folders::{EntryKind, FolderEntry, FolderFault, Folders, kept_text};
use oc_bytes::{Failed, Source, StdSource};
use std::alloc::Global;
use std::fs::{DirEntry, File, FileType, OpenFile, ReadDir};
use std::io::{Error, ErrorKind};
use std::rt::Files;
use std::{fs, io};

/// How often one call is tried if signals interrupt it.
pub(crate) const TRIES: u32 = 17;

/// The most bytes that one read of a file asks for.
const PIECE: usize = 65_536;

/// Folders of the system as [`Folders`], of unknown content.
///
/// Each error of the system counts as a fault. A call that a signal interrupts is repeated at most
/// 16 times. Path texts are the system's. A link is an [`EntryKind::Other`]. A folder with a name
/// that isn't UTF-8 isn't listed: that counts as an error.
#[derive(Drop)]
pub struct OsFolders<R: Drop> {
    rt: R,
    faults: u64,
    /// The last path text that failed, if there was memory. Only contracts speak of it.
    refused: Option<String>,
}

impl<R: Files + Drop> OsFolders<R> {
    /// The folders that this runtime reaches, without faults.
    pub fn new(rt: R) -> OsFolders<R>
        ensures { result.faults ≡ 0 }
    {
        OsFolders {
            rt,
            faults: 0,
            refused: None,
        }
    }

    /// Counts an error, and fails unless a signal interrupted the call.
    fn note(&mut self, alloc: Global, path: &str, error: &Error) -> Result<(), FolderFault>
        ensures later { self.old.faults ≤ self.new.faults }
        ensures again { OnOk result (min (self.old.faults + 1) (2 ^ 64 - 1) ≤ self.new.faults) }
        ensures cause { IsErrOf result FolderFault.Failed → Rose self.old.faults self.new.faults }
        ensures failed { IsErrOf result FolderFault.Failed
            → IsRefused (option_map string_bytes self.new.refused) path.now }
        ensures kept { (IsErrOf result FolderFault.Failed → ⊥)
            → self.new.refused ≡ self.old.refused }
    {
        if is_want_of_memory(error) {
            return Err(FolderFault::NoMemory);
        }
        self.faults = self.faults.saturating_add(1);
        match error.kind() {
            ErrorKind::Interrupted => Ok(()),
            _ => {
                self.refused = kept_text(alloc, path);
                Err(FolderFault::Failed)
            }
        }
    }

    /// Opens a file; the number is how many bytes it seems to have.
    fn open(&mut self, alloc: Global, path: &str) -> Result<(R::File, u64), FolderFault>
        ensures later { self.old.faults ≤ self.new.faults }
        ensures cause { IsErrOf result FolderFault.Failed → Rose self.old.faults self.new.faults }
        ensures failed { IsErrOf result FolderFault.Failed
            → IsRefused (option_map string_bytes self.new.refused) path.now }
        ensures kept { (IsErrOf result FolderFault.Failed → ⊥)
            → self.new.refused ≡ self.old.refused }
    {
        for _ in 0..TRIES {
            match open_once(&self.rt, path) {
                Ok(opened) => return Ok(opened),
                Err(error) => self.note(alloc, path, &error)?,
            }
        }
        self.refused = kept_text(alloc, path);
        Err(FolderFault::Failed)
    }
}

impl<R: Files + Clone + Drop> Folders for OsFolders<R> {
    ghost tree = { λ _. None };

    ghost faults = { λ f. f.faults };

    ghost strayed = { λ _. false };

    ghost refused = { λ f. option_map string_bytes f.refused };

    fn list(&mut self, alloc: Global, path: &str) -> Result<Vec<FolderEntry>, FolderFault> {
        for _ in 0..TRIES {
            match list_once(&self.rt, alloc, path) {
                Ok(entries) => return Ok(entries),
                Err(error) => self.note(alloc, path, &error)?,
            }
        }
        self.refused = kept_text(alloc, path);
        Err(FolderFault::Failed)
    }

    fn read(&mut self, alloc: Global, path: &str, most: usize) -> Result<Vec<u8>, FolderFault> {
        let (file, len) = self.open(alloc, path)?;
        let mut source = StdSource::new(file);
        let read = read_front(alloc, &mut source, most, len);
        self.faults = self.faults.saturating_add(source.faults());
        if matches!(read, Err(FolderFault::Failed)) {
            self.refused = kept_text(alloc, path);
        }
        read
    }

    fn faults(&self) -> u64 {
        self.faults
    }
}

/// The program's own allocator had no room, rather than the system.
pub(crate) fn is_want_of_memory(error: &Error) -> bool {
    matches!(error.kind(), ErrorKind::OutOfMemory) && error.raw_os_error().is_none()
}

fn open_once<R: Files>(rt: &R, path: &str) -> io::Result<(R::File, u64)> {
    let file = File::open(rt, path)?;
    let len = file.metadata()?.len();
    Ok((file, len))
}

fn list_once<R: Files + Clone + Drop>(
    rt: &R,
    alloc: Global,
    path: &str,
) -> io::Result<Vec<FolderEntry>> {
    let entries = fs::read_dir(&(rt, alloc), path)?;
    told_entries(alloc, entries)
}

fn told_entries<F: Files + Clone + Drop>(
    alloc: Global,
    entries: ReadDir<F>,
) -> io::Result<Vec<FolderEntry>> {
    let mut found = Vec::new(alloc);
    for entry in entries {
        found.push(told_entry(alloc, entry)?)?;
    }
    Ok(found)
}

fn told_entry<F: Files + Drop>(
    alloc: Global,
    entry: io::Result<DirEntry<F>>,
) -> io::Result<FolderEntry> {
    let entry = entry?;
    let kind = kind_of(entry.file_type()?);
    let name = String::from_str(alloc, entry.file_name())?;
    Ok(FolderEntry { name, kind })
}

fn kind_of(file_type: FileType) -> EntryKind {
    if file_type.is_file() {
        EntryKind::File
    } else if file_type.is_dir() {
        EntryKind::Folder
    } else {
        EntryKind::Other
    }
}

/// The first `most` bytes of a source, which seems to have `len`.
fn read_front<S: Source>(
    alloc: Global,
    source: &mut S,
    most: usize,
    len: u64,
) -> Result<Vec<u8>, FolderFault>
    ensures front { IfOk result (λ bytes.
        Known (S.left source.old) (S.left source.new) (λ before _.
        bytes.items ≡ take most before)) }
    ensures later { S.faults source.old ≤ S.faults source.new }
    ensures cause { IsErrOf result FolderFault.Failed → Faulted S.faults source.old source.new }
{
    let seems = usize::try_from(len).unwrap_or(most).min(most);
    let bytes = Vec::with_capacity(alloc, seems)?;
    let mut piece = vec![in alloc; 0u8; seems.min(PIECE - 1) + 1]?;
    read_pieces(source, &mut piece, bytes, most)
}

fn read_pieces<S: Source>(
    source: &mut S,
    piece: &mut [u8],
    mut bytes: Vec<u8>,
    most: usize,
) -> Result<Vec<u8>, FolderFault>
    requires room { 0 < length piece.old }
    requires empty { bytes.items ≡ [] }
    ensures front { IfOk result (λ bytes.
        Known (S.left source.old) (S.left source.new) (λ before _.
        bytes.items ≡ take most before)) }
    ensures later { S.faults source.old ≤ S.faults source.new }
    ensures cause { IsErrOf result FolderFault.Failed → Faulted S.faults source.old source.new }
{
    while bytes.len() < most {
        let n = read_piece(source, piece, most - bytes.len())?;
        if n == 0 {
            return Ok(bytes);
        }
        bytes.extend_from_slice(&piece[..n])?;
    }
    Ok(bytes)
}

/// One read of at most `most` bytes.
fn read_piece<S: Source>(
    source: &mut S,
    piece: &mut [u8],
    most: usize,
) -> Result<usize, FolderFault>
    // What callers give:
    requires room { 0 < length piece.old }
    requires most { 0 < most }
    // What is read, and when it fails:
    ensures within { IfOk result (λ n. (n ≤ most) × (n ≤ length piece.old)) }
    ensures read { IfOk result (λ n.
        Known (S.left source.old) (S.left source.new) (λ before after.
        Takes before after piece.new n)) }
    ensures later { S.faults source.old ≤ S.faults source.new }
    ensures cause { IsErrOf result FolderFault.Failed → Faulted S.faults source.old source.new }
{
    let n = piece.len().min(most);
    match source.read(&mut piece[..n]) {
        Ok(n) => Ok(n),
        Err(Failed) => Err(FolderFault::Failed),
    }
}
