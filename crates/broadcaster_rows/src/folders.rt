//! Folders in memory and real ones, and what is read of them.
ghost use Rattle.std.specs.Prelude.{map};
ghost use Rattle.folder_store.specs.Memory.{AreEntries};

use crate::texts::{Told, each};
use folder_store::{EntryKind, FolderEntry, Folders, MemFolders, OsFolders, read_tree};
use oc_bytes::Blob;
use path_tree::Edit;
use std::alloc::{AllocError, Global};
use std::os::unix;
use std::{fs, io};
use test_rows::{Line, Row, RowFault};

/// The folders that the rows made last, in memory and real ones.
#[derive(Drop)]
pub(crate) struct Standing<'a> {
    rt: &'a HostRuntime,
    in_memory: Option<MemFolders>,
    real: OsFolders<&'a HostRuntime>,
}

impl<'a> Standing<'a> {
    /// No folders in memory yet, and the real ones that this runtime reaches.
    pub(crate) fn new(rt: &'a HostRuntime) -> Standing<'a> {
        Standing {
            rt,
            in_memory: None,
            real: OsFolders::new(rt),
        }
    }

    /// The answer, where the row is a call on folders. `real` before the call's own name is one on
    /// real folders.
    pub(crate) fn call(&mut self, alloc: Global, row: &Row<'_>) -> Option<Line> {
        match row.name() {
            "folders" => Some(self.begin(alloc, row)),
            "real-write" => Some(outcome_text(row, write_folder(self.rt))),
            "real-remove" => Some(outcome_text(row, fs::remove_dir_all(self.rt, "F"))),
            "real" => call_on(alloc, row, row.text(0), 1, &mut self.real),
            name => match &mut self.in_memory {
                Some(folders) => call_on(alloc, row, name, 0, folders),
                None => None,
            },
        }
    }

    /// The folders in memory that a row names.
    fn begin(&mut self, alloc: Global, row: &Row<'_>) -> Line {
        match named_folders(alloc, row.text(0), numbers(alloc, row)) {
            Ok(folders) => {
                self.in_memory = Some(folders);
                row.line().text("new")
            }
            Err(fault) => row.failed(fault),
        }
    }
}

/// The numbers after the first word.
fn numbers(alloc: Global, row: &Row<'_>) -> Vec<u64> {
    let mut numbers = Vec::new(alloc);
    for place in 1..row.len() {
        row.push(&mut numbers, row.wide(place));
    }
    numbers
}

/// The folders of a name, whose calls of these numbers fail.
fn named_folders(alloc: Global, name: &str, fail_at: Vec<u64>) -> Result<MemFolders, RowFault> {
    let folders = match name {
        "two-files-and-a-folder" => two_files_and_a_folder(alloc, fail_at),
        "files-out-of-order" => files_out_of_order(alloc, fail_at),
        "no-file" => no_file(alloc, fail_at),
        "bare-folders" => bare_folders(alloc, fail_at),
        "sixteen-names" => sixteen_names(alloc, fail_at),
        "a-folder-too-deep" => a_folder_too_deep(alloc, fail_at),
        "a-bad-name-after-a-deep-folder" => a_bad_name_after_a_deep_folder(alloc, fail_at),
        "a-deep-path-before-a-bad-name" => a_deep_path_before_a_bad_name(alloc, fail_at),
        "two-files" => two_files(alloc, fail_at),
        _ => return Err(RowFault::BadRow),
    };
    Ok(folders?)
}

fn two_files_and_a_folder(alloc: Global, fail_at: Vec<u64>) -> Result<MemFolders, AllocError> {
    let files: [(&str, &[u8]); 3] = [("F/a/c", b"12"), ("F/b", b"3"), ("G/", b"")];
    folders_of(alloc, &files, fail_at)
}

fn files_out_of_order(alloc: Global, fail_at: Vec<u64>) -> Result<MemFolders, AllocError> {
    let files: [(&str, &[u8]); 4] = [
        ("F/b", b"2"),
        ("F/a-b", b"3"),
        ("F/a/c", b"1"),
        ("E/x", b"4"),
    ];
    folders_of(alloc, &files, fail_at)
}

fn no_file(alloc: Global, fail_at: Vec<u64>) -> Result<MemFolders, AllocError> {
    let files: [(&str, &[u8]); 1] = [("F/", b"")];
    folders_of(alloc, &files, fail_at)
}

fn bare_folders(alloc: Global, fail_at: Vec<u64>) -> Result<MemFolders, AllocError> {
    let files: [(&str, &[u8]); 3] = [("F/a/", b""), ("F/b", b"2"), ("F/c/d/", b"")];
    folders_of(alloc, &files, fail_at)
}

fn sixteen_names(alloc: Global, fail_at: Vec<u64>) -> Result<MemFolders, AllocError> {
    let files: [(&str, &[u8]); 2] = [
        ("F/a/b/c/d/e/f/g/h/i/j/k/l/m/n/o/p", b"1"),
        ("F/b/b/c/d/e/f/g/h/i/j/k/l/m/n/o/p/", b""),
    ];
    folders_of(alloc, &files, fail_at)
}

fn a_folder_too_deep(alloc: Global, fail_at: Vec<u64>) -> Result<MemFolders, AllocError> {
    let files: [(&str, &[u8]); 1] = [("F/a/b/c/d/e/f/g/h/i/j/k/l/m/n/o/p/q/", b"")];
    folders_of(alloc, &files, fail_at)
}

fn a_bad_name_after_a_deep_folder(
    alloc: Global,
    fail_at: Vec<u64>,
) -> Result<MemFolders, AllocError> {
    let files: [(&str, &[u8]); 2] = [
        ("F/a/b/c/d/e/f/g/h/i/j/k/l/m/n/o/p/", b""),
        ("F/b//x", b"1"),
    ];
    folders_of(alloc, &files, fail_at)
}

fn a_deep_path_before_a_bad_name(
    alloc: Global,
    fail_at: Vec<u64>,
) -> Result<MemFolders, AllocError> {
    let files: [(&str, &[u8]); 2] = [
        ("F/a/b/c/d/e/f/g/h/i/j/k/l/m/n/o/p/q", b"1"),
        ("F/b//x", b"1"),
    ];
    folders_of(alloc, &files, fail_at)
}

fn two_files(alloc: Global, fail_at: Vec<u64>) -> Result<MemFolders, AllocError> {
    let files: [(&str, &[u8]); 2] = [("F/a", b"1"), ("F/b", b"2")];
    folders_of(alloc, &files, fail_at)
}

/// Folders of these files, or folders where a text ends in `/`; the calls of these numbers fail.
fn folders_of(
    alloc: Global,
    files: &[(&str, &[u8])],
    fail_at: Vec<u64>,
) -> Result<MemFolders, AllocError>
    requires { AreEntries (map (λ e. (e.0.now, e.1.now)) files.now) }
{
    let mut entries = Vec::new(alloc);
    for (text, bytes) in files {
        let content = Blob::new(alloc, Vec::from_slice(alloc, bytes)?)?;
        entries.push((String::from_str(alloc, text)?, content))?;
    }
    Ok(MemFolders::new(entries, fail_at))
}

/// The answer, where the name is that of a call on folders. The call's words begin at this place.
fn call_on<F: Folders>(
    alloc: Global,
    row: &Row<'_>,
    name: &str,
    at: usize,
    folders: &mut F,
) -> Option<Line> {
    match name {
        "list" => Some(listed(alloc, row, at, folders)),
        "read" => Some(read(alloc, row, at, folders)),
        "read-tree" => Some(read_edits(alloc, row, at, folders)),
        "faults" => Some(row.line().value("", &folders.faults())),
        _ => None,
    }
}

/// The entries of a folder by their names, or the fault.
fn listed<F: Folders>(alloc: Global, row: &Row<'_>, at: usize, folders: &mut F) -> Line {
    match folders.list(alloc, row.text(at)) {
        Ok(entries) => entries_text(row, entries),
        Err(fault) => row.line().value("", &fault),
    }
}

fn entries_text(row: &Row<'_>, mut entries: Vec<FolderEntry>) -> Line {
    entries.sort_unstable_by(|entry, other| entry.name.cmp(&other.name));
    let line = row.line().value("", &entries.len()).text(":");
    each(line, &entries)
}

/// An entry's name and what it is.
impl Told for FolderEntry {
    fn told(&self, line: Line) -> Line {
        let kind = match self.kind {
            EntryKind::File => " file",
            EntryKind::Folder => " folder",
            EntryKind::Other => " other",
        };
        line.text(self.name.as_str()).text(kind)
    }
}

/// The first bytes of a file, or the fault.
fn read<F: Folders>(alloc: Global, row: &Row<'_>, at: usize, folders: &mut F) -> Line {
    let most = row.count(at.saturating_add(1));
    row.line().outcome(folders.read(alloc, row.text(at), most))
}

/// The edits that make what stands below a folder, or the fault.
fn read_edits<F: Folders>(alloc: Global, row: &Row<'_>, at: usize, folders: &mut F) -> Line {
    match read_tree(alloc, folders, row.text(at)) {
        Ok(edits) => edits_text(row.line(), &edits),
        Err(fault) => row.line().value("", &fault),
    }
}

fn edits_text(line: Line, edits: &[Edit]) -> Line {
    each(line.value("", &edits.len()).text(":"), edits)
}

/// A path and the bytes that are put there, or what else is done at a path.
impl Told for Edit {
    fn told(&self, line: Line) -> Line {
        match self {
            Edit::Put(path, content) => line.value("", path).bytes("=", content.bytes()),
            Edit::Remove(path) => line.value("removed: ", path),
            Edit::MakeFolder(path) => line.value("made: ", path),
            Edit::RemoveFolder(path) => line.value("removed folder: ", path),
        }
    }
}

/// The folder F: a file, a folder with an empty file in it, a folder with a link in it, and a link.
fn write_folder(rt: &HostRuntime) -> io::Result<()> {
    let _ = fs::remove_dir_all(rt, "F");
    fs::create_dir(rt, "F")?;
    fs::create_dir(rt, "F/d")?;
    fs::write(rt, "F/a", "hello")?;
    fs::write(rt, "F/d/b", "")?;
    fs::create_dir(rt, "F/e")?;
    unix::fs::symlink(rt, "../a", "F/e/l")?;
    unix::fs::symlink(rt, "a", "F/l")
}

fn outcome_text(row: &Row<'_>, outcome: io::Result<()>) -> Line {
    match outcome {
        Ok(()) => row.line().text("done"),
        Err(_) => row.line().text("not done"),
    }
}
