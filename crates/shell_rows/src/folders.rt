//! Folders in memory.

use folder_store::MemFolders;
use oc_bytes::Blob;
use std::alloc::{AllocError, Global};
use test_rows::{Row, RowFault};

/// What stands in the folders of a command.
#[derive(Drop)]
pub(crate) enum Folder {
    /// Nothing.
    Nothing,
    /// The folder F without an entry.
    Empty,
    /// The folder F with the file `a` of these bytes.
    OneFile(Vec<u8>),
    /// The folder F with the folder `a`, in which nothing is, and the file `b` of these bytes.
    EmptyFolderAndFile(Vec<u8>),
}

impl Folder {
    /// What the words `-`, `F/`, `F/a BYTES` and `F/a/ F/b BYTES` say.
    pub(crate) fn of_row(alloc: Global, row: &Row<'_>) -> Result<Folder, RowFault> {
        match row.word(0)? {
            "-" => Ok(Folder::Nothing),
            "F/" => Ok(Folder::Empty),
            "F/a" => Ok(Folder::OneFile(row.bytes(alloc, 1)?)),
            "F/a/" => Ok(Folder::EmptyFolderAndFile(row.bytes(alloc, 2)?)),
            _ => Err(RowFault::BadRow),
        }
    }

    /// The folders, of which no call fails.
    pub(crate) fn made(&self, alloc: Global) -> Result<MemFolders, AllocError> {
        match self {
            Folder::Nothing => Ok(MemFolders::new(Vec::new(alloc), Vec::new(alloc))),
            Folder::Empty => empty_folder(alloc),
            Folder::OneFile(content) => one_file(alloc, content),
            Folder::EmptyFolderAndFile(content) => empty_folder_and_file(alloc, content),
        }
    }
}

fn empty_folder(alloc: Global) -> Result<MemFolders, AllocError> {
    let mut entries = Vec::new(alloc);
    entries.push((
        String::from_str(alloc, "F/")?,
        Blob::new(alloc, Vec::new(alloc))?,
    ))?;
    Ok(MemFolders::new(entries, Vec::new(alloc)))
}

fn one_file(alloc: Global, content: &[u8]) -> Result<MemFolders, AllocError> {
    let mut entries = Vec::new(alloc);
    entries.push((
        String::from_str(alloc, "F/a")?,
        Blob::new(alloc, Vec::from_slice(alloc, content)?)?,
    ))?;
    Ok(MemFolders::new(entries, Vec::new(alloc)))
}

fn empty_folder_and_file(alloc: Global, content: &[u8]) -> Result<MemFolders, AllocError> {
    let mut entries = Vec::new(alloc);
    entries.push((
        String::from_str(alloc, "F/a/")?,
        Blob::new(alloc, Vec::new(alloc))?,
    ))?;
    entries.push((
        String::from_str(alloc, "F/b")?,
        Blob::new(alloc, Vec::from_slice(alloc, content)?)?,
    ))?;
    Ok(MemFolders::new(entries, Vec::new(alloc)))
}
