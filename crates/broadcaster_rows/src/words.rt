//! What the words of a row say, beside bytes and numbers.

use oc_bytes::Blob;
use path_tree::{Edit, Path};
use std::alloc::{AllocError, Global};
use test_rows::{Row, RowFault};

/// The path of a text.
pub(crate) fn path_of(alloc: Global, text: &[u8]) -> Result<Path, RowFault> {
    match Path::parse(alloc, text) {
        Ok(path) => Ok(path),
        Err(_) => Err(RowFault::BadRow),
    }
}

/// The path that the word at a place says.
pub(crate) fn path(alloc: Global, row: &Row<'_>, place: usize) -> Result<Path, RowFault> {
    path_of(alloc, row.text(place).as_bytes())
}

/// The edits of the words from a place up to a deed: `put PATH BYTES` and `remove PATH`, of folders
/// `mkdir PATH` and `rmdir PATH`, and `files FRONT COUNT SIZE` for so many puts.
pub(crate) fn edits(alloc: Global, row: &Row<'_>, from: usize) -> Vec<Edit> {
    let mut edits = Vec::new(alloc);
    for place in from..row.len() {
        if begins_a_deed(row.text(place)) {
            break;
        }
        if let Some(edit) = edit(alloc, row, place) {
            push_edit(row, &mut edits, edit);
        }
        if row.text(place) == "files" {
            push_files(alloc, row, place.saturating_add(1), &mut edits);
        }
    }
    edits
}

/// Puts an edit behind the others, if it is one.
pub(crate) fn push_edit(row: &Row<'_>, edits: &mut Vec<Edit>, edit: Result<Edit, RowFault>) {
    match edit {
        Ok(edit) => row.push(edits, edit),
        Err(fault) => row.fail(fault),
    }
}

/// Whether a word is the name of something that is done to a catalogue or in a world.
fn begins_a_deed(word: &str) -> bool {
    matches!(
        word,
        "state" | "commit" | "draw" | "lose" | "sections" | "entry" | "open"
    )
}

/// The edit that begins at a place, if one does.
fn edit(alloc: Global, row: &Row<'_>, place: usize) -> Option<Result<Edit, RowFault>> {
    match row.text(place) {
        "put" => Some(put(alloc, row, place.saturating_add(1))),
        "remove" => Some(remove(alloc, row, place.saturating_add(1))),
        "mkdir" => Some(make_folder(alloc, row, place.saturating_add(1))),
        "rmdir" => Some(remove_folder(alloc, row, place.saturating_add(1))),
        _ => None,
    }
}

/// The put of the path and the bytes at a place.
fn put(alloc: Global, row: &Row<'_>, place: usize) -> Result<Edit, RowFault> {
    let content = Blob::new(alloc, row.octets(place.saturating_add(1)))?;
    Ok(Edit::Put(path(alloc, row, place)?, content))
}

fn remove(alloc: Global, row: &Row<'_>, place: usize) -> Result<Edit, RowFault> {
    Ok(Edit::Remove(path(alloc, row, place)?))
}

fn make_folder(alloc: Global, row: &Row<'_>, place: usize) -> Result<Edit, RowFault> {
    Ok(Edit::MakeFolder(path(alloc, row, place)?))
}

fn remove_folder(alloc: Global, row: &Row<'_>, place: usize) -> Result<Edit, RowFault> {
    Ok(Edit::RemoveFolder(path(alloc, row, place)?))
}

/// Puts of so many files behind the other edits. The words at a place are the front of their paths,
/// which their numbers from 0 on end, how many they are, and their size. Each byte of a file is its
/// number modulo 256.
fn push_files(alloc: Global, row: &Row<'_>, place: usize, edits: &mut Vec<Edit>) {
    let front = row.octets(place);
    let size = row.count(place.saturating_add(2));
    for number in 0..row.long(place.saturating_add(1)) {
        push_edit(row, edits, put_file(alloc, &front, number, size));
    }
}

fn put_file(alloc: Global, front: &[u8], number: u32, size: usize) -> Result<Edit, RowFault> {
    let text = with_number(alloc, front, number)?;
    let bytes = vec![in alloc; (number % 256) as u8; size]?;
    Ok(Edit::Put(path_of(alloc, &text)?, Blob::new(alloc, bytes)?))
}

/// This front and a number.
fn with_number(alloc: Global, front: &[u8], number: u32) -> Result<Vec<u8>, AllocError> {
    let name = format!(in alloc; "{number}")?;
    let mut text = Vec::from_slice(alloc, front)?;
    text.extend_from_slice(name.as_bytes())?;
    Ok(text)
}

/// The put of shared bytes at the path of a text.
pub(crate) fn put_shared(alloc: Global, text: &[u8], content: &Blob) -> Result<Edit, RowFault> {
    let content = content.share()?;
    Ok(Edit::Put(path_of(alloc, text)?, content))
}

/// So many zero bytes.
pub(crate) fn zeros(alloc: Global, size: usize) -> Result<Blob, AllocError> {
    let bytes = vec![in alloc; 0u8; size]?;
    Blob::new(alloc, bytes)
}
