//! Texts of paths, trees of files and kept folders, look-ups and edits.

use oc_bytes::Blob;
use path_tree::{Edit, Edits, Entry, Lookup, Name, Path, Tree, apply, print_name};
use std::alloc::Global;
use test_rows::{Line, Row, RowFault};

/// What a row of this file answers.
pub(crate) fn call(alloc: Global, row: &Row<'_>, tree: &mut Tree) -> Option<Line> {
    match row.name() {
        "path" => Some(printed(alloc, row)),
        "path-shown" => Some(asked(alloc, row, Question::Shown)),
        "path-names" => Some(asked(alloc, row, Question::Names)),
        "path-above" => Some(asked(alloc, row, Question::Above)),
        "tree-new" => Some(emptied(alloc, row, tree)),
        "tree-apply" => Some(applied(alloc, row, tree)),
        "tree-files" => Some(files(alloc, row.line(), tree)),
        "tree-folders" => Some(folders(row.line(), tree)),
        "tree-look" => Some(looked_up(alloc, row, tree)),
        _ => None,
    }
}

/// `path TEXT..`: what the path of each text prints, or why it is none.
fn printed(alloc: Global, row: &Row<'_>) -> Line {
    let mut line = row.line();
    for place in 0..row.len() {
        line = printed_text(alloc, line.between("; "), &row.octets(place));
    }
    line
}

/// Puts the path of a text, or why it is none, behind what stands.
fn printed_text(alloc: Global, line: Line, text: &[u8]) -> Line {
    match Path::parse(alloc, text) {
        Ok(path) => line.made("", path.print()),
        Err(fault) => line.value("", &fault),
    }
}

/// What is asked of the path of a text.
#[derive(Clone, Copy, Drop)]
enum Question {
    /// `path-shown TEXT`: how it is shown.
    Shown,
    /// `path-names TEXT`: how many names it has, shared, and each of them in hex digits.
    Names,
    /// `path-above TEXT COUNT`: the path of its first names.
    Above,
}

fn asked(alloc: Global, row: &Row<'_>, question: Question) -> Line {
    match Path::parse(alloc, &row.octets(0)) {
        Ok(path) => answer(row, &path, question),
        Err(_) => row.failed(RowFault::BadRow),
    }
}

fn answer(row: &Row<'_>, path: &Path, question: Question) -> Line {
    match question {
        Question::Shown => row.line().value("", path),
        Question::Names => names(row, path),
        Question::Above => above(row, path),
    }
}

fn names(row: &Row<'_>, path: &Path) -> Line {
    match path.share() {
        Ok(path) => names_text(row.line(), &path),
        Err(_) => row.failed(RowFault::NoMemory),
    }
}

fn names_text(line: Line, path: &Path) -> Line {
    let mut line = line.value("", &path.len());
    for i in 0..path.len() {
        line = line.bytes(" ", path.name(i));
    }
    line
}

fn above(row: &Row<'_>, path: &Path) -> Line {
    let names = row.count(1);
    if names > path.len() {
        return row.failed(RowFault::BadRow);
    }
    match path.above(names) {
        Ok(path) => row.line().made("", path.print()),
        Err(_) => row.failed(RowFault::NoMemory),
    }
}

/// `tree-apply EDIT..`: the files and kept folders of the tree after edits, or why they are
/// refused.
fn applied(alloc: Global, row: &Row<'_>, tree: &mut Tree) -> Line {
    match apply(alloc, tree, edits(alloc, row).list()) {
        Ok(next) => {
            *tree = next;
            listed(alloc, row.line(), tree)
        }
        Err(fault) => row.line().value("", &fault),
    }
}

/// `tree-new`: the tree has no file and no kept folder from now on.
fn emptied(alloc: Global, row: &Row<'_>, tree: &mut Tree) -> Line {
    *tree = Tree::empty(alloc);
    listed(alloc, row.line(), tree)
}

fn edits(alloc: Global, row: &Row<'_>) -> Edits {
    let mut edits = Vec::new(alloc);
    for place in 0..row.len() {
        match edit(alloc, row.text(place)) {
            Ok(edit) => row.push(&mut edits, edit),
            Err(fault) => row.fail(fault),
        }
    }
    Edits::new(edits)
}

/// An edit: a path and what is put there after `=`, or a path whose file is removed; after `+` the
/// path of a folder that is made, and after `-` that of one that is removed.
fn edit(alloc: Global, text: &str) -> Result<Edit, RowFault> {
    if let Some(place) = text.strip_prefix('+') {
        return Ok(Edit::MakeFolder(path_of(alloc, place)?));
    }
    if let Some(place) = text.strip_prefix('-') {
        return Ok(Edit::RemoveFolder(path_of(alloc, place)?));
    }
    match text.split_once('=') {
        Some((place, content)) => put(alloc, place, content),
        None => Ok(Edit::Remove(path_of(alloc, text)?)),
    }
}

fn put(alloc: Global, place: &str, content: &str) -> Result<Edit, RowFault> {
    let bytes = Vec::from_slice(alloc, content.as_bytes())?;
    let content = Blob::new(alloc, bytes)?;
    Ok(Edit::Put(path_of(alloc, place)?, content))
}

fn path_of(alloc: Global, text: &str) -> Result<Path, RowFault> {
    match Path::parse(alloc, text.as_bytes()) {
        Ok(path) => Ok(path),
        Err(_) => Err(RowFault::BadRow),
    }
}

/// What a tree maps paths to: the path of each file, and its bytes after `=`, and the path of each
/// kept folder with `/` behind it.
fn listed(alloc: Global, mut line: Line, tree: &Tree) -> Line {
    for (path, entry) in tree.entries() {
        line = entry_text(alloc, line.between(" ").made("", path.print()), entry);
    }
    line.or("no files")
}

fn entry_text(alloc: Global, line: Line, entry: &Entry) -> Line {
    match entry {
        Entry::File(content) => line.made("=", print_name(alloc, content.bytes())),
        Entry::Folder => line.text("/"),
    }
}

/// `tree-files`: the path of each file, and its bytes after `=`.
fn files(alloc: Global, mut line: Line, tree: &Tree) -> Line {
    for i in 0..tree.len() {
        let (path, content) = tree.file(i);
        line = line
            .between(" ")
            .made("", path.print())
            .made("=", print_name(alloc, content.bytes()));
    }
    line.or("no files")
}

/// `tree-folders`: the path of each kept folder.
fn folders(mut line: Line, tree: &Tree) -> Line {
    for i in 0..tree.made_len() {
        line = line.between(" ").made("", tree.made(i).print());
    }
    line.or("no folders")
}

/// `tree-look PATH`: a file's bytes, or a folder's names.
fn looked_up(alloc: Global, row: &Row<'_>, tree: &Tree) -> Line {
    match path_of(alloc, row.text(0)) {
        Ok(path) => found_at(alloc, row, tree, &path),
        Err(fault) => row.failed(fault),
    }
}

fn found_at(alloc: Global, row: &Row<'_>, tree: &Tree, path: &Path) -> Line {
    match tree.lookup(path) {
        Ok(found) => found_text(alloc, row.line(), &found),
        Err(_) => row.failed(RowFault::NoMemory),
    }
}

fn found_text(alloc: Global, line: Line, found: &Lookup) -> Line {
    match found {
        Lookup::File(content) => line.made("file ", print_name(alloc, content.bytes())),
        Lookup::Folder(names) => folder_text(alloc, line.text("folder"), names),
        Lookup::NoSuch => line.text("nothing"),
    }
}

fn folder_text(alloc: Global, mut line: Line, names: &[Name]) -> Line {
    for name in names {
        line = line.made(" ", print_name(alloc, name.bytes()));
    }
    line
}
