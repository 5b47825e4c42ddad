//! Messages of files and folders, and what is found in modules of them.

ghost use Rattle.std.specs.Prelude.{IfOk, IfSome, IsSome, ◌≡◌, length};
ghost use Rattle.biop_object.specs.Objects.{IsEntry};
ghost use Rattle.biop_object.specs.ObjectReading.{bindings_of};

use crate::told::{Told, each};
use biop_object::{
    Binding, Bound, FolderKind, Found, Module, ObjectFault, Written, encode_file, encode_folder,
};
use ior_tap::{Key, Location, biop_of};
use path_tree::{MOST_CONTENT, Name};
use std::alloc::{AllocError, Global};
use test_rows::{Line, Row, RowFault};

/// What a row of this file answers.
pub(crate) fn call(alloc: Global, row: &Row<'_>) -> Option<Line> {
    match row.name() {
        "object-file" => Some(file(alloc, row)),
        "object-folder" => Some(folder(alloc, row)),
        "object-fault" => Some(fault(row)),
        "object-find" => Some(asked(alloc, row, Question::Find)),
        "object-bindings" => Some(asked(alloc, row, Question::Bindings)),
        "object-binding" => Some(asked(alloc, row, Question::Binding)),
        "module-size" => Some(asked(alloc, row, Question::Size)),
        _ => None,
    }
}

/// `object-file KEY CONTENT`: the message of a file.
fn file(alloc: Global, row: &Row<'_>) -> Line {
    match key(alloc, row.long(0)) {
        Ok(key) => file_of(alloc, row, &key),
        Err(_) => row.failed(RowFault::NoMemory),
    }
}

fn file_of(alloc: Global, row: &Row<'_>, key: &Key) -> Line
    requires { length key.now ≡ 4 }
{
    let content = row.octets(1);
    if content.len() > MOST_CONTENT {
        return row.failed(RowFault::BadRow);
    }
    row.line().outcome(encode_file(alloc, key, &content))
}

/// `object-folder KIND KEY`: the message of a folder without bindings; and with NAME SIZE KEY
/// behind it that of a folder with one binding, of a file or, where the size is `-`, of a folder.
/// Both lie in module 1 of carousel 1.
fn folder(alloc: Global, row: &Row<'_>) -> Line {
    match key(alloc, row.long(1)) {
        Ok(key) => folder_of(alloc, row, &key),
        Err(_) => row.failed(RowFault::NoMemory),
    }
}

fn folder_of(alloc: Global, row: &Row<'_>, key: &Key) -> Line
    requires { length key.now ≡ 4 }
{
    let kind = kind_of(row);
    if row.len() == 2 {
        return row.line().outcome(encode_folder(alloc, kind, key, &[]));
    }
    match entry(alloc, row) {
        Ok(entry) => row
            .line()
            .outcome(encode_folder(alloc, kind, key, &[entry])),
        Err(fault) => row.failed(fault),
    }
}

fn kind_of(row: &Row<'_>) -> FolderKind {
    match row.text(0) {
        "directory" => FolderKind::Directory,
        "gateway" => FolderKind::Gateway,
        _ => {
            row.fail(RowFault::BadRow);
            FolderKind::Directory
        }
    }
}

/// The binding of `NAME SIZE KEY`, the words of a row from the third one on.
fn entry(alloc: Global, row: &Row<'_>) -> Result<Written, RowFault>
    ensures { IfOk result IsEntry }
{
    let bound = bound(row);
    let location = Location {
        carousel: 1,
        module: 1,
        key: key(alloc, row.long(4))?,
    };
    let name = row.octets(2);
    if name.is_empty() || name.len() > 254 {
        return Err(RowFault::BadRow);
    }
    Ok(Written {
        name: Name::new(name),
        bound,
        location,
    })
}

/// A file of a size, or a folder.
fn bound(row: &Row<'_>) -> Bound {
    match row.text(3) {
        "-" => Bound::Folder,
        _ => Bound::File(row.wide(3)),
    }
}

/// The key of four bytes that is a number.
fn key(alloc: Global, number: u32) -> Result<Key, AllocError>
    ensures { IfOk result (λ k. length k ≡ 4) }
{
    Ok(Key::new(Vec::from_slice(alloc, &number.to_be_bytes())?))
}

/// `object-fault NAME`: a fault's text.
fn fault(row: &Row<'_>) -> Line {
    match row.text(0) {
        "TooLarge" => row.line().value("", &ObjectFault::TooLarge),
        _ => row.failed(RowFault::BadRow),
    }
}

/// What is asked of a module.
#[derive(Clone, Copy, Drop)]
enum Question {
    /// `object-find MODULE KEY..`: what it has under each key.
    Find,
    /// `object-bindings MODULE KEY`: the bindings of the folder under a key.
    Bindings,
    /// `object-binding MODULE KEY NAME`: the first binding of a name in the folder under a key.
    Binding,
    /// `module-size MODULE`: the number of its bytes.
    Size,
}

/// What the module answers that the first word of a row says.
fn asked(alloc: Global, row: &Row<'_>, question: Question) -> Line {
    match Module::read(alloc, row.octets(0)) {
        Ok(module) => answer(row, &module, question),
        Err(_) => row.failed(RowFault::NoMemory),
    }
}

fn answer(row: &Row<'_>, module: &Module, question: Question) -> Line {
    match question {
        Question::Find => finds(row, module),
        Question::Bindings => bindings(row, module),
        Question::Binding => binding(row, module),
        Question::Size => row.line().value("", &module.bytes().len()),
    }
}

fn finds(row: &Row<'_>, module: &Module) -> Line {
    let mut line = row.line();
    for place in 1..row.len() {
        line = found_text(line.between("; "), module.find(&row.octets(place)));
    }
    line
}

/// Puts what was found behind what stands.
fn found_text(line: Line, found: Found) -> Line {
    match found {
        Found::File(span) => line
            .value("file of ", &span.length)
            .value(" bytes at ", &span.first),
        Found::Folder(number) => line.value("folder ", &number),
        Found::Other => line.text("other"),
        Found::Bad(place) => line.value("bad at ", &place),
        Found::Missing => line.text("missing"),
    }
}

/// The folder that the module has under the key that the second word of a row says.
fn folder_in(row: &Row<'_>, objects: &Module) -> Option<usize>
    ensures { IfSome result (λ folder. IsSome (bindings_of objects.now folder)) }
{
    match objects.find(&row.octets(1)) {
        Found::Folder(folder) => Some(folder),
        _ => None,
    }
}

fn bindings(row: &Row<'_>, module: &Module) -> Line {
    match folder_in(row, module) {
        Some(folder) => each(row.line(), "; ", module.bindings(folder)),
        None => row.failed(RowFault::BadRow),
    }
}

fn binding(row: &Row<'_>, module: &Module) -> Line {
    match folder_in(row, module) {
        Some(folder) => binding_text(row.line(), module.binding(folder, &row.octets(2))),
        None => row.failed(RowFault::BadRow),
    }
}

fn binding_text(line: Line, binding: Option<&Binding>) -> Line {
    match binding {
        Some(binding) => binding.told(line),
        None => line.text("none"),
    }
}

impl Told for Binding {
    fn told(&self, line: Line) -> Line {
        let line = line
            .bytes("name ", self.name.bytes())
            .bytes(", kind ", &self.kind);
        match biop_of(&self.target) {
            Some((location, _)) => line.bytes(", key ", location.key.bytes()),
            None => line.text(", no key"),
        }
    }
}
