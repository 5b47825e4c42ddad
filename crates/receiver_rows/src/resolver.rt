//! Answers to paths on a shot.

use biop_object::Module;
use dsi_dii::ModuleLine;
use ior_tap::{Key, Location};
use path_resolver::{
    Answer, FileRef, FolderRef, Gateway, Held, Shot, cross_threads, resolve, same,
};
use path_tree::{Path, PathFault, print_name};
use std::alloc::{AllocError, Global};
use std::sync::Arc;
use test_rows::{Line, Row, RowFault};

/// The shot on which paths are resolved.
#[derive(Drop)]
pub(crate) struct ShotRows {
    shot: Shot,
}

/// What is asked of the answer to a path.
#[derive(Clone, Copy, Drop)]
enum Question {
    /// `resolve PATH`: what it is.
    Answer,
    /// `bytes PATH`: the bytes of the file.
    Bytes,
    /// `shared-bytes PATH`: the bytes of the file, lent from a second reference to it.
    SharedBytes,
    /// `names PATH`: the names of the folder.
    Names,
    /// `shared-names PATH`: the names of the folder, lent from a second reference to it.
    SharedNames,
}

impl ShotRows {
    /// A shot of nothing.
    pub(crate) fn new(alloc: Global) -> ShotRows {
        ShotRows {
            shot: empty_shot(alloc, None),
        }
    }

    /// What the call of a row answers, where it is one of these.
    pub(crate) fn call(&mut self, alloc: Global, row: &Row<'_>) -> Option<Line> {
        match row.name() {
            "shot" => Some(self.make(alloc, row)),
            "shot-gateway" => Some(self.put_gateway(row)),
            "shot-module" => Some(self.put_whole(alloc, row)),
            "shot-missing" => Some(self.put_line(row, false, None)),
            "shot-compressed" => Some(self.put_line(row, true, None)),
            _ => self.asked(alloc, row),
        }
    }

    /// The answer, where the row is a question on the shot.
    fn asked(&self, alloc: Global, row: &Row<'_>) -> Option<Line> {
        match row.name() {
            "resolve" => Some(self.told(alloc, row, Question::Answer)),
            "bytes" => Some(self.told(alloc, row, Question::Bytes)),
            "shared-bytes" => Some(self.told(alloc, row, Question::SharedBytes)),
            "same" => Some(self.compared(alloc, row)),
            "names" => Some(self.told(alloc, row, Question::Names)),
            "shared-names" => Some(self.told(alloc, row, Question::SharedNames)),
            "cross-threads" => Some(crossing(row)),
            _ => None,
        }
    }

    /// Makes a shot anew, of a label or of `none`, and of the identifications of the DIIs that are held.
    fn make(&mut self, alloc: Global, row: &Row<'_>) -> Line {
        self.shot = empty_shot(alloc, label_of(row));
        for place in 1..row.len() {
            row.push(&mut self.shot.held, row.short(place));
        }
        row.line().text("made")
    }

    /// Puts the gateway at a carousel, a module and a key, delivered by a transactionId or by `none` that is known.
    fn put_gateway(&mut self, row: &Row<'_>) -> Line {
        let key = row.octets(2);
        if key.len() > 255 {
            return row.failed(RowFault::BadRow);
        }
        let location = Location {
            carousel: row.long(0),
            module: row.short(1),
            key: Key::new(key),
        };
        let delivery = delivery_of(row);
        self.shot.gateway = Some(Gateway { location, delivery });
        row.line().text("put")
    }

    /// Puts a module that is whole behind those of the table.
    fn put_whole(&mut self, alloc: Global, row: &Row<'_>) -> Line {
        match module_of(alloc, row.octets(2)) {
            Ok(module) => self.put_line(row, false, Some(module)),
            Err(_) => row.failed(RowFault::NoMemory),
        }
    }

    /// Puts a module of a DII behind those of the table; the row says the DII's identification and the module's id.
    fn put_line(&mut self, row: &Row<'_>, compressed: bool, module: Option<Arc<Module>>) -> Line {
        let line = ModuleLine {
            id: row.short(1),
            size: 0,
            version: 0,
            compressed,
        };
        let held = Held {
            identification: row.short(0),
            line,
            module,
        };
        row.push(&mut self.shot.table, held);
        row.line().text("put")
    }

    /// What is asked of the answer to the path of a row.
    fn told(&self, alloc: Global, row: &Row<'_>, question: Question) -> Line {
        match answer_on(alloc, row, &self.shot, 0) {
            Ok(answer) => told(alloc, row, &answer, question),
            Err(fault) => row.failed(fault),
        }
    }

    /// Whether the answers to the two paths of a row are the same.
    fn compared(&self, alloc: Global, row: &Row<'_>) -> Line {
        match answer_on(alloc, row, &self.shot, 0) {
            Ok(first) => self.compared_to(alloc, row, &first),
            Err(fault) => row.failed(fault),
        }
    }

    /// Whether an answer and that to the second path of a row are the same.
    fn compared_to(&self, alloc: Global, row: &Row<'_>, first: &Answer) -> Line {
        match answer_on(alloc, row, &self.shot, 1) {
            Ok(second) => compared_text(row.line(), same(first, &second)),
            Err(fault) => row.failed(fault),
        }
    }
}

/// The answer on a shot to the path that the word at a place says.
pub(crate) fn answer_on(
    alloc: Global,
    row: &Row<'_>,
    shot: &Shot,
    place: usize,
) -> Result<Answer, RowFault> {
    match path_at(alloc, row, place) {
        Ok(path) => answer_to(shot, &path),
        Err(fault) => Err(fault),
    }
}

fn answer_to(shot: &Shot, path: &Path) -> Result<Answer, RowFault> {
    match resolve(shot, path) {
        Ok(answer) => Ok(answer),
        Err(_) => Err(RowFault::NoMemory),
    }
}

fn compared_text(line: Line, same: bool) -> Line {
    match same {
        true => line.text("the same"),
        false => line.text("not the same"),
    }
}

/// What is asked of an answer, or what it is where it isn't one of that.
fn told(alloc: Global, row: &Row<'_>, answer: &Answer, question: Question) -> Line {
    match (question, answer) {
        (Question::Bytes, Answer::File(file)) => row.line().bytes("", file.bytes()),
        (Question::SharedBytes, Answer::File(file)) => shared_bytes(row, file),
        (Question::Names, Answer::Folder(folder)) => names_text(alloc, row.line(), folder),
        (Question::SharedNames, Answer::Folder(folder)) => shared_names(alloc, row, folder),
        _ => answer_text(row.line(), answer),
    }
}

fn shared_bytes(row: &Row<'_>, file: &FileRef) -> Line {
    match FileRef::share(file) {
        Ok(file) => row.line().bytes("", file.bytes()),
        Err(_) => row.failed(RowFault::NoMemory),
    }
}

fn shared_names(alloc: Global, row: &Row<'_>, folder: &FolderRef) -> Line {
    match folder.share() {
        Ok(folder) => names_text(alloc, row.line(), &folder),
        Err(_) => row.failed(RowFault::NoMemory),
    }
}

/// Shots and answers may cross threads.
fn crossing(row: &Row<'_>) -> Line {
    cross_threads();
    row.line().text("shots and answers may cross threads")
}

/// The label that a row says, or `none`.
fn label_of(row: &Row<'_>) -> Option<u64> {
    match row.text(0) {
        "none" => None,
        _ => Some(row.wide(0)),
    }
}

/// The transactionId that a row says, or `none`.
fn delivery_of(row: &Row<'_>) -> Option<u32> {
    match row.text(3) {
        "none" => None,
        _ => Some(row.long(3)),
    }
}

/// A shot without a DII, a gateway and a module.
fn empty_shot(alloc: Global, label: Option<u64>) -> Shot {
    Shot {
        number: 0,
        draws: 0,
        mark: 0,
        epoch: 0,
        label,
        held: Vec::new(alloc),
        gateway: None,
        table: Vec::new(alloc),
    }
}

/// The module of these bytes.
fn module_of(alloc: Global, bytes: Vec<u8>) -> Result<Arc<Module>, AllocError> {
    match Module::read(alloc, bytes) {
        Ok(module) => shared(alloc, module),
        Err((error, _bytes)) => Err(error),
    }
}

fn shared(alloc: Global, module: Module) -> Result<Arc<Module>, AllocError> {
    Ok(Arc::new(alloc, module)?)
}

/// The path that the word at a place says.
pub(crate) fn path_at(alloc: Global, row: &Row<'_>, place: usize) -> Result<Path, RowFault> {
    match Path::parse(alloc, row.text(place).as_bytes()) {
        Ok(path) => Ok(path),
        Err(PathFault::NoMemory) => Err(RowFault::NoMemory),
        Err(_fault) => Err(RowFault::BadRow),
    }
}

/// Puts an answer behind what stands: a file with how many bytes it has, a folder with how many names it has, or the cause with its
/// module and place.
pub(crate) fn answer_text(line: Line, answer: &Answer) -> Line {
    match answer {
        Answer::File(file) => line.value("file ", &file.bytes().len()),
        Answer::Folder(folder) => line.value("folder ", &folder.count()),
        Answer::NoSuch => line.text("no-such"),
        Answer::NotYet(module) => line.value("not-yet ", module),
        Answer::NoCarousel => line.text("no-carousel"),
        Answer::Elsewhere => line.text("elsewhere"),
        Answer::Compressed(module) => line.value("compressed ", module),
        Answer::Bad(module, place) => line.value("bad ", module).value(" ", place),
        Answer::Dangling(module) => line.value("dangling ", module),
        Answer::OtherKind(module) => line.value("other-kind ", module),
    }
}

/// Puts how many names a folder has, and the names in its order, behind what stands; one that stood before is in brackets.
fn names_text(alloc: Global, line: Line, folder: &FolderRef) -> Line {
    let mut line = line.value("names ", &folder.count()).text(":");
    for i in 0..folder.count() {
        let name = print_name(alloc, folder.name(i));
        line = name_text(line, name, folder.is_first(i));
    }
    line
}

fn name_text(line: Line, name: Result<String, AllocError>, is_first: bool) -> Line {
    match is_first {
        true => line.made(" ", name),
        false => line.made(" (", name).text(")"),
    }
}
