//! One generation after another.
ghost use Rattle.std.specs.Prelude.{◌≡◌, None};
ghost use Rattle.generation.specs.Publication.{limit_of};

use crate::texts::{Told, each};
use crate::words::{edits, path_of, push_edit, put_shared, zeros};
use dsi_dii::LAST_GENERATION;
use generation::{Generation, Limit, check, checked};
use oc_bytes::Blob;
use path_tree::{Edit, Tree, apply};
use std::alloc::{AllocError, Global};
use test_rows::{Line, Row, RowFault};

/// The generation that the rows made last.
#[derive(Drop)]
pub(crate) struct Generations {
    current: Option<Generation>,
}

impl Generations {
    /// No generation yet.
    pub(crate) fn new() -> Generations {
        Generations { current: None }
    }

    /// The generation that the rows made last.
    pub(crate) fn current(&self) -> Option<&Generation> {
        self.current.as_ref()
    }

    /// The answer, where the row is a call on generations.
    pub(crate) fn call(&mut self, alloc: Global, row: &Row<'_>) -> Option<Line> {
        match row.name() {
            "generation-new" => Some(self.keep(row, Generation::first(alloc, row.long(0)))),
            "generation-files" => Some(self.put_edits(alloc, row, &files(alloc, row))),
            "generation-folders" => Some(self.put_edits(alloc, row, &folders(alloc, row))),
            "generation-tree" => Some(self.put_edits(alloc, row, &edits(alloc, row, 0))),
            "generation-edit" => Some(self.edit(alloc, row)),
            "limit-folder" => Some(folder_limit(alloc, row)),
            "limit-modules" => Some(modules_limit(row)),
            _ => match &self.current {
                Some(generation) => asked(row, generation),
                None => None,
            },
        }
    }

    /// The generation of the tree that edits of the empty one make.
    fn put_edits(&mut self, alloc: Global, row: &Row<'_>, edits: &[Edit]) -> Line {
        match apply(alloc, &Tree::empty(alloc), edits) {
            Ok(tree) => self.put_tree(alloc, row, tree),
            Err(_) => row.failed(RowFault::BadRow),
        }
    }

    /// The generation of a tree, or the limit that refuses it.
    fn put_tree(&mut self, alloc: Global, row: &Row<'_>, tree: Tree) -> Line {
        match check(alloc, &tree) {
            Ok(()) => self.put_checked(row, tree),
            Err(limit) => row.line().value("", &limit),
        }
    }

    fn put_checked(&mut self, row: &Row<'_>, tree: Tree) -> Line
        requires { limit_of tree ≡ None }
    {
        match &self.current {
            Some(generation) if generation.number() < LAST_GENERATION => {
                let next = generation.next(tree);
                self.keep(row, next)
            }
            _ => row.failed(RowFault::BadRow),
        }
    }

    /// The generation after edits of the tree.
    fn edit(&mut self, alloc: Global, row: &Row<'_>) -> Line {
        let edits = edits(alloc, row, 0);
        match &self.current {
            Some(generation) => match next_after(alloc, generation, &edits) {
                Ok(next) => self.keep(row, Ok(next)),
                Err(fault) => row.failed(fault),
            },
            None => row.failed(RowFault::BadRow),
        }
    }

    /// Makes this the generation that the rows made last, and says its number.
    fn keep(&mut self, row: &Row<'_>, generation: Result<Generation, AllocError>) -> Line {
        match generation {
            Ok(generation) => {
                let line = row.line().value("generation ", &generation.number());
                self.current = Some(generation);
                line
            }
            Err(_) => row.failed(RowFault::NoMemory),
        }
    }
}

/// The answer, where the row is a question on a generation.
fn asked(row: &Row<'_>, generation: &Generation) -> Option<Line> {
    match row.name() {
        "generation-lines" => Some(each(row.line(), generation.lines())),
        "generation-modules" => Some(row.line().value("", &generation.lines().len())),
        "generation-size" => Some(size(row, generation)),
        "generation-count" => Some(row.line().value("", &generation.count(row.short(0)))),
        _ => None,
    }
}

/// How many bytes a module has.
fn size(row: &Row<'_>, generation: &Generation) -> Line {
    match generation.module(row.short(0)) {
        Ok(Some(module)) => row.line().value("", &module.bytes().len()),
        Ok(None) => row.line().text("no such module"),
        Err(_) => row.failed(RowFault::NoMemory),
    }
}

/// A module's id and its number of blocks.
impl Told for (u16, u32) {
    fn told(&self, line: Line) -> Line {
        line.value("", &self.0).value(":", &self.1)
    }
}

/// Puts of so many files of so many zero bytes: the words are the front of their paths, how many
/// they are, and their size.
fn files(alloc: Global, row: &Row<'_>) -> Vec<Edit> {
    let mut edits = Vec::new(alloc);
    match zeros(alloc, row.count(2)) {
        Ok(content) => push_puts(alloc, row, &content, &mut edits),
        Err(_) => row.fail(RowFault::NoMemory),
    }
    edits
}

fn push_puts(alloc: Global, row: &Row<'_>, content: &Blob, edits: &mut Vec<Edit>) {
    let front = row.octets(0);
    for number in 0..row.long(1) {
        push_edit(row, edits, put_numbered(alloc, &front, number, content));
    }
}

/// The put at the path of this front and five digits.
fn put_numbered(
    alloc: Global,
    front: &[u8],
    number: u32,
    content: &Blob,
) -> Result<Edit, RowFault> {
    put_shared(alloc, &numbered(alloc, front, number)?, content)
}

/// So many folders that are made: the words are the front of their paths, and how many they are.
fn folders(alloc: Global, row: &Row<'_>) -> Vec<Edit> {
    let front = row.octets(0);
    let mut edits = Vec::new(alloc);
    for number in 0..row.long(1) {
        push_edit(row, &mut edits, make_numbered(alloc, &front, number));
    }
    edits
}

/// The folder that is made at the path of this front and five digits.
fn make_numbered(alloc: Global, front: &[u8], number: u32) -> Result<Edit, RowFault> {
    let text = numbered(alloc, front, number)?;
    Ok(Edit::MakeFolder(path_of(alloc, &text)?))
}

/// This front and a number in five digits.
fn numbered(alloc: Global, front: &[u8], number: u32) -> Result<Vec<u8>, AllocError> {
    let name = format!(in alloc; "{number:05}")?;
    let mut text = Vec::from_slice(alloc, front)?;
    text.extend_from_slice(name.as_bytes())?;
    Ok(text)
}

/// The generation after edits of another one's tree, where nothing refuses them.
fn next_after(
    alloc: Global,
    generation: &Generation,
    edits: &[Edit],
) -> Result<Generation, RowFault> {
    let Ok(tree) = apply(alloc, generation.tree(), edits) else {
        return Err(RowFault::BadRow);
    };
    let Ok(tree) = checked(alloc, tree) else {
        return Err(RowFault::BadRow);
    };
    if generation.number() >= LAST_GENERATION {
        return Err(RowFault::BadRow);
    }
    Ok(generation.next_after(tree, edits)?)
}

/// The text of the limit that a folder breaks.
fn folder_limit(alloc: Global, row: &Row<'_>) -> Line {
    match path_of(alloc, &row.octets(0)) {
        Ok(path) => row.line().value("", &Limit::FolderTooLarge(path)),
        Err(fault) => row.failed(fault),
    }
}

/// The text of the limit that a number of modules breaks.
fn modules_limit(row: &Row<'_>) -> Line {
    row.line().value("", &Limit::TooManyModules(row.count(0)))
}
