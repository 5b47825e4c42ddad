//! A history without what answers its weights.

use crate::words::{edits, push_edit, put_shared, zeros};
use cycle_planner::GREATEST_ID;
use generation_catalogue::{CommitFault, Journal};
use oc_bytes::Blob;
use path_tree::{Edit, Edits};
use std::alloc::Global;
use test_rows::{Line, Row, RowFault};

/// The history that the rows made last. Each module weighs 1.
#[derive(Drop)]
pub(crate) struct Journals {
    current: Option<Journal>,
}

impl Journals {
    /// No history yet.
    pub(crate) fn new() -> Journals {
        Journals { current: None }
    }

    /// The answer, where the row is a call on a history.
    pub(crate) fn call(&mut self, alloc: Global, row: &Row<'_>) -> Option<Line> {
        if row.name() == "journal-new" {
            return Some(self.begin(alloc, row));
        }
        match &mut self.current {
            Some(journal) => call_on(alloc, row, journal),
            None => None,
        }
    }

    /// A history of no commit.
    fn begin(&mut self, alloc: Global, row: &Row<'_>) -> Line {
        match Journal::new(alloc, row.long(0), [1; GREATEST_ID]) {
            Ok(journal) => {
                self.current = Some(journal);
                row.line().text("new")
            }
            Err(_) => row.failed(RowFault::NoMemory),
        }
    }
}

/// The answer, where the row is a call on this history.
fn call_on(alloc: Global, row: &Row<'_>, journal: &mut Journal) -> Option<Line> {
    match row.name() {
        "journal" => Some(journal_text(row.line(), journal)),
        "journal-commit" => Some(commit(row, journal, edits(alloc, row, 1))),
        "journal-puts" => Some(commit(row, journal, puts(alloc, row))),
        "journal-commits" => Some(commits(alloc, row, journal)),
        _ => None,
    }
}

/// Puts of so many files of so many zero bytes in the root, each with a name of one byte, from `0`
/// on.
fn puts(alloc: Global, row: &Row<'_>) -> Vec<Edit> {
    let mut edits = Vec::new(alloc);
    match zeros(alloc, row.count(2)) {
        Ok(content) => push_puts(alloc, row, &content, &mut edits),
        Err(_) => row.fail(RowFault::NoMemory),
    }
    edits
}

fn push_puts(alloc: Global, row: &Row<'_>, content: &Blob, edits: &mut Vec<Edit>) {
    for byte in 48..row.long(1).saturating_add(48) {
        push_edit(row, edits, put_byte(alloc, byte, content));
    }
}

/// The put at the path of a name of one byte.
fn put_byte(alloc: Global, byte: u32, content: &Blob) -> Result<Edit, RowFault> {
    let text = format!(in alloc; "/%{byte:02x}")?;
    put_shared(alloc, text.as_bytes(), content)
}

/// Commits edits of the editor that a row says: the number of the generation that they make, or why
/// they make none.
fn commit(row: &Row<'_>, journal: &mut Journal, edits: Vec<Edit>) -> Line {
    let outcome = journal.commit_edits(row.long(0), Edits::new(edits));
    outcome_text(row.line(), &outcome)
}

/// Puts the number of the generation that a commit made, or why it made none, behind what stands.
pub(crate) fn outcome_text(line: Line, outcome: &Result<u64, CommitFault>) -> Line {
    match outcome {
        Ok(number) => line.value("generation ", number),
        Err(fault) => line.value("", fault),
    }
}

/// Makes so many commits of no edits, and says which generations they make.
fn commits(alloc: Global, row: &Row<'_>, journal: &mut Journal) -> Line {
    let before = journal.current().number();
    let mut last = before;
    for _ in 0..row.wide(0) {
        match journal.commit_edits(1, Edits::new(Vec::new(alloc))) {
            Ok(number) if last.checked_add(1) == Some(number) => last = number,
            outcome => return outcome_text(row.line(), &outcome),
        }
    }
    row.line()
        .value("each generation after ", &before)
        .value(" up to ", &last)
}

/// Puts how many entries a history has, and what its current generation is, behind what stands.
fn journal_text(line: Line, journal: &Journal) -> Line {
    let current = journal.current();
    line.value("entries ", &journal.entries().len())
        .value(", generation ", &current.number())
        .value(", files ", &current.tree().len())
        .value(", modules ", &current.lines().len())
}
