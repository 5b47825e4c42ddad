//! A catalogue: commits, and draws of what is sent next.
ghost use Rattle.std.specs.Prelude.{◌≡◌, ◌==◌, if◌then◌else◌, IfOk};
ghost use Rattle.std.specs.Arc.{arc_value};
ghost use Rattle.generation.specs.Layouts.{AreItemsOf};

use crate::journals::outcome_text;
use crate::texts::{answered, each};
use crate::words::edits;
use cycle_planner::{GREATEST_ID, Item, MOST_DRAWN, Weigh};
use generation::Generation;
use generation_catalogue::{Batch, Catalogue, CommitFault, Entry, Refusal};
use path_tree::Edit;
use std::alloc::Global;
use test_rows::{Line, Row, RowFault};

/// The answer, where the row is a new catalogue of a carousel and what is done to it, each deed
/// with its answer: `state`, `commit` with an editor and edits, `draw` and `sections` with the
/// number of items, and `entry` with a place.
pub(crate) fn call(alloc: Global, row: &Row<'_>) -> Option<Line> {
    match row.name() {
        "catalogue" => Some(done(alloc, row)),
        _ => None,
    }
}

/// What each deed answers, in a catalogue in which module 1 weighs 2, and every other one 1.
/// Neither it nor a commit leaves this function, since it holds a boxed closure.
fn done(alloc: Global, row: &Row<'_>) -> Line {
    let mut weights = [1; GREATEST_ID];
    weights[0] = 2;
    let call = Box::new(
        alloc,
        |id: u16| -> u8
            ensures { result ≡ (if id == 1 then 2 else 1) }
        { if id == 1 { 2 } else { 1 } },
    );
    let Ok(call) = call else {
        return row.failed(RowFault::NoMemory);
    };
    let weigh = Weigh::new(weights, call);
    let Ok(mut catalogue) = Catalogue::new(alloc, row.long(0), weigh) else {
        return row.failed(RowFault::NoMemory);
    };
    let mut line = row.line();
    for place in 1..row.len() {
        if row.text(place) == "commit" {
            let (editor, edits) = commit(alloc, row, place);
            line = committed(line, &catalogue.commit(editor, edits));
        } else {
            line = deed(line, row, place, &mut catalogue);
        }
    }
    line
}

/// Puts what the deed answers that begins at a place, if one does, behind what stands.
fn deed(line: Line, row: &Row<'_>, place: usize, catalogue: &mut Catalogue) -> Line {
    let after = place.saturating_add(1);
    match row.text(place) {
        "state" => answered(line, state(row, catalogue)),
        "draw" => answered(line, drawn(row, after, catalogue)),
        "sections" => answered(line, drawn_sections(row, after, catalogue)),
        "entry" => answered(line, entry(row, after, catalogue)),
        _ => line,
    }
}

/// The editor and the edits of the commit that begins at a place.
fn commit(alloc: Global, row: &Row<'_>, place: usize) -> (u32, Vec<Edit>) {
    let editor = row.long(place.saturating_add(1));
    (editor, edits(alloc, row, place.saturating_add(2)))
}

/// Puts what a commit answered behind what stands.
fn committed(line: Line, outcome: &Result<u64, CommitFault>) -> Line {
    outcome_text(line.between(" ").text("["), outcome).text("]")
}

/// How many entries there are, and the number of the current generation.
fn state(row: &Row<'_>, catalogue: &Catalogue) -> Line {
    row.line()
        .value("entries ", &catalogue.entries().len())
        .value(", generation ", &catalogue.current().number())
}

/// Draws at most so many items.
fn draw(row: &Row<'_>, after: usize, catalogue: &mut Catalogue) -> Result<Batch, RowFault>
    ensures { IfOk result (λ b. AreItemsOf (arc_value b.generation) b.items.items) }
{
    let asked = row.long(after);
    if asked < 1 || asked > MOST_DRAWN {
        return Err(RowFault::BadRow);
    }
    match catalogue.draw(asked) {
        Ok(batch) => Ok(batch),
        Err(_) => Err(RowFault::NoMemory),
    }
}

/// The number of a batch's generation, the place of its first item in the cycle, and its items.
fn drawn(row: &Row<'_>, after: usize, catalogue: &mut Catalogue) -> Line {
    match draw(row, after, catalogue) {
        Ok(batch) => batch_text(row, &batch),
        Err(fault) => row.failed(fault),
    }
}

fn batch_text(row: &Row<'_>, batch: &Batch) -> Line {
    row.line()
        .value("generation ", &batch.generation.number())
        .value(" from ", &batch.first)
        .line(": ", each(row.line(), &batch.items))
}

/// The sections of the items of a draw of at most so many.
fn drawn_sections(row: &Row<'_>, after: usize, catalogue: &mut Catalogue) -> Line {
    match sections_of_draw(row, after, catalogue) {
        Ok(line) => line,
        Err(fault) => row.failed(fault),
    }
}

fn sections_of_draw(
    row: &Row<'_>,
    after: usize,
    catalogue: &mut Catalogue,
) -> Result<Line, RowFault> {
    let batch = draw(row, after, catalogue)?;
    Ok(sections_text(row.line(), &batch.generation, &batch.items))
}

/// Puts the sections of some items of a generation behind what stands.
fn sections_text(mut line: Line, generation: &Generation, items: &[Item]) -> Line
    requires { AreItemsOf generation.now items.now }
{
    for item in items {
        line = line.between(" ").outcome(generation.section(*item));
    }
    line
}

/// The entry at a place.
fn entry(row: &Row<'_>, after: usize, catalogue: &Catalogue) -> Line {
    match catalogue.entries().get(row.count(after)) {
        Some(entry) => entry_text(row.line(), entry),
        None => row.failed(RowFault::BadRow),
    }
}

/// Puts one entry of a history behind what stands.
fn entry_text(line: Line, entry: &Entry) -> Line {
    match entry {
        Entry::Commit {
            editor,
            outcome,
            ..
        } => commit_text(line.value("commit by ", editor), outcome),
        Entry::Draw {
            asked,
            generation,
            first,
            count,
        } => line
            .value("draw of ", asked)
            .value(": ", count)
            .value(" of generation ", generation)
            .value(" from ", first),
    }
}

/// Puts the number of the generation that a commit made, or why it made none, behind what stands.
fn commit_text(line: Line, outcome: &Result<u64, Refusal>) -> Line {
    match outcome {
        Ok(number) => line.value(": generation ", number),
        Err(refusal) => line.value(": ", refusal),
    }
}
