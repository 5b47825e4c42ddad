//! A world of a broadcaster and a receiver, and the events that happen in it.
ghost use Rattle.std.specs.Prelude.{IfOk, map};
ghost use Rattle.std.specs.List.{All};
ghost use Rattle.carousel_world.specs.Events.{view};
ghost use Rattle.carousel_world.specs.World.{InRange};

use crate::texts::{Told, answer_text, answered, each};
use crate::words::{edits, path};
use carousel_world::{Event, Fate, Reply, World};
use cycle_planner::MOST_DRAWN;
use path_resolver::Answer;
use path_tree::Edits;
use std::alloc::{AllocError, Global};
use test_rows::{Line, Row, RowFault};

/// What each event of a row replies in a world: `commit` with an editor and edits, `draw` and
/// `lose` with the number of items, and `open` with a reader and a path. Each packet of `lose` is
/// lost. A draw is in a list of its own.
pub(crate) fn replies(alloc: Global, row: &Row<'_>, world: &mut World) -> Line {
    let mut line = row.line();
    for place in 2..row.len() {
        if let Some(reply) = reply(alloc, row, place, world) {
            line = answered(line, reply);
        }
    }
    line
}

/// What the event replies that begins at a place, if one does.
fn reply(alloc: Global, row: &Row<'_>, place: usize, world: &mut World) -> Option<Line> {
    let after = place.saturating_add(1);
    match row.text(place) {
        "commit" => Some(stepped(row, world, commit(alloc, row, after))),
        "draw" => Some(ran(row, world, draws(alloc, row, after, false))),
        "lose" => Some(ran(row, world, draws(alloc, row, after, true))),
        "open" => Some(stepped(row, world, open(alloc, row, after))),
        _ => None,
    }
}

/// What an event replies.
fn stepped(row: &Row<'_>, world: &mut World, event: Result<Event, RowFault>) -> Line
    requires { IfOk event (λ e. InRange (view e)) }
{
    match event {
        Ok(event) => reply_text(row, world.step(event)),
        Err(fault) => row.failed(fault),
    }
}

fn reply_text(row: &Row<'_>, reply: Result<Reply, AllocError>) -> Line {
    match reply {
        Ok(reply) => reply.told(row.line()),
        Err(_) => row.failed(RowFault::NoMemory),
    }
}

/// What a list of events replies.
fn ran(row: &Row<'_>, world: &mut World, events: Result<Vec<Event>, RowFault>) -> Line
    requires { IfOk events (λ es. All InRange (map view es.items)) }
{
    match events {
        Ok(events) => replies_text(row, world.run(events)),
        Err(fault) => row.failed(fault),
    }
}

fn replies_text(row: &Row<'_>, replies: Result<Vec<Reply>, AllocError>) -> Line {
    match replies {
        Ok(replies) => each(row.line(), &replies),
        Err(_) => row.failed(RowFault::NoMemory),
    }
}

fn commit(alloc: Global, row: &Row<'_>, place: usize) -> Result<Event, RowFault>
    ensures { IfOk result (λ e. InRange (view e)) }
{
    let editor = row.long(place);
    if editor < 1 || editor > 64 {
        return Err(RowFault::BadRow);
    }
    Ok(Event::Commit {
        editor,
        edits: Edits::new(edits(alloc, row, place.saturating_add(1))),
    })
}

/// A list of one draw, of which each packet is lost or none is.
fn draws(alloc: Global, row: &Row<'_>, place: usize, is_lost: bool) -> Result<Vec<Event>, RowFault>
    ensures { IfOk result (λ es. All InRange (map view es.items)) }
{
    let asked = row.long(place);
    if asked < 1 || asked > MOST_DRAWN {
        return Err(RowFault::BadRow);
    }
    let fates = fates(alloc, row, is_lost);
    let mut events = Vec::new(alloc);
    events.push(Event::Draw { asked, fates })?;
    Ok(events)
}

/// The fates of a draw's packets: that each is lost, or none.
fn fates(alloc: Global, row: &Row<'_>, is_lost: bool) -> Vec<Fate> {
    let mut fates = Vec::new(alloc);
    if is_lost {
        row.push(&mut fates, Fate::Lose);
    }
    fates
}

fn open(alloc: Global, row: &Row<'_>, place: usize) -> Result<Event, RowFault>
    ensures { IfOk result (λ e. InRange (view e)) }
{
    let reader = row.long(place);
    if reader < 1 || reader > 64 {
        return Err(RowFault::BadRow);
    }
    Ok(Event::Open {
        reader,
        path: path(alloc, row, place.saturating_add(1))?,
    })
}

impl Told for Reply {
    fn told(&self, line: Line) -> Line {
        match self {
            Reply::Committed(number) => line.value("generation ", number),
            Reply::Refused(refusal) => line.value("refused: ", refusal),
            Reply::Drawn {
                generation,
                first,
                count,
            } => line
                .value("", count)
                .value(" items of generation ", generation)
                .value(" from ", first),
            Reply::DrawsFull(draws) => line.value("", draws).text(" draws are made, the most"),
            Reply::Opened { label, answer } => opened_text(line, *label, answer),
        }
    }
}

/// Puts what an open replies behind what stands: the label of the generation, and the answer.
fn opened_text(line: Line, label: Option<u64>, answer: &Answer) -> Line {
    match label {
        Some(label) => answer_text(line.value("in generation ", &label).text(": "), answer),
        None => answer_text(line.text("in no generation: "), answer),
    }
}
