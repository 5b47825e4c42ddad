//! One history. What is lent is shared in it, so that no bytes or names are copied.
ghost use Rattle.std.specs.Prelude.{◌≡◌, ◌++◌, IfOk, OnOk, map, flat_map};
ghost use Rattle.std.specs.List.{range_with_len};
ghost use Rattle.carousel_world.specs.Events.{Commit, Draw};
ghost use Rattle.carousel_world.specs.World.{commit_reply};
ghost use Rattle.history_merge.specs.Merging.{known_view, fates_view, opened_of, merge_of};
ghost use Rattle.history_merge.specs.Merged.{AreParts};
ghost use Rattle.history_merge.specs.Inner.{view_waiting, waited_by, Climb, HasTold, AllClimb, HaveTold};

use carousel_world::{Event, Fate, Reply};
use generation_catalogue::{Entry, Refusal};
use oc_bytes::NoMemory;
use open_history::{OpenEntry, ReaderPass};
use path_tree::Edits;
use std::alloc::Global;

/// The greatest number of a reader.
const LAST_READER: u32 = 64;

/// The history of a session: the entries in order, as events with replies, and after each draw the
/// opens whose shots had heard that many draws.
///
/// - `entries`: the catalogue's.
/// - `fates`: for each draw, its packets' fates.
/// - `editors`: their numbers. An entry has an editor's place in this list, from 0; its event has
///   the number.
/// - `passes`: the readers', with numbers 1 to 64, each once. A reader's counts of draws never
///   fall.
///
/// Opens after the same draw are ordered by reader, and each reader's are in its own order.
pub fn merge(
    alloc: Global,
    entries: &[Entry],
    fates: &[Vec<Fate>],
    editors: &[u32],
    passes: &[ReaderPass],
) -> Result<Vec<(Event, Reply)>, NoMemory>
    requires { AreParts entries.now (map fates_view fates.now) editors.now passes.now }
    ensures { IfOk result (λ told.
        map known_view told.items
        ≡ merge_of editors.now passes.now (map fates_view fates.now) entries.now) }
{
    let mut readers = by_number(alloc, passes)?;
    let waiting = readers.as_mut_slice();
    let mut told = Vec::new(alloc);
    tell_all(waiting, 0, &mut told)?;
    let mut draws: usize = 0;
    for entry in entries {
        match entry {
            Entry::Commit {
                editor,
                edits,
                outcome,
            } => {
                let number = editors[*editor as usize];
                told.push(told_commit(alloc, number, edits, outcome)?)?;
            }
            Entry::Draw {
                asked,
                generation,
                first,
                count,
            } => {
                let reply = Reply::Drawn {
                    generation: *generation,
                    first: *first,
                    count: *count,
                };
                told.push(told_draw(*asked, &fates[draws], reply)?)?;
                draws += 1;
                tell_all(waiting, draws as u64, &mut told)?;
            }
        }
    }
    Ok(told)
}

fn told_commit(
    alloc: Global,
    editor: u32,
    edits: &Edits,
    outcome: &Result<u64, Refusal>,
) -> Result<(Event, Reply), NoMemory>
    ensures { IfOk result (λ x.
        known_view x ≡ (Commit editor edits.now, commit_reply outcome.now)) }
{
    let edits = edits_again(alloc, edits)?;
    let reply = match outcome {
        Ok(number) => Reply::Committed(*number),
        Err(refusal) => Reply::Refused(refusal.share()?),
    };
    Ok((Event::Commit { editor, edits }, reply))
}

fn told_draw(asked: u32, fates: &Vec<Fate>, reply: Reply) -> Result<(Event, Reply), NoMemory>
    ensures { IfOk result (λ x. known_view x ≡ (Draw asked fates.now.items, reply)) }
{
    let event = Event::Draw {
        asked,
        fates: fates.clone()?,
    };
    Ok((event, reply))
}

fn edits_again(alloc: Global, edits: &Edits) -> Result<Edits, NoMemory>
    ensures { IfOk result (λ e. e ≡ edits.now) }
{
    let given = edits.list();
    let mut list = Vec::with_capacity(alloc, given.len())?;
    for edit in given {
        list.push(edit.share()?)?;
    }
    Ok(Edits::new(list))
}

fn told_open(reader: u32, opened: &OpenEntry) -> Result<(Event, Reply), NoMemory>
    ensures { IfOk result (λ x. known_view x ≡ opened_of reader opened.now) }
{
    let event = Event::Open {
        reader,
        path: opened.path.share()?,
    };
    let reply = Reply::Opened {
        label: opened.label,
        answer: opened.answer.share()?,
    };
    Ok((event, reply))
}

/// A reader's opens that aren't in the history yet.
#[derive(Clone, Copy)]
struct Waiting<'a> {
    reader: u32,
    opens: &'a [OpenEntry],
}

impl<'a> Waiting<'a> {
    /// Tells the opens whose shots had heard this many draws; they are the first.
    fn tell(&mut self, draws: u64, told: &mut Vec<(Event, Reply)>) -> Result<(), NoMemory>
        requires { Climb draws self.old.opens.now }
        ensures { OnOk result (HasTold draws (view_waiting self.old) (view_waiting self.new)
            (map known_view told.old.items) (map known_view told.new.items)) }
    {
        while let [first, rest @ ..] = self.opens {
            if first.draws != draws {
                return Ok(());
            }
            told.push(told_open(self.reader, first)?)?;
            self.opens = rest;
        }
        Ok(())
    }
}

fn tell_all(
    waiting: &mut [Waiting<'_>],
    draws: u64,
    told: &mut Vec<(Event, Reply)>,
) -> Result<(), NoMemory>
    requires { AllClimb draws (map view_waiting waiting.old) }
    ensures { OnOk result (HaveTold draws (map view_waiting waiting.old)
        (map view_waiting waiting.new) (map known_view told.old.items)
        (map known_view told.new.items)) }
{
    for reader in waiting.iter_mut() {
        reader.tell(draws, told)?;
    }
    Ok(())
}

/// By readers' numbers.
fn by_number<'a>(alloc: Global, passes: &'a [ReaderPass]) -> Result<Vec<Waiting<'a>>, NoMemory>
    ensures { IfOk result (λ new.
        map view_waiting new.items ≡ flat_map (waited_by passes.now) (range_with_len 1 64)) }
{
    let mut waiting = Vec::with_capacity(alloc, passes.len())?;
    for number in 1..LAST_READER + 1 {
        push_reader(passes, number, &mut waiting)?;
    }
    Ok(waiting)
}

fn push_reader<'a>(
    passes: &'a [ReaderPass],
    number: u32,
    waiting: &mut Vec<Waiting<'a>>,
) -> Result<(), NoMemory>
    ensures { OnOk result (map view_waiting waiting.new.items
        ≡ map view_waiting waiting.old.items ++ waited_by passes.now number) }
{
    for pass in passes {
        if pass.reader() == number {
            waiting.push(Waiting {
                reader: number,
                opens: pass.opens(),
            })?;
        }
    }
    Ok(())
}
