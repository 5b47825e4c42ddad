ghost use Rattle.std.specs.Prelude.{◌≡◌, ◌≤◌};
ghost use Rattle.std.specs.List.{All};
ghost use Rattle.station.specs.Passes.{IsStationPass};

use cycle_planner::{GREATEST_ID, Weigh};
use generation_catalogue::{Batch, Catalogue, CommitFault, DrawFault, Entry, Journal, Refusal};
use oc_bytes::{Blob, NoMemory};
use path_tree::{Edit, EditFault, Edits, Path};
use station::{Pass, Station};
use std::alloc::Global;
use std::sync::{Mutex, Wait};
use std::test::Fail;
use std::thread;
use std::thread::Threads;

/// What a call was answered: a generation's number, that the first edit removes no file, or what was drawn.
#[derive(Clone, Copy, PartialEq, Eq)]
enum Answer {
    Accepted(u64),
    NoSuchFile,
    Drawn(u64, u64, usize),
    Other,
}

/// One call: the number of its pass, and its answer.
#[derive(Clone, Copy, PartialEq, Eq)]
struct Note {
    by: u32,
    answer: Answer,
}

/// The edits of one commit.
#[derive(Clone, Copy)]
enum Change {
    Nothing,
    PutFile,
    RemoveFile,
}

/// How often each pass makes its call: an editor commits this change, and the pass after the editors' draws.
#[derive(Clone, Copy)]
struct Work {
    change: Change,
    times: u32,
    editors: u32,
}

fn edits_of(alloc: Global, change: Change) -> Option<Vec<Edit>> {
    let path = Path::parse(alloc, b"/x").ok()?;
    let mut edits = Vec::new(alloc);
    match change {
        Change::Nothing => {}
        Change::PutFile => {
            let content = Blob::new(alloc, vec![in alloc; 1].ok()?).ok()?;
            edits.push(Edit::Put(path, content)).ok()?;
        }
        Change::RemoveFile => edits.push(Edit::Remove(path)).ok()?,
    }
    Some(edits)
}

fn of_commit(answer: Result<u64, CommitFault>) -> Answer {
    match answer {
        Ok(number) => Answer::Accepted(number),
        Err(CommitFault::Refused(Refusal::Edit(0, EditFault::NoSuchFile))) => Answer::NoSuchFile,
        Err(_) => Answer::Other,
    }
}

fn of_draw(answer: Result<Batch, DrawFault>) -> Answer {
    match answer {
        Ok(batch) => Answer::Drawn(batch.generation.number(), batch.first, batch.items.len()),
        Err(_) => Answer::Other,
    }
}

/// One call of a pass: an editor commits, and the feeder draws.
fn call<R: Wait>(
    rt: &R,
    alloc: Global,
    station: &Station,
    pass: &mut Pass,
    work: Work,
) -> Option<Answer>
    requires { IsStationPass station.now pass.old }
    ensures { IsStationPass station.now pass.new }
{
    if pass.number() < work.editors {
        let edits = edits_of(alloc, work.change)?;
        return Some(of_commit(station.commit(rt, pass, edits)));
    }
    Some(of_draw(station.draw(rt, pass, 1)))
}

/// A pass at work. Each answer is noted; one for which there is no memory is missed later.
fn act<R: Wait>(
    rt: &R,
    alloc: Global,
    station: &Station,
    pass: &mut Pass,
    work: Work,
    notes: &Mutex<Vec<Note>>,
)
    requires { IsStationPass station.now pass.old }
    ensures { IsStationPass station.now pass.new }
{
    let by = pass.number();
    for _ in 0..work.times {
        if let Some(answer) = call(rt, alloc, station, pass, work) {
            let _noted = notes.lock(rt).push(Note { by, answer });
        }
    }
}

/// Each pass is at work in a thread of its own.
fn act_all<R: Threads + Wait + Sync>(
    rt: &R,
    alloc: Global,
    station: &Station,
    passes: &mut [Pass],
    work: Work,
    notes: &Mutex<Vec<Note>>,
)
    requires { All (IsStationPass station.now) passes.old }
    ensures { All (IsStationPass station.now) passes.new }
{
    thread::for_each_mut(
        rt,
        passes,
        9,
        &|_: usize, pass: &mut Pass|
            requires { IsStationPass station.now pass.now }
            ensures { IsStationPass station.entry.now pass.exit.now }
        { act(rt, alloc, station, pass, work, notes) },
    );
}

/// A station's whole life: all its passes are at this work, and then at that. The answers are noted. Each module weighs 1.
fn live<R: Threads + Wait + Sync>(
    rt: &R,
    alloc: Global,
    work: Work,
    then: Work,
    notes: &Mutex<Vec<Note>>,
) -> Result<Journal, NoMemory>
    requires { work.editors ≤ 64 }
{
    let call = Box::new(
        alloc,
        |_id: u16| -> u8
            ensures { result ≡ 1 }
        { 1 },
    )?;
    let weigh = Weigh::new([1; GREATEST_ID], call);
    let (station, mut passes) = Station::new(alloc, work.editors, 7, weigh)?;
    let lent = passes.as_mut_slice();
    act_all(rt, alloc, &station, lent, work, notes);
    act_all(rt, alloc, &station, lent, then, notes);
    let (journal, _weigh) = station.close(passes).into_parts();
    Ok(journal)
}

/// The same edits again.
fn copy(alloc: Global, edits: &Edits) -> Result<Vec<Edit>, NoMemory> {
    let mut copies = Vec::new(alloc);
    for edit in edits.list() {
        copies.push(edit.share()?)?;
    }
    Ok(copies)
}

/// What a catalogue of its own answers to the calls of these entries.
fn replay(alloc: Global, entries: &[Entry], feeder: u32) -> Result<Vec<Note>, NoMemory> {
    let call = Box::new(
        alloc,
        |_id: u16| -> u8
            ensures { result ≡ 1 }
        { 1 },
    )?;
    let weigh = Weigh::new([1; GREATEST_ID], call);
    let mut catalogue = Catalogue::new(alloc, 7, weigh)?;
    let mut notes = Vec::new(alloc);
    for entry in entries {
        notes.push(match entry {
            Entry::Commit { editor, edits, .. } => Note {
                by: *editor,
                answer: of_commit(catalogue.commit(*editor, copy(alloc, edits)?)),
            },
            Entry::Draw { .. } => Note {
                by: feeder,
                answer: of_draw(catalogue.draw(1)),
            },
        })?;
    }
    Ok(notes)
}

/// The notes by their passes, those of one pass in order.
fn sorted(mut notes: Vec<Note>) -> Result<Vec<Note>, NoMemory> {
    notes.sort_by_key(|note| note.by)?;
    Ok(notes)
}

/// Whether each pass was answered, in its order, what the entries replay to.
fn is_replayed(
    alloc: Global,
    entries: &[Entry],
    notes: Vec<Note>,
    feeder: u32,
) -> Result<bool, NoMemory> {
    let replayed = replay(alloc, entries, feeder)?;
    Ok(sorted(notes)?.as_slice() == sorted(replayed)?.as_slice())
}

/// Whether one pass removed the file, in generation 3, and the other found none.
fn is_removed(notes: &[Note], by: u32, too_late: u32) -> bool {
    let removed = Note {
        by,
        answer: Answer::Accepted(3),
    };
    let missing = Note {
        by: too_late,
        answer: Answer::NoSuchFile,
    };
    notes.contains(&removed) && notes.contains(&missing)
}

#[test]
fn of_two_removals_of_one_file_one_is_accepted(rt: HostRuntime) -> Result<(), Fail> {
    let alloc = rt.alloc();
    let notes = Mutex::new(Vec::new(alloc));
    let put = Work {
        change: Change::PutFile,
        times: 1,
        editors: 2,
    };
    let remove = Work {
        change: Change::RemoveFile,
        times: 1,
        editors: 2,
    };
    let journal = live(&rt, alloc, put, remove, &notes)?;
    let notes = notes.into_inner();
    assert!(rt; notes.len() == 6 && journal.entries().len() == 6);
    assert!(rt; is_removed(&notes, 0, 1) || is_removed(&notes, 1, 0));
    assert!(rt; is_replayed(alloc, journal.entries(), notes, 2)?);
    Ok(())
}

#[test]
fn the_entries_of_nine_threads_replay(rt: HostRuntime) -> Result<(), Fail> {
    let alloc = rt.alloc();
    let notes = Mutex::new(Vec::new(alloc));
    let work = Work {
        change: Change::Nothing,
        times: 500,
        editors: 8,
    };
    let journal = live(&rt, alloc, work, work, &notes)?;
    let notes = notes.into_inner();
    assert!(rt; notes.len() == 9000 && journal.entries().len() == 9000);
    assert_eq!(rt; journal.current().number(), 8000);
    assert!(rt; is_replayed(alloc, journal.entries(), notes, 8)?);
    Ok(())
}
