// Commits on a station, and on a history with no lock.
ghost use Rattle.std.specs.Prelude.{◌≡◌, ◌≤◌};
ghost use Rattle.std.specs.List.{All};
ghost use Rattle.station.specs.Passes.{IsStationPass};

use cycle_planner::{GREATEST_ID, Weigh};
use generation_catalogue::{CommitFault, Journal};
use oc_bytes::{Blob, NoMemory};
use path_tree::{Edit, Edits, Path};
use station::{Pass, Station};
use std::alloc::Global;
use std::sync::Wait;
use std::thread;
use std::thread::Threads;

/// How many commits a round has in all. A catalogue takes at most 16,383.
const COMMITS: u32 = 16_000;

/// The edits of an editor's commit of this number: a put of 8 bytes, which name both, as the one
/// file that all editors put.
fn put(alloc: Global, editor: u32, number: u32) -> Option<Vec<Edit>> {
    let path = Path::parse(alloc, b"/file").ok()?;
    let mut bytes = Vec::new(alloc);
    bytes.extend_from_slice(&editor.to_be_bytes()).ok()?;
    bytes.extend_from_slice(&number.to_be_bytes()).ok()?;
    let mut edits = Vec::new(alloc);
    edits
        .push(Edit::Put(path, Blob::new(alloc, bytes).ok()?))
        .ok()?;
    Some(edits)
}

fn is_accepted(answer: Result<u64, CommitFault>) -> bool {
    answer.is_ok()
}

/// Whether an editor's commit of this number is accepted.
fn commit<R: Wait>(rt: &R, alloc: Global, station: &Station, pass: &mut Pass, number: u32) -> bool
    requires { IsStationPass station.now pass.old }
    ensures { IsStationPass station.now pass.new }
{
    let Some(edits) = put(alloc, pass.number(), number) else {
        return false;
    };
    is_accepted(station.commit(rt, pass, edits))
}

/// The commits of one of so many editors, as far as there is memory for them. The feeder's pass,
/// which is the last, makes none.
fn edit<R: Wait>(rt: &R, alloc: Global, station: &Station, pass: &mut Pass, editors: u32)
    requires { IsStationPass station.now pass.old }
    ensures { IsStationPass station.now pass.new }
{
    let editor = pass.number();
    let count = if editor < editors {
        COMMITS / editors
    } else {
        0
    };
    for number in 0..count {
        let _accepted = commit(rt, alloc, station, pass, number);
    }
}

/// Each pass is at work in a thread of its own.
fn edit_all<R: Threads + Wait + Sync>(
    rt: &R,
    alloc: Global,
    station: &Station,
    passes: &mut [Pass],
    editors: u32,
)
    requires { All (IsStationPass station.now) passes.old }
    ensures { All (IsStationPass station.now) passes.new }
{
    thread::for_each_mut(
        rt,
        passes,
        65,
        &|_: usize, pass: &mut Pass|
            requires { IsStationPass station.now pass.now }
            ensures { IsStationPass station.entry.now pass.exit.now }
        { edit(rt, alloc, station, pass, editors) },
    );
}

/// How many commits of one round were accepted, by so many editors on a station.
fn accepted_once<R: Threads + Wait + Sync>(
    rt: &R,
    alloc: Global,
    editors: u32,
) -> Result<u64, NoMemory>
    requires { editors ≤ 64 }
{
    let call = Box::new(
        alloc,
        |_id: u16| -> u8
            ensures { result ≡ 1 }
        { 1 },
    )?;
    let weigh = Weigh::new([1; GREATEST_ID], call);
    let (station, mut passes) = Station::new(alloc, editors, 1, weigh)?;
    edit_all(rt, alloc, &station, passes.as_mut_slice(), editors);
    Ok(station.close(passes).current().number())
}

/// How many commits were accepted in so many rounds, by so many editors on one station after
/// another.
pub fn accepted_by<R: Threads + Wait + Sync>(
    rt: &R,
    alloc: Global,
    editors: u32,
    rounds: u32,
) -> Result<u64, NoMemory>
    requires { editors ≤ 64 }
{
    let mut accepted = 0u64;
    for _ in 0..rounds {
        accepted = accepted.wrapping_add(accepted_once(rt, alloc, editors)?);
    }
    Ok(accepted)
}

/// How many commits of one round were accepted on a history with no lock.
fn accepted_with_no_lock(alloc: Global) -> Result<u64, NoMemory> {
    let mut journal = Journal::new(alloc, 1, [1; GREATEST_ID])?;
    for number in 0..COMMITS {
        if let Some(edits) = put(alloc, 0, number) {
            let _answer = journal.commit_edits(0, Edits::new(edits));
        }
    }
    Ok(journal.current().number())
}

/// How many commits were accepted in so many rounds, on one catalogue after another with no lock.
pub fn accepted_alone(alloc: Global, rounds: u32) -> Result<u64, NoMemory> {
    let mut accepted = 0u64;
    for _ in 0..rounds {
        accepted = accepted.wrapping_add(accepted_with_no_lock(alloc)?);
    }
    Ok(accepted)
}
