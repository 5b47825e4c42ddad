ghost use Rattle.std.specs.Prelude.{◌≡◌, ◌≤◌, length, IfOk};
ghost use Rattle.std.specs.List.{All};
ghost use Rattle.shot_board.specs.Showers.{shown_by, most_by};
ghost use Rattle.station.specs.Passes.{IsStationPass};
ghost use Rattle.session.specs.Seats.{IsDrawLine, IsEditorSeat, IsReaderSeat};

use crate::meeting::Meeting;
use carousel_world::Downlink;
use cycle_planner::{GREATEST_ID, Weigh};
use open_history::ReaderPass;
use path_resolver::Shot;
use path_tree::Path;
use session::{CommitLine, DrawLine, EditorSeat, FeederSeat, ReaderSeat, run_actors};
use shot_board::{Shower, Viewer, board};
use station::{Pass, Station};
use std::alloc::Global;
use std::sync::Wait;
use std::test::Fail;
use std::thread::Threads;

/// One of the passes.
fn next_pass(station: &Station, passes: &mut Vec<Pass>) -> Result<Pass, Fail>
    requires { All (IsStationPass station.now) passes.old.items }
    ensures pass { IfOk result (IsStationPass station.now) }
    ensures rest { All (IsStationPass station.now) passes.new.items }
{
    match passes.pop() {
        Some(pass) => Ok(pass),
        None => Err(Fail::from("no pass")),
    }
}

/// An editor with two commits that change nothing, the first after two more lines.
fn editor_seat(
    alloc: Global,
    station: &Station,
    number: u32,
    pass: Pass,
) -> Result<EditorSeat, Fail>
    requires { IsStationPass station.now pass }
    ensures { IfOk result (IsEditorSeat station.now) }
{
    let mut commits = Vec::new(alloc);
    for lines in [3, 1] {
        commits.push(CommitLine {
            lines,
            edits: Vec::new(alloc),
        })?;
    }
    Ok(EditorSeat {
        number,
        pass,
        commits,
        rest: 0,
        whole: false,
    })
}

/// The feeder with one draw.
fn feeder_seat(alloc: Global, station: &Station, pass: Pass) -> Result<FeederSeat, Fail>
    requires { IsStationPass station.now pass }
    ensures pass { IfOk result (λ seat. IsStationPass station.now seat.pass) }
    ensures draws { IfOk result (λ seat.
        All IsDrawLine seat.draws.items × (length seat.draws.items ≡ 1)) }
{
    let mut draws = Vec::new(alloc);
    draws.push(DrawLine {
        asked: 5,
        fates: Vec::new(alloc),
    })?;
    Ok(FeederSeat {
        pass,
        downlink: Downlink::new(alloc, 256)?,
        draws,
        fates: Vec::new(alloc),
        whole: false,
    })
}

/// A reader who opens the root.
fn reader_seat(
    alloc: Global,
    number: u32,
    viewers: &mut Vec<Viewer<Shot>>,
) -> Result<ReaderSeat, Fail>
    ensures { IfOk result IsReaderSeat }
{
    let Some(viewer) = viewers.pop() else {
        return Err(Fail::from("no viewer"));
    };
    let Ok(pass) = ReaderPass::new(alloc, number, viewer, 1) else {
        return Err(Fail::from("no memory for a reader"));
    };
    let mut paths = Vec::new(alloc);
    paths.push(Path::parse(alloc, b"/")?)?;
    Ok(ReaderSeat {
        pass,
        paths,
        finales: Vec::new(alloc),
        whole: false,
    })
}

fn all_edited(editors: &[EditorSeat]) -> bool {
    editors.iter().all(|seat| seat.whole)
}

fn all_read(readers: &[ReaderSeat]) -> bool {
    readers.iter().all(|seat| seat.whole)
}

/// Two editors, the feeder and two readers at once; each module weighs 1. Answers whether all are
/// whole.
fn meet<R: Threads + Wait + Sync>(
    rt: &R,
    alloc: Global,
    gate: &Meeting,
    shower: &mut Shower<Shot>,
    mut viewers: Vec<Viewer<Shot>>,
) -> Result<bool, Fail>
    requires { length (shown_by shower.old) ≤ most_by shower.old }
{
    let call = Box::new(
        alloc,
        |_id: u16| -> u8
            ensures { result ≡ 1 }
        { 1 },
    )?;
    let weigh = Weigh::new([1; GREATEST_ID], call);
    let (station, mut passes) = Station::new(alloc, 2, 7, weigh)?;
    let mut feeder = feeder_seat(alloc, &station, next_pass(&station, &mut passes)?)?;
    let second = editor_seat(alloc, &station, 2, next_pass(&station, &mut passes)?)?;
    let first = editor_seat(alloc, &station, 1, next_pass(&station, &mut passes)?)?;
    let mut editors = [first, second];
    let mut readers = [
        reader_seat(alloc, 1, &mut viewers)?,
        reader_seat(alloc, 2, &mut viewers)?,
    ];
    run_actors(
        rt,
        alloc,
        &station,
        gate,
        &mut editors,
        shower,
        &mut feeder,
        &mut readers,
    );
    Ok(feeder.whole && all_edited(&editors) && all_read(&readers))
}

#[test]
fn all_actors_are_at_work_at_once(rt: HostRuntime) -> Result<(), Fail> {
    let alloc = rt.alloc();
    let gate = Meeting::new();
    let first = Downlink::new(alloc, 256)?.shot(0, 0)?;
    let (mut shower, viewers) = board(&rt, alloc, first, 2, 1)?;
    let met = meet(&rt, alloc, &gate, &mut shower, viewers);
    let last = shower.front().number();
    shower.close(&rt);
    assert!(rt; met?);
    assert!(rt; last == 1);
    assert!(rt; gate.actors() == 5);
    assert!(rt; gate.workers() == (1, 1));
    assert!(rt; gate.late() == 0);
    Ok(())
}
