//! The actors at once.
ghost use Rattle.std.specs.Prelude.{◌+◌, length, All};
ghost use Rattle.shot_board.specs.Showers.{shown_by, IsSameBoard, HasRoomFor};
ghost use Rattle.station.specs.Passes.{IsStationPass};
ghost use Rattle.session.specs.Seats.{DidEdit, DidFeed, DidRead, IsDrawLine, IsEditorSeat, IsReaderSeat, EachDid};

use crate::editor::{EditorSeat, edit};
use crate::feeder::{FeederSeat, feed};
use crate::reader::{ReaderSeat, read};
use path_resolver::Shot;
use section_workers::Gate;
use shot_board::Shower;
use station::Station;
use std::alloc::Global;
use std::sync::Wait;
use std::thread;
use std::thread::{Threads, join_mut};

/// Runs all actors at once, each on its own thread. Each does in order what its seat holds, and
/// passes the gate before each line. A seat that isn't whole afterwards was cut short because
/// memory ran out.
pub fn run_actors<R: Threads + Wait + Sync, G: Gate>(
    rt: &R,
    alloc: Global,
    station: &Station,
    gate: &G,
    editors: &mut [EditorSeat],
    shower: &mut Shower<Shot>,
    feeder: &mut FeederSeat,
    readers: &mut [ReaderSeat],
)
    // What each actor begins with:
    requires editors { All (IsEditorSeat station.now) editors.old }
    requires pass { IsStationPass station.now feeder.old.pass }
    requires lines { All IsDrawLine feeder.old.draws.items }
    requires room { HasRoomFor shower.old (length feeder.old.draws.items) }
    requires readers { All IsReaderSeat readers.old }
    // What each actor did:
    ensures editors { EachDid (DidEdit station.now) editors.old editors.new }
    ensures feeder { DidFeed station.now feeder.old feeder.new (shown_by shower.old)
        (shown_by shower.new) }
    ensures board { IsSameBoard shower.old shower.new }
    ensures readers { EachDid DidRead readers.old readers.new }
{
    beside_editors(
        rt,
        alloc,
        station,
        gate,
        editors,
        &mut ||
            requires pass { IsStationPass station.now feeder.now.pass }
            requires lines { All IsDrawLine feeder.now.draws.items }
            requires room { HasRoomFor shower.now (length feeder.now.draws.items) }
            requires readers { All IsReaderSeat readers.now }
            ensures feeder { DidFeed station.entry.now feeder.entry.now feeder.exit.now
                (shown_by shower.entry.now) (shown_by shower.exit.now) }
            ensures board { IsSameBoard shower.entry.now shower.exit.now }
            ensures readers { EachDid DidRead readers.entry.now readers.exit.now }
        { feed_and_read(rt, alloc, station, gate, shower, feeder, readers) },
    );
}

/// A function of its own, because the search for a proof that threads may share a station then has
/// few facts to try.
fn beside_editors<R: Threads + Wait + Sync, G: Gate, F: FnMut()>(
    rt: &R,
    alloc: Global,
    station: &Station,
    gate: &G,
    editors: &mut [EditorSeat],
    other: &mut F,
)
    requires editors { All (IsEditorSeat station.now) editors.old }
    requires other { F.pre other.old }
    ensures editors { EachDid (DidEdit station.now) editors.old editors.new }
    ensures other { F.step other.old tt other.new }
{
    join_mut(
        rt,
        &mut ||
            requires { All (IsEditorSeat station.now) editors.now }
            ensures { EachDid (DidEdit station.entry.now) editors.entry.now editors.exit.now }
        { edit_all(rt, alloc, station, gate, editors) },
        other,
    );
}

fn feed_and_read<R: Threads + Wait + Sync, G: Gate>(
    rt: &R,
    alloc: Global,
    station: &Station,
    gate: &G,
    shower: &mut Shower<Shot>,
    feeder: &mut FeederSeat,
    readers: &mut [ReaderSeat],
)
    // What each actor begins with:
    requires pass { IsStationPass station.now feeder.old.pass }
    requires lines { All IsDrawLine feeder.old.draws.items }
    requires room { HasRoomFor shower.old (length feeder.old.draws.items) }
    requires readers { All IsReaderSeat readers.old }
    // What each actor did:
    ensures feeder { DidFeed station.now feeder.old feeder.new (shown_by shower.old)
        (shown_by shower.new) }
    ensures board { IsSameBoard shower.old shower.new }
    ensures readers { EachDid DidRead readers.old readers.new }
{
    join_mut(
        rt,
        &mut ||
            requires { All IsReaderSeat readers.now }
            ensures { EachDid DidRead readers.entry.now readers.exit.now }
        { read_all(rt, alloc, gate, readers) },
        &mut ||
            requires pass { IsStationPass station.now feeder.now.pass }
            requires lines { All IsDrawLine feeder.now.draws.items }
            requires room { HasRoomFor shower.now (length feeder.now.draws.items) }
            ensures feeder { DidFeed station.entry.now feeder.entry.now feeder.exit.now
                (shown_by shower.entry.now) (shown_by shower.exit.now) }
            ensures board { IsSameBoard shower.entry.now shower.exit.now }
        { feed(rt, alloc, station, gate, shower, feeder) },
    );
}

fn edit_all<R: Threads + Wait + Sync, G: Gate>(
    rt: &R,
    alloc: Global,
    station: &Station,
    gate: &G,
    editors: &mut [EditorSeat],
)
    requires { All (IsEditorSeat station.now) editors.old }
    ensures { EachDid (DidEdit station.now) editors.old editors.new }
{
    let threads = editors.len().max(1);
    thread::for_each_mut(
        rt,
        editors,
        threads,
        &|_: usize, seat: &mut EditorSeat|
            requires { IsEditorSeat station.now seat.now }
            ensures { DidEdit station.entry.now seat.entry.now seat.exit.now }
        { edit(rt, alloc, station, gate, seat) },
    );
}

fn read_all<R: Threads + Sync, G: Gate>(rt: &R, alloc: Global, gate: &G, readers: &mut [ReaderSeat])
    requires { All IsReaderSeat readers.old }
    ensures { EachDid DidRead readers.old readers.new }
{
    let threads = readers.len().max(1);
    thread::for_each_mut(
        rt,
        readers,
        threads,
        &|_: usize, seat: &mut ReaderSeat|
            requires { IsReaderSeat seat.now }
            ensures { DidRead seat.entry.now seat.exit.now }
        { read(alloc, gate, seat) },
    );
}
