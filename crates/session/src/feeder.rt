//! What the feeder does.
ghost use Rattle.std.specs.Prelude.{◌≡◌, ◌++◌, ◌∷◌, ◌+◌, ◌≤◌, [], List, ℕ, map, length, OnOk, All};
ghost use Rattle.std.specs.Arc.{arc_value};
ghost use Rattle.path_tree.specs.Paths.{Bytes};
ghost use Rattle.generation.specs.Layouts.{section_of, AreItemsOf};
ghost use Rattle.section_stream.specs.Groups.{packets_of_group};
ghost use Rattle.carousel_world.specs.DownView.{DownlinkStands};
ghost use Rattle.carousel_world.specs.Fates.{received_under};
ghost use Rattle.carousel_world.specs.World.{Drawing};
ghost use Rattle.shot_board.specs.Showers.{shown_by, most_by, IsSameBoard, HasRoomFor};
ghost use Rattle.station.specs.Passes.{IsStationPass};
ghost use Rattle.session.specs.Chains.{DrawFields};
ghost use Rattle.session.specs.Shown.{HasShown};
ghost use Rattle.session.specs.Seats.{HasFed, DidFeed, IsDrawLine, draw_of};
ghost use Rattle.session.specs.Inner.Seats.{drawing_in};
ghost use Rattle.cycle_planner.specs.declared.TheConstants.{MOST_DRAWN};

use carousel_world::{Downlink, Fate};
use cycle_planner::Item;
use generation::Generation;
use generation_catalogue::Batch;
use oc_bytes::NoMemory;
use path_resolver::Shot;
use section_workers::{Actor, Gate, encode_batch};
use shot_board::Shower;
use station::{Pass, Station};
use std::alloc::{AllocError, Global};
use std::mem;
use std::sync::Wait;
use std::thread::Threads;

/// The most items of a draw whose sections are in memory at once.
const PIECE: usize = 1024;

/// A draw that the feeder has to make.
#[derive(Drop)]
pub struct DrawLine {
    /// The number of items, 1 to [`cycle_planner::MOST_DRAWN`].
    pub asked: u32,
    /// What becomes of its packets.
    pub fates: Vec<Fate>,
}

/// The feeder's pass and downlink, the draws to make, and the fates of those made.
#[derive(Drop)]
pub struct FeederSeat {
    pub pass: Pass,
    pub downlink: Downlink,
    pub draws: Vec<DrawLine>,
    pub fates: Vec<Vec<Fate>>,
    pub whole: bool,
}

/// Sends what was drawn, and shows the next shot.
pub(crate) fn send_and_show<R: Threads + Wait + Sync, G: Gate>(
    rt: &R,
    alloc: Global,
    gate: &G,
    shower: &mut Shower<Shot>,
    downlink: &mut Downlink,
    batch: &Batch,
    fates: &[Fate],
) -> Result<(), NoMemory>
    // The items can be sent, and the board has room.
    requires items { AreItemsOf (arc_value batch.now.generation) batch.now.items.items }
    requires few { length batch.now.items.items ≤ MOST_DRAWN }
    requires room { length (shown_by shower.old) ≤ most_by shower.old }

    // The board shows one shot more.
    ensures board { IsSameBoard shower.old shower.new }
    ensures count { OnOk result (length (shown_by shower.new) ≡ length (shown_by shower.old) + 1) }
    ensures shown { OnOk result ((drawings : List Drawing)
        → HasShown drawings downlink.old (shown_by shower.old)
        → HasShown (drawings ++ drawing_in batch.now fates.now ∷ []) downlink.new
        (shown_by shower.new)) }
{
    let Batch {
        generation,
        items,
        ..
    } = batch;
    send(rt, alloc, gate, downlink, generation, items, fates)?;
    // The board may show the next number, so it is there.
    let Some(number) = shower.front().number().checked_add(1) else {
        return Err(AllocError);
    };
    let shot = downlink.shot(number, number)?;
    match shower.show(rt, shot) {
        Ok(()) => Ok(()),
        Err((refused, _)) => Err(refused),
    }
}

/// Sends the items of a draw, which are a group.
fn send<R: Threads + Sync, G: Gate>(
    rt: &R,
    alloc: Global,
    gate: &G,
    downlink: &mut Downlink,
    generation: &Generation,
    items: &[Item],
    fates: &[Fate],
) -> Result<(), NoMemory>
    requires items { AreItemsOf generation.now items.now }
    requires few { length items.now ≤ MOST_DRAWN }
    ensures { OnOk result ((pid : ℕ) (groups : List (List Bytes)) (packets : List Bytes)
        → DownlinkStands downlink.old pid groups [] packets
        → (let sections = map (section_of generation.now) items.now in DownlinkStands downlink.new
        pid (groups ++ sections ∷ []) []
        (packets
        ++ received_under fates.now 0 (packets_of_group downlink.old.mux sections)))) }
{
    let mut number = 0;
    let mut sent = 0;
    loop {
        let end = items.len().min(sent + PIECE);
        let last = end == items.len();
        let sections = encode_batch(rt, alloc, generation, &items[sent..end], gate)?;
        number = downlink.carry(&sections, fates, number, last)?;
        if last {
            return Ok(());
        }
        sent = end;
    }
}

/// Makes one draw, sends it, and shows the next shot. Out of memory also comes if
/// [`generation_catalogue::MOST_DRAWS`] draws are entered.
pub(crate) fn draw<R: Threads + Wait + Sync, G: Gate>(
    rt: &R,
    alloc: Global,
    station: &Station,
    gate: &G,
    shower: &mut Shower<Shot>,
    seat: &mut FeederSeat,
    line: DrawLine,
) -> Result<(), NoMemory>
    // The seat is one of the station, and the board has room.
    requires pass { IsStationPass station.now seat.old.pass }
    requires line { IsDrawLine line }
    requires room { length (shown_by shower.old) ≤ most_by shower.old }

    // What stays.
    ensures pass { IsStationPass station.now seat.new.pass }
    ensures rest { (seat.new.draws ≡ seat.old.draws) × (seat.new.whole ≡ seat.old.whole) }
    ensures board { IsSameBoard shower.old shower.new }

    // One draw more was made and shown.
    ensures count { OnOk result (length (shown_by shower.new) ≡ length (shown_by shower.old) + 1) }
    ensures fed { OnOk result ((lines : List DrawFields)
        → HasFed station.now lines seat.old (shown_by shower.old)
        → HasFed station.now (lines ++ draw_of line ∷ []) seat.new (shown_by shower.new)) }
{
    let DrawLine { asked, fates } = line;
    let Ok(batch) = station.draw(rt, &mut seat.pass, asked) else {
        return Err(AllocError);
    };
    send_and_show(rt, alloc, gate, shower, &mut seat.downlink, &batch, &fates)?;
    seat.fates.push(fates)?;
    Ok(())
}

/// Makes a seat's draws in order, and passes the gate before each; steps count from 0.
pub(crate) fn feed<R: Threads + Wait + Sync, G: Gate>(
    rt: &R,
    alloc: Global,
    station: &Station,
    gate: &G,
    shower: &mut Shower<Shot>,
    seat: &mut FeederSeat,
)
    requires pass { IsStationPass station.now seat.old.pass }
    requires lines { All IsDrawLine seat.old.draws.items }
    requires room { HasRoomFor shower.old (length seat.old.draws.items) }
    ensures fed { DidFeed station.now seat.old seat.new (shown_by shower.old)
        (shown_by shower.new) }
    ensures board { IsSameBoard shower.old shower.new }
{
    let draws = mem::replace(&mut seat.draws, Vec::new(alloc));
    let mut step: u32 = 0;
    seat.whole = false;
    for line in draws {
        gate.pass(Actor::Feeder, step);
        step = step.saturating_add(1);
        let Ok(()) = draw(rt, alloc, station, gate, shower, seat, line) else {
            return;
        };
    }
    seat.whole = true;
}
