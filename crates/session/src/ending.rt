//! What comes after the actors' threads.
ghost use Rattle.std.specs.Prelude.{◌≡◌, ◌++◌, ◌∷◌, ◌+◌, ◌≤◌, [], true, map, length, OnOk, IfOk, All};
ghost use Rattle.oc_bytes.specs.Outcome.{MakesList};
ghost use Rattle.station.specs.Passes.{IsStationPass, pass_count, weights_of};
ghost use Rattle.generation_catalogue.specs.History.{with_draw};
ghost use Rattle.generation_catalogue.specs.View.{state};
ghost use Rattle.session_script.specs.Scripts.{script_of_parts};
ghost use Rattle.shot_board.specs.Showers.{shown_by, most_by, IsSameBoard, HasRoomFor, ShowsNothing};
ghost use Rattle.history_merge.specs.Merging.{known_view};
ghost use Rattle.session.specs.Seats.{IsEditorSeat};
ghost use Rattle.session.specs.Played.{HasRead, IsSettled, whose};
ghost use Rattle.session.specs.Sessions.{IsSession};
ghost use Rattle.session.specs.Inner.Plans.{settling_line, settling_lines};
ghost use Rattle.session.specs.Inner.Acting.{Setting, readers_of};
ghost use Rattle.session.specs.Inner.Casting.{IsBoardOf};
ghost use Rattle.session.specs.Inner.Ending.{AreAll, AreDone, GathersAll, GathersOn, ReaderDone};
ghost use Rattle.cycle_planner.specs.declared.TheConstants.{MOST_DRAWN};

use crate::cast::Cast;
use crate::editor::EditorSeat;
use crate::feeder::{FeederSeat, send_and_show};
use crate::laws::{actors_gather, gathers_grow, played_is_a_session};
use crate::reader::{ReaderSeat, read};
use carousel_world::{Downlink, Event, Fate, Reply};
use cycle_planner::MOST_DRAWN;
use generation_catalogue::Catalogue;
use history_merge::merge;
use oc_bytes::NoMemory;
use open_history::ReaderPass;
use path_resolver::Shot;
use section_workers::{Gate, NoGate};
use shot_board::Shower;
use station::{Pass, Station};
use std::alloc::{AllocError, Global};
use std::sync::Wait;
use std::thread::Threads;

/// What is left when all passes are back.
#[derive(Drop)]
pub(crate) struct Closed {
    pub(crate) catalogue: Catalogue,
    pub(crate) downlink: Downlink,
    pub(crate) fates: Vec<Vec<Fate>>,
}

/// The feeder's pass comes last.
fn passes_of(alloc: Global, editors: Vec<EditorSeat>, feeder: Pass) -> Result<Vec<Pass>, NoMemory>
    ensures { MakesList result (map (λ seat. seat.pass) editors.items ++ feeder ∷ []) }
{
    let mut passes: Vec<Pass> = editors.into_iter().map(|seat| seat.pass).collect(alloc)?;
    passes.push(feeder)?;
    Ok(passes)
}

fn end_of_threads(
    alloc: Global,
    station: Station,
    editors: Vec<EditorSeat>,
    feeder: FeederSeat,
) -> Result<Closed, NoMemory>
    requires editors { All (IsEditorSeat station) editors.items }
    requires feeder { IsStationPass station feeder.pass }
    requires count { pass_count station ≡ length editors.items + 1 }
    ensures { IfOk result (λ closed. GathersAll station editors.items feeder closed) }
{
    let passes = passes_of(alloc, editors, feeder.pass)?;
    let catalogue = station.close(passes);
    catalogue.entries();
    actors_gather();
    Ok(Closed {
        catalogue,
        downlink: feeder.downlink,
        fates: feeder.fates,
    })
}

impl Closed {
    /// One draw of `settle`. Out of memory also comes if [`generation_catalogue::MOST_DRAWS`] draws
    /// are entered.
    fn draw<R: Threads + Wait + Sync, G: Gate>(
        &mut self,
        rt: &R,
        alloc: Global,
        gate: &G,
        shower: &mut Shower<Shot>,
    ) -> Result<(), NoMemory>
        requires room { length (shown_by shower.old) ≤ most_by shower.old }
        ensures board { IsSameBoard shower.old shower.new }
        ensures count { OnOk result
            (length (shown_by shower.new) ≡ length (shown_by shower.old) + 1) }
        ensures drawn { OnOk result
            (state self.new.catalogue ≡ with_draw (state self.old.catalogue) MOST_DRAWN) }
        ensures gathered { OnOk result
            (GathersOn self.old self.new (shown_by shower.old) (shown_by shower.new)
            (settling_line ∷ [])) }
    {
        let Ok(batch) = self.catalogue.draw(MOST_DRAWN) else {
            return Err(AllocError);
        };
        gathers_grow();
        let fates = Vec::new(alloc);
        send_and_show(rt, alloc, gate, shower, &mut self.downlink, &batch, &fates)?;
        self.fates.push(fates)?;
        Ok(())
    }

    fn settle<R: Threads + Wait + Sync, G: Gate>(
        &mut self,
        rt: &R,
        alloc: Global,
        gate: &G,
        shower: &mut Shower<Shot>,
        settles: bool,
    ) -> Result<(), NoMemory>
        requires room { HasRoomFor shower.old (length (settling_lines settles)) }
        ensures board { IsSameBoard shower.old shower.new }
        ensures count { OnOk result
            (length (shown_by shower.new)
            ≡ length (shown_by shower.old) + length (settling_lines settles)) }
        ensures settled { OnOk result (settles ≡ true → IsSettled (state self.new.catalogue)) }
        ensures gathered { OnOk result
            (GathersOn self.old self.new (shown_by shower.old) (shown_by shower.new)
            (settling_lines settles)) }
    {
        if !settles {
            return Ok(());
        }
        self.draw(rt, alloc, gate, shower)?;
        self.draw(rt, alloc, gate, shower)?;
        Ok(())
    }
}

/// Opens the finales on the last shot.
fn read_last(
    alloc: Global,
    seat: ReaderSeat,
    shower: &mut Shower<Shot>,
) -> Result<ReaderPass, NoMemory>
    requires { (setting : Setting)
        × ReaderDone setting seat
        × IsBoardOf setting shower.old
        × AreAll setting (shown_by shower.old) }
    ensures board { ShowsNothing shower.old shower.new }
    ensures reader { IfOk result (λ pass. pass.reader ≡ seat.pass.reader) }
    ensures read { IfOk result (λ pass.
        (setting : Setting)
        → ReaderDone setting seat
        → AreAll setting (shown_by shower.old)
        → HasRead (script_of_parts setting.parts) (shown_by shower.old) pass) }
{
    let mut pass = seat.pass;
    pass.learn(shower.front());
    pass.look()?;
    let mut last = ReaderSeat {
        pass,
        paths: seat.finales,
        finales: Vec::new(alloc),
        whole: true,
    };
    read(alloc, &NoGate, &mut last);
    if !last.whole {
        return Err(AllocError);
    }
    last.pass.opens();
    Ok(last.pass)
}

fn read_all(
    alloc: Global,
    readers: Vec<ReaderSeat>,
    shower: &mut Shower<Shot>,
) -> Result<Vec<ReaderPass>, NoMemory>
    requires { (setting : Setting)
        × All (ReaderDone setting) readers.items
        × IsBoardOf setting shower.old
        × AreAll setting (shown_by shower.old) }
    ensures readers { IfOk result (λ passes. whose passes.items ≡ readers_of readers.items) }
    ensures read { IfOk result (λ passes.
        (setting : Setting)
        → All (ReaderDone setting) readers.items
        → AreAll setting (shown_by shower.old)
        → All (HasRead (script_of_parts setting.parts) (shown_by shower.old)) passes.items) }
{
    let mut passes = Vec::with_capacity(alloc, readers.len())?;
    for seat in readers {
        passes.push(read_last(alloc, seat, shower)?)?;
    }
    Ok(passes)
}

/// All passes go back, `settle` draws, each reader opens its finales on the last shot, and all is
/// merged.
pub(crate) fn end<R: Threads + Wait + Sync, G: Gate>(
    rt: &R,
    alloc: Global,
    gate: &G,
    station: Station,
    cast: Cast,
    shower: &mut Shower<Shot>,
    settles: bool,
    numbers: &[u32],
) -> Result<Vec<(Event, Reply)>, NoMemory>
    requires ready { (setting : Setting)
        × AreDone setting settles station numbers.now (shown_by shower.old) cast
        × IsBoardOf setting shower.old }
    ensures { IfOk result (λ told.
        (setting : Setting)
        → AreDone setting settles station numbers.now (shown_by shower.old) cast
        → IsSession (weights_of station) (script_of_parts setting.parts)
        (map known_view told.items)) }
{
    let mut closed = end_of_threads(alloc, station, cast.editors, cast.feeder)?;
    closed.settle(rt, alloc, gate, shower, settles)?;
    let passes = read_all(alloc, cast.readers, shower)?;
    played_is_a_session();
    merge(
        alloc,
        closed.catalogue.entries(),
        &closed.fates,
        numbers,
        &passes,
    )
}
