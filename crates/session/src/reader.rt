//! The seats of the readers, and what a reader does.
ghost use Rattle.std.specs.Prelude.{◌≡◌, ◌⊎◌, ◌++◌, ◌∷◌, ◌+◌, ◌≤◌, ◌<◌, [], List, ℕ, map, length, OnOk, IfOk, All, count_by};
ghost use mathlib.Core.List.{IsPrefix};
ghost use Rattle.path_resolver.specs.declared.shot.Shot.{Shot as ShotFields};
ghost use Rattle.open_history.specs.Opens.{IsSameReader};
ghost use Rattle.carousel_world.specs.Events.{Step, Open};
ghost use Rattle.shot_board.specs.Showers.{shown_by, shower_board, ShowsNothing};
ghost use Rattle.history_merge.specs.Merged.{is_open_by as opens_of};
ghost use Rattle.session_script.specs.declared.words.TheConstants.{MOST_ACTORS};
ghost use Rattle.session.specs.Opened.{Asked, HasOpened};
ghost use Rattle.session.specs.Lines.{draws_in};
ghost use Rattle.session.specs.Seats.{DidRead, asked_at, IsReaderSeat};
ghost use Rattle.session.specs.Inner.Plans.{lists_of, before_steps, during_steps, end_steps, opens_by};
ghost use Rattle.session.specs.Inner.Acting.{AreApart, IsNext, IsViewerOf, ReadersStand, Setting, view_happening};

use crate::plan::{ByActor, sum_of};
use oc_bytes::NoMemory;
use open_history::ReaderPass;
use path_resolver::Shot;
use path_tree::Path;
use rehearsal::Happening;
use section_workers::{Actor, Gate};
use shot_board::{Shower, Viewer};
use std::alloc::Global;
use std::mem;

/// A reader's pass, and the paths that it has still to open.
#[derive(Drop)]
pub struct ReaderSeat {
    pub pass: ReaderPass,
    pub paths: Vec<Path>,
    /// Opened after all actors are done.
    pub finales: Vec<Path>,
    pub whole: bool,
}

pub(crate) fn open(pass: &mut ReaderPass, path: Path) -> Result<(), NoMemory>
    // Which reader, and what it was told:
    requires { length pass.old.opens < pass.old.room }
    ensures same { IsSameReader pass.old pass.new }
    ensures told { pass.new.told ≡ pass.old.told }
    // What it knows:
    ensures known { IsPrefix pass.old.known pass.new.known }
    ensures most { length pass.new.known ≤ pass.new.most + 1 }
    // What was opened:
    ensures count { OnOk result (length pass.new.opens ≡ length pass.old.opens + 1) }
    ensures opened { OnOk result ((least : ℕ) (asked : List Asked)
        → (least + 1 ≤ length pass.old.told) ⊎ (least + 1 ≤ length pass.old.known)
        → HasOpened asked pass.old
        → HasOpened (asked ++ asked_at least path ∷ []) pass.new) }
{
    match pass.open_path(path) {
        Ok(_) => Ok(()),
        Err((refused, _)) => Err(refused),
    }
}

/// Steps are counted from 0, one for each path.
pub(crate) fn read<G: Gate>(alloc: Global, gate: &G, seat: &mut ReaderSeat)
    requires { IsReaderSeat seat.old }
    ensures { DidRead seat.old seat.new }
{
    let reader = seat.pass.reader();
    let paths = mem::replace(&mut seat.paths, Vec::new(alloc));
    let mut step: u32 = 0;
    seat.whole = false;
    for path in paths {
        gate.pass(Actor::Reader(reader), step);
        step = step.saturating_add(1);
        let Ok(()) = open(&mut seat.pass, path) else {
            return;
        };
    }
    seat.whole = true;
}

/// Each seat has room for all opens of its reader: those of `before`, its paths and its finales.
pub(crate) fn reader_seats(
    alloc: Global,
    numbers: &[u32],
    viewers: Vec<Viewer<Shot>>,
    before: &[Happening],
    mut paths: ByActor<Path>,
    mut finales: ByActor<Path>,
) -> Result<Vec<ReaderSeat>, NoMemory>
    requires count { (length viewers.items ≡ length numbers.now)
        × (length numbers.now ≤ MOST_ACTORS) }
    requires apart { AreApart numbers.now }
    ensures { IfOk result (λ seats.
        (setting : Setting) (shots : List ShotFields)
        → numbers.now ≡ setting.parts.readers.items
        → map view_happening before.now ≡ before_steps setting.parts
        → ((n : ℕ) → lists_of paths n ≡ opens_by n (during_steps setting.parts))
        → ((n : ℕ) → lists_of finales n ≡ opens_by n (end_steps setting.parts))
        → length shots ≡ 1
        → All (IsViewerOf setting shots) viewers.items
        → ReadersStand setting [] shots seats.items) }
{
    let mut seats = Vec::with_capacity(alloc, numbers.len())?;
    for viewer in viewers {
        let reader = numbers[seats.len()];
        let its_paths = paths.take(reader);
        let its_finales = finales.take(reader);
        let opens = count_opens(before, reader);
        let room = sum_of(opens, its_paths.len(), its_finales.len())?;
        let pass = match ReaderPass::new(alloc, reader, viewer, room) {
            Ok(pass) => pass,
            Err((refused, _)) => return Err(refused),
        };
        seats.push(ReaderSeat {
            pass,
            paths: its_paths,
            finales: its_finales,
            whole: true,
        })?;
    }
    Ok(seats)
}

fn count_opens(before: &[Happening], reader: u32) -> usize
    ensures { result ≡ count_by (λ what. opens_of reader (view_happening what)) before.now }
{
    before
        .iter()
        .filter(|what| is_open_by(what, reader))
        .count()
}

fn is_open_by(what: &Happening, reader: u32) -> bool
    ensures { result ≡ opens_of reader (view_happening what.now) }
{
    match what {
        Happening::Open(other, _) => *other == reader,
        _ => false,
    }
}

pub(crate) fn open_now(seats: &mut Vec<ReaderSeat>, reader: u32, path: Path) -> Result<(), NoMemory>
    requires { (setting : Setting)
        × (done : List Step)
        × (shots : List ShotFields)
        × ReadersStand setting done shots seats.old.items
        × IsNext setting done (Open reader path) }
    ensures { OnOk result ((setting : Setting) (done : List Step) (shots : List ShotFields)
        → length shots ≡ length (draws_in done) + 1
        → ReadersStand setting done shots seats.old.items
        → ReadersStand setting (done ++ Open reader path ∷ []) shots seats.new.items) }
{
    for place in 0..seats.len() {
        if seats[place].pass.reader() == reader {
            return open(&mut seats[place].pass, path);
        }
    }
    Ok(())
}

pub(crate) fn tell(seats: &mut Vec<ReaderSeat>, shower: &mut Shower<Shot>)
    requires { All (λ seat. seat.pass.board ≡ shower_board shower.old) seats.old.items }
    ensures board { ShowsNothing shower.old shower.new }
    ensures told { (setting : Setting) (done : List Step) (shots : List ShotFields)
        → ReadersStand setting done shots seats.old.items
        → ReadersStand setting done (shown_by shower.old) seats.new.items }
{
    for place in 0..seats.len() {
        seats[place].pass.learn(shower.front());
    }
}
