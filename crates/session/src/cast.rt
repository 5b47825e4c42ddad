//! The seats of a session, and what is done with all of them.
ghost use Rattle.std.specs.Prelude.{◌≡◌, ◌↔◌, ◌++◌, ◌∷◌, [], List, map, true, OnOk};
ghost use Rattle.std.specs.List.{list_all};
ghost use Rattle.carousel_world.specs.Events.{Step};
ghost use Rattle.carousel_world.specs.World.{InRange};
ghost use Rattle.shot_board.specs.Showers.{shown_by, IsSameBoard};

use crate::actors::run_actors;
use crate::editor::{EditorSeat, commit_now};
use crate::feeder::{DrawLine, FeederSeat, draw};
use crate::reader::{ReaderSeat, open_now, tell};
use oc_bytes::NoMemory;
use path_resolver::Shot;
use rehearsal::Happening;
use section_workers::Gate;
use shot_board::Shower;
use station::Station;
use std::alloc::{AllocError, Global};
use std::sync::Wait;
use std::thread::Threads;

#[derive(Drop)]
pub(crate) struct Cast {
    pub(crate) editors: Vec<EditorSeat>,
    pub(crate) feeder: FeederSeat,
    pub(crate) readers: Vec<ReaderSeat>,
}

impl Cast {
    ghost use Rattle.session.specs.Inner.Acting.{Setting, view_happening, IsNext};
    ghost use Rattle.session.specs.Inner.Casting.{CastStands};
    ghost use Rattle.session.specs.Inner.Ending.{CastDone, IsWhole};
    ghost use Rattle.session.specs.Inner.Plans.{AreInRange, before_steps};

    /// In written order.
    pub(crate) fn act_all<R: Threads + Wait + Sync, G: Gate>(
        &mut self,
        rt: &R,
        alloc: Global,
        gate: &G,
        station: &Station,
        shower: &mut Shower<Shot>,
        before: Vec<Happening>,
    ) -> Result<(), NoMemory>
        requires range { AreInRange (map view_happening before.items) }
        requires first { (setting : Setting)
            × (map view_happening before.items ≡ before_steps setting.parts)
            × CastStands setting station.now [] shower.old self.old }
        ensures { OnOk result ((setting : Setting)
            → map view_happening before.items ≡ before_steps setting.parts
            → CastStands setting station.now [] shower.old self.old
            → CastStands setting station.now (before_steps setting.parts) shower.new self.new) }
    {
        for deed in before {
            self.act(rt, alloc, gate, station, shower, deed)?;
        }
        Ok(())
    }

    /// After a draw each reader is told of all that was shown.
    fn act<R: Threads + Wait + Sync, G: Gate>(
        &mut self,
        rt: &R,
        alloc: Global,
        gate: &G,
        station: &Station,
        shower: &mut Shower<Shot>,
        deed: Happening,
    ) -> Result<(), NoMemory>
        requires range { InRange (view_happening deed) }
        requires next { (setting : Setting)
            × (done : List Step)
            × CastStands setting station.now done shower.old self.old
            × IsNext setting done (view_happening deed) }
        ensures { OnOk result ((setting : Setting) (done : List Step)
            → CastStands setting station.now done shower.old self.old
            → CastStands setting station.now
            (done ++ view_happening deed ∷ []) shower.new self.new) }
    {
        match deed {
            Happening::Commit(editor, edits) => {
                commit_now(rt, station, &mut self.editors, editor, edits)
            }
            Happening::Draw(asked, fates) => {
                let line = DrawLine { asked, fates };
                draw(rt, alloc, station, gate, shower, &mut self.feeder, line)?;
                tell(&mut self.readers, shower);
                Ok(())
            }
            Happening::Open(reader, path) => open_now(&mut self.readers, reader, path),
        }
    }

    /// Out of memory says that an actor was cut short.
    pub(crate) fn run<R: Threads + Wait + Sync, G: Gate>(
        &mut self,
        rt: &R,
        alloc: Global,
        gate: &G,
        station: &Station,
        shower: &mut Shower<Shot>,
    ) -> Result<(), NoMemory>
        requires stands { (setting : Setting)
            × CastStands setting station.now (before_steps setting.parts) shower.old self.old }
        ensures board { IsSameBoard shower.old shower.new }
        ensures done { OnOk result ((setting : Setting)
            → CastStands setting station.now (before_steps setting.parts) shower.old self.old
            → CastDone setting station.now (shown_by shower.new) self.new) }
    {
        let Cast {
            editors,
            feeder,
            readers,
        } = self;
        run_actors(rt, alloc, station, gate, editors, shower, feeder, readers);
        if !self.is_whole() {
            return Err(AllocError);
        }
        Ok(())
    }

    fn is_whole(&self) -> bool
        ensures { result ≡ true ↔ IsWhole self.now }
    {
        are_editors_whole(&self.editors) && self.feeder.whole && are_readers_whole(&self.readers)
    }
}

fn are_editors_whole(seats: &[EditorSeat]) -> bool
    ensures { result ≡ list_all (λ seat. seat.whole) seats.now }
{
    seats.iter().all(|seat| seat.whole)
}

fn are_readers_whole(seats: &[ReaderSeat]) -> bool
    ensures { result ≡ list_all (λ seat. seat.whole) seats.now }
{
    seats.iter().all(|seat| seat.whole)
}
