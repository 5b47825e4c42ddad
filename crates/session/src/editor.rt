//! The seats of the editors, and what an editor does.
ghost use Rattle.std.specs.Prelude.{◌≡◌, ◌++◌, ◌∷◌, ◌≤◌, [], List, ℕ, map, length, OnOk, OnErr, IfOk};
ghost use Rattle.path_tree.specs.declared.tree.Edit.{Edit as EditFields};
ghost use Rattle.carousel_world.specs.Events.{Step, Commit};
ghost use Rattle.station.specs.Passes.{AreNewPasses, IsStationPass};
ghost use Rattle.session_script.specs.declared.words.TheConstants.{MOST_ACTORS};
ghost use Rattle.session.specs.Lines.{commits_by};
ghost use Rattle.session.specs.Seats.{HasCommitted, DidEdit, edits_of};
ghost use Rattle.session.specs.Inner.Seats.{WouldBeEntered};
ghost use Rattle.session.specs.Inner.Plans.{during_steps, lists_of};
ghost use Rattle.session.specs.Inner.Acting.{AreApart, EditorsStand, Setting};

use crate::plan::ByActor;
use generation_catalogue::CommitFault;
use oc_bytes::NoMemory;
use path_tree::Edit;
use section_workers::{Actor, Gate};
use station::{Pass, Station};
use std::alloc::{AllocError, Global};
use std::collections::BTreeMap;
use std::mem;
use std::sync::Wait;

/// A commit that an editor has still to make.
#[derive(Drop)]
pub struct CommitLine {
    /// How many lines below `start` it takes: its own, and those of its edits.
    pub lines: u32,
    pub edits: Vec<Edit>,
}

/// An editor's pass, and the commits that it has still to make.
#[derive(Drop)]
pub struct EditorSeat {
    /// The editor's number in the script, 1 to [`session_script::MOST_ACTORS`].
    pub number: u32,
    pub pass: Pass,
    pub commits: Vec<CommitLine>,
    /// How many lines of edits it has below its last commit.
    pub rest: u32,
    pub whole: bool,
}

/// A commit that the station refuses is made too.
pub(crate) fn commit<R: Wait>(
    rt: &R,
    station: &Station,
    pass: &mut Pass,
    edits: Vec<Edit>,
) -> Result<(), NoMemory>
    requires { IsStationPass station.now pass.old }
    ensures pass { IsStationPass station.now pass.new }
    ensures commits { OnOk result ((place : ℕ) (lines : List (List EditFields))
        → HasCommitted station.now place lines pass.old
        → HasCommitted station.now place (lines ++ edits.items ∷ []) pass.new) }
    ensures memory { OnErr result (WouldBeEntered station.now pass.old edits.items) }
{
    match station.commit(rt, pass, edits) {
        Ok(_) => Ok(()),
        Err(CommitFault::Refused(_)) => Ok(()),
        Err(CommitFault::NoMemory) => Err(AllocError),
    }
}

/// Steps are counted from 0, one for each line.
pub(crate) fn edit<R: Wait, G: Gate>(
    rt: &R,
    alloc: Global,
    station: &Station,
    gate: &G,
    seat: &mut EditorSeat,
)
    requires { IsStationPass station.now seat.old.pass }
    ensures { DidEdit station.now seat.old seat.new }
{
    let commits = mem::replace(&mut seat.commits, Vec::new(alloc));
    let mut step = 0;
    seat.whole = false;
    for line in commits {
        step = pass_lines(gate, Actor::Editor(seat.number), step, line.lines);
        let Ok(()) = commit(rt, station, &mut seat.pass, line.edits) else {
            return;
        };
    }
    pass_lines(gate, Actor::Editor(seat.number), step, seat.rest);
    seat.whole = true;
}

/// Answers the step after the lines, at most the greatest `u32`.
fn pass_lines<G: Gate>(gate: &G, actor: Actor, first: u32, lines: u32) -> u32 {
    let end = first.saturating_add(lines);
    for step in first..end {
        gate.pass(actor, step);
    }
    end
}

/// Passes come in the editors' order.
pub(crate) fn editor_seats(
    alloc: Global,
    station: &Station,
    numbers: &[u32],
    passes: Vec<Pass>,
    mut commits: ByActor<CommitLine>,
    mut edit_lines: BTreeMap<u32, u32>,
) -> Result<Vec<EditorSeat>, NoMemory>
    requires passes { AreNewPasses station.now 0 passes.items }
    requires count { (length passes.items ≡ length numbers.now)
        × (length numbers.now ≤ MOST_ACTORS) }
    requires apart { AreApart numbers.now }
    ensures { IfOk result (λ seats.
        (setting : Setting)
        → numbers.now ≡ setting.parts.editors.items
        → ((n : ℕ)
        → map edits_of (lists_of commits n) ≡ commits_by n (during_steps setting.parts))
        → EditorsStand setting station.now [] seats.items) }
{
    let mut seats = Vec::with_capacity(alloc, numbers.len())?;
    for pass in passes {
        let number = numbers[seats.len()];
        let rest = edit_lines.remove(&number).unwrap_or(0);
        let its_commits = commits.take(number);
        seats.push(EditorSeat {
            number,
            pass,
            commits: its_commits,
            rest,
            whole: true,
        })?;
    }
    Ok(seats)
}

pub(crate) fn commit_now<R: Wait>(
    rt: &R,
    station: &Station,
    seats: &mut Vec<EditorSeat>,
    editor: u32,
    edits: Vec<Edit>,
) -> Result<(), NoMemory>
    requires { (setting : Setting)
        × (done : List Step)
        × EditorsStand setting station.now done seats.old.items }
    ensures { OnOk result ((setting : Setting) (done : List Step)
        → EditorsStand setting station.now done seats.old.items
        → EditorsStand setting station.now (done ++ Commit editor edits.items ∷ [])
        seats.new.items) }
{
    for place in 0..seats.len() {
        if seats[place].number == editor {
            return commit(rt, station, &mut seats[place].pass, edits);
        }
    }
    Ok(())
}
