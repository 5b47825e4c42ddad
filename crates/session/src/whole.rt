//! A whole session.
ghost use Rattle.std.specs.Prelude.{◌≡◌, map, length, IfOk};
ghost use Rattle.session_script.specs.Scripts.{script_of_parts};
ghost use Rattle.session_script.specs.Ranges.{AreListed, IsInRanges};
ghost use Rattle.history_merge.specs.Merging.{known_view};
ghost use Rattle.shot_board.specs.Showers.{shown_by};
ghost use Rattle.session.specs.Sessions.{IsSession};
ghost use Rattle.session.specs.Inner.Acting.{Setting};
ghost use Rattle.session.specs.Inner.Casting.{IsBoardOf, IsBegun};

use crate::cast::Cast;
use crate::editor::editor_seats;
use crate::ending::end;
use crate::feeder::FeederSeat;
use crate::plan::{Plan, Work, plan_of};
use crate::reader::reader_seats;
use carousel_profile::{CAROUSEL_PID, SCRIPT_CAROUSEL};
use carousel_world::{Downlink, Event, Reply};
use cycle_planner::Weigh;
use oc_bytes::NoMemory;
use path_resolver::Shot;
use section_workers::Gate;
use session_script::Parts;
use shot_board::{Shower, Viewer, board};
use station::Station;
use std::alloc::Global;
use std::sync::Wait;
use std::thread::Threads;

/// Runs a script's session of carousel 1, and gives its history. `weigh` says how often a cycle has
/// each module. Memory running out is the only error. The call waits while actors do; nothing is
/// promised about whether it returns.
///
/// - The calling thread runs the lines above `start`. After each draw it tells each reader of all
///   shots.
/// - Each actor's thread runs its other lines in order, and passes the gate before each; steps
///   count from 0.
/// - After all threads `settle` draws twice. Then each reader takes the last shot and opens its
///   finales.
pub fn play<R: Threads + Wait + Sync, G: Gate>(
    rt: &R,
    alloc: Global,
    parts: Parts,
    gate: &G,
    weigh: Weigh,
) -> Result<Vec<(Event, Reply)>, NoMemory>
    requires ranges { IsInRanges (script_of_parts parts) }
    requires listed { AreListed (script_of_parts parts) }
    ensures { IfOk result (λ told.
        IsSession weigh.weights (script_of_parts parts) (map known_view told.items)) }
{
    let plan = plan_of(alloc, parts)?;
    let downlink = Downlink::new(alloc, CAROUSEL_PID)?;
    let first = downlink.shot(0, 0)?;
    let most = plan.count_draws()? as u64;
    let (mut shower, viewers) = board(rt, alloc, first, plan.readers.len() as u32, most)?;
    let start = Start {
        plan,
        downlink,
        viewers,
    };
    let told = perform(rt, alloc, gate, &mut shower, start, weigh);
    shower.close(rt);
    told
}

#[derive(Drop)]
pub(crate) struct Start {
    pub(crate) plan: Plan,
    pub(crate) downlink: Downlink,
    pub(crate) viewers: Vec<Viewer<Shot>>,
}

fn perform<R: Threads + Wait + Sync, G: Gate>(
    rt: &R,
    alloc: Global,
    gate: &G,
    shower: &mut Shower<Shot>,
    start: Start,
    weigh: Weigh,
) -> Result<Vec<(Event, Reply)>, NoMemory>
    requires set_up { (setting : Setting)
        × IsBegun setting (shown_by shower.old) start
        × IsBoardOf setting shower.old }
    requires readers { length start.viewers.items ≡ length start.plan.readers.items }
    ensures { IfOk result (λ told.
        (setting : Setting)
        → IsBegun setting (shown_by shower.old) start
        → IsBoardOf setting shower.old
        → IsSession weigh.weights (script_of_parts setting.parts) (map known_view told.items)) }
{
    let Start {
        plan,
        downlink,
        viewers,
    } = start;
    let Plan {
        editors,
        readers,
        before,
        work,
        settles,
        finales,
    } = plan;
    let Work {
        commits,
        edit_lines,
        draws,
        paths,
    } = work;
    let (station, mut passes) = Station::new(alloc, editors.len() as u32, SCRIPT_CAROUSEL, weigh)?;
    let Some(pass) = passes.pop() else {
        unreachable!()
    };
    let mut cast = Cast {
        editors: editor_seats(alloc, &station, &editors, passes, commits, edit_lines)?,
        feeder: FeederSeat {
            pass,
            downlink,
            draws,
            fates: Vec::new(alloc),
            whole: true,
        },
        readers: reader_seats(alloc, &readers, viewers, &before, paths, finales)?,
    };
    cast.act_all(rt, alloc, gate, &station, shower, before)?;
    cast.run(rt, alloc, gate, &station, shower)?;
    end(rt, alloc, gate, station, cast, shower, settles, &editors)
}
