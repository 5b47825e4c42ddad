ghost use Rattle.std.specs.Prelude.{◌≡◌};
ghost use Rattle.shell_streams.specs.Sending.{IsInTime, IsFlushed};
ghost use Rattle.receiver_commands.specs.Over.{over, out_over};
ghost use Rattle.carousel_shell.specs.Session.{Plays};

use cycle_planner::Weigh;
use oc_bytes::Source;
use rehearsal::put_report;
use section_workers::Gate;
use session::play;
use session_script::read_parts;
use shell_commands::{MOST_SCRIPT_BYTES, Status};
use shell_streams::{Output, read_all};
use std::alloc::Global;
use std::sync::Wait;
use std::thread::Threads;

/// Plays a script's session to its end, and then writes a line for each commit, draw and open, in
/// one order in which they happened. The whole script is read and judged before the session begins.
/// `weigh` says how often each module is sent in a cycle.
pub(crate) fn play_session<R: Threads + Wait + Sync, S: Source, O: Output, G: Gate>(
    rt: &R,
    alloc: Global,
    source: &mut S,
    out: &mut O,
    gate: &G,
    weigh: Weigh,
) -> Status
    requires { IsFlushed (O.state out.old) }
    ensures plays { Plays weigh.weights result (over S.left S.faults source.old source.new)
        (out_over O.state out.old out.new) }
    ensures same { (O.state out.new).name ≡ (O.state out.old).name }
    ensures in_time { IsInTime (O.state out.old) (O.state out.new) }
{
    let text = match read_all(alloc, source, MOST_SCRIPT_BYTES) {
        Ok(text) => text,
        Err(fault) => return Status::from(fault),
    };
    let parts = match read_parts(alloc, &text) {
        Ok(parts) => parts,
        Err(fault) => return Status::from(fault),
    };
    // The text may be large.
    drop(text);
    let told = match play(rt, alloc, parts, gate, weigh) {
        Ok(told) => told,
        Err(_) => return Status::NoMemory,
    };
    match put_report(alloc, &told, out) {
        Ok(()) => Status::Done,
        Err(fault) => Status::from(fault),
    }
}
