ghost use Rattle.std.specs.Prelude.{◌≡◌};
ghost use Rattle.shell_streams.specs.Sending.{IsInTime, IsFlushed};
ghost use Rattle.receiver_commands.specs.Over.{over, out_over};
ghost use Rattle.shell_commands.specs.Rehearse.{Rehearses};

use cycle_planner::Weigh;
use oc_bytes::Source;
use receiver_commands::Status;
use session_script::read_parts;
use shell_streams::{Output, read_all};
use std::alloc::Global;

/// The most bytes of a script.
pub const MOST_SCRIPT_BYTES: usize = 16_777_216;

/// Runs a script's events in written order in one world of carousel 1, and writes a line after each
/// commit, draw and open. The whole script is judged before the first event.
pub fn rehearse<S: Source, O: Output>(
    alloc: Global,
    weigh: Weigh,
    source: &mut S,
    out: &mut O,
) -> Status
    requires { IsFlushed (O.state out.old) }
    ensures rehearses { Rehearses weigh.weights result (over S.left S.faults source.old source.new)
        (out_over O.state out.old out.new) }
    ensures same { (O.state out.new).name ≡ (O.state out.old).name }
    ensures in_time { IsInTime (O.state out.old) (O.state out.new) }
{
    let text = match read_all(alloc, source, MOST_SCRIPT_BYTES) {
        Ok(text) => text,
        Err(fault) => return Status::from(fault),
    };
    let parts = match read_parts(alloc, &text) {
        Ok(parts) => parts,
        Err(fault) => return Status::from(fault),
    };
    // The text may be large.
    drop(text);
    match rehearsal::rehearse(alloc, parts, weigh, out) {
        Ok(()) => Status::Done,
        Err(fault) => Status::from(fault),
    }
}
