ghost use Rattle.std.specs.Prelude.{◌≡◌, ◌≤◌, OnOk};
ghost use Rattle.shell_streams.specs.Sending.{IsInTime, Puts, IsFlushed};
ghost use Rattle.receiver_commands.specs.Over.{out_over};
ghost use Rattle.carousel_shell.specs.Big.{PlaysBig};

use crate::counts::big_line;
use cycle_planner::Weigh;
use section_workers::Gate;
use session::play;
use session_script::generated;
use shell_commands::Status;
use shell_streams::{Output, OutputFault};
use std::alloc::Global;
use std::sync::Wait;
use std::thread::Threads;

/// Plays the session of the generated script of this size, 1 to 16, to its end. Then it writes one
/// line: the editors, the accepted commits, the finales that answered a file, and those files'
/// bytes.
pub(crate) fn play_generated<R: Threads + Wait + Sync, O: Output, G: Gate>(
    rt: &R,
    alloc: Global,
    size: u32,
    out: &mut O,
    gate: &G,
    weigh: Weigh,
) -> Status
    // What is handed in:
    requires least { 1 ≤ size }
    requires most { size ≤ 16 }
    requires empty { IsFlushed (O.state out.old) }
    // What is written:
    ensures plays { PlaysBig weigh.weights size result (out_over O.state out.old out.new) }
    ensures same { (O.state out.new).name ≡ (O.state out.old).name }
    ensures in_time { IsInTime (O.state out.old) (O.state out.new) }
{
    let parts = match generated(alloc, size) {
        Ok(parts) => parts,
        Err(_) => return Status::NoMemory,
    };
    let told = match play(rt, alloc, parts, gate, weigh) {
        Ok(told) => told,
        Err(_) => return Status::NoMemory,
    };
    let line = match big_line(alloc, size, &told) {
        Ok(line) => line,
        Err(_) => return Status::NoMemory,
    };
    match put_all(line.as_bytes(), out) {
        Ok(()) => Status::Done,
        Err(fault) => Status::from(fault),
    }
}

fn put_all<O: Output>(bytes: &[u8], out: &mut O) -> Result<(), OutputFault>
    ensures puts { Puts result (O.state out.old) (O.state out.new) bytes.now }
    ensures empty { OnOk result (IsFlushed (O.state out.new)) }
{
    out.put(bytes)?;
    out.flush()
}
