ghost use Rattle.std.specs.Prelude.{◌≡◌, false, [], Ok};
ghost use Rattle.cycle_planner.specs.Weights.{AreWeights};
ghost use Rattle.folder_playout.specs.Laws.{PlayoutsMeet};
ghost use Rattle.shell_words.specs.Values.{word_bytes};
ghost use Rattle.shell_words.specs.Words as commands;
ghost use Rattle.watch_desk.specs.Prefixes.{prefixes_of};
ghost use Rattle.shell_streams.specs.Sending.{IsInTime, IsFlushed};
ghost use Rattle.shell_commands.specs.Laws.{Receptions};
ghost use Rattle.shell_commands.specs.Limits.{Limits};
ghost use Rattle.receiver_commands.specs.Over.{over, out_over};
ghost use Rattle.shell_commands.specs.Promises.{gives_notices, writes_store};
ghost use Rattle.carousel_shell.specs.Commands.{KeepsAll, KeepsSession, PromisesSession};

use crate::big::play_generated;
use crate::sessions::play_session;
use cycle_planner::Weigh;
use folder_playout::{Notices, playouts_meet};
use folder_store::{Folders, Store};
use oc_bytes::{Sink, Source};
use section_workers::Gate;
use shell_commands::{Status, begin, limits_are_numbers, receptions, run_command};
use shell_streams::{Buffered, Output};
use shell_words::Command;
use std::alloc::Global;
use std::sync::Wait;
use std::thread::Threads;
use watch_desk::Filter;

/// Runs the command that the words name: `session` and `big` as [`run_session`] does, every other
/// one as [`run_plain`](crate::run_plain) does. The arguments are theirs.
pub fn run<R: Threads + Wait + Sync, S: Source, K: Sink, F: Folders, T: Store, N: Notices, G: Gate>(
    rt: &R,
    alloc: Global,
    words: &[String],
    source: &mut S,
    sink: &mut K,
    folders: &mut F,
    store: &mut T,
    notices: &mut N,
    gate: &G,
    weigh: Weigh,
    filters: Vec<Filter>,
) -> Status
    // What the command does:
    requires untold { N.told notices.old notices.old [] }
    ensures keeps { KeepsAll weigh.weights (prefixes_of filters.items)
        (commands.command_of (word_bytes words.now)) result
        (over S.left S.faults source.old source.new) (over K.written K.faults sink.old sink.new)
        (over F.tree F.faults folders.old folders.new) (over T.tree T.faults store.old store.new)
        (F.refused folders.new) (N.told notices.old notices.new) }
    ensures stored { writes_store (commands.command_of (word_bytes words.now)) ≡ false
        → store.new ≡ store.old }
    ensures quiet { gives_notices (commands.command_of (word_bytes words.now)) ≡ false
        → notices.new ≡ notices.old }
    ensures in_time { K.failed sink.old ≡ false → K.late sink.new ≡ K.late sink.old }
    // The laws of all that comes of it:
    ensures receptions { Receptions }
    ensures playouts { PlayoutsMeet }
    ensures weights { AreWeights weigh.weights }
    ensures limits { Limits }
{
    receptions();
    playouts_meet();
    limits_are_numbers();
    let (command, mut room) = match begin(alloc, words) {
        Ok(begun) => begun,
        Err(fault) => return Status::from(fault),
    };
    let mut out = Buffered::new(sink, &mut room);
    run_any(
        rt, alloc, command, source, &mut out, folders, store, notices, gate, weigh, filters,
    )
}

fn run_any<
    R: Threads + Wait + Sync,
    S: Source,
    O: Output,
    F: Folders,
    T: Store,
    N: Notices,
    G: Gate,
>(
    rt: &R,
    alloc: Global,
    command: Command,
    source: &mut S,
    out: &mut O,
    folders: &mut F,
    store: &mut T,
    notices: &mut N,
    gate: &G,
    weigh: Weigh,
    filters: Vec<Filter>,
) -> Status
    // What is handed in:
    requires sized { commands.IsSized command }
    requires pending { IsFlushed (O.state out.old) }
    requires untold { N.told notices.old notices.old [] }
    // What the command does:
    ensures keeps { KeepsAll weigh.weights (prefixes_of filters.items) (Ok (commands.view command))
        result (over S.left S.faults source.old source.new) (out_over O.state out.old out.new)
        (over F.tree F.faults folders.old folders.new) (over T.tree T.faults store.old store.new)
        (F.refused folders.new) (N.told notices.old notices.new) }
    ensures same { (O.state out.new).name ≡ (O.state out.old).name }
    ensures stored { writes_store (Ok (commands.view command)) ≡ false → store.new ≡ store.old }
    ensures quiet { gives_notices (Ok (commands.view command)) ≡ false → notices.new ≡ notices.old }
    ensures in_time { IsInTime (O.state out.old) (O.state out.new) }
{
    match command {
        Command::Session => play_session(rt, alloc, source, out, gate, weigh),
        Command::Big(size) => play_generated(rt, alloc, size, out, gate, weigh),
        other => run_command(
            alloc, other, source, out, folders, store, notices, weigh, filters,
        ),
    }
}

/// Runs `session` or `big` on threads: each editor, the feeder and each reader on one. Words of
/// another command or none are `Words`, before anything is read or written. `source` has the script
/// of `session`; `big` generates its own and reads nothing.
///
/// The session is played to its end, and then its history is written. Each actor's lines are in
/// written order in it, but for commits that found no room. The call waits while an actor does.
///
/// Each actor passes the gate before each of its lines below `start`, and each worker before a
/// draw's sections; steps count from 0. After an error a prefix of the output was written.
pub fn run_session<R: Threads + Wait + Sync, S: Source, K: Sink, G: Gate>(
    rt: &R,
    alloc: Global,
    words: &[String],
    source: &mut S,
    sink: &mut K,
    gate: &G,
    weigh: Weigh,
) -> Status
    // What the command does:
    ensures keeps { KeepsSession weigh.weights (commands.command_of (word_bytes words.now)) result
        (over S.left S.faults source.old source.new) (over K.written K.faults sink.old sink.new) }
    ensures in_time { K.failed sink.old ≡ false → K.late sink.new ≡ K.late sink.old }
    // The laws of all that comes of it:
    ensures receptions { Receptions }
    ensures playouts { PlayoutsMeet }
    ensures weights { AreWeights weigh.weights }
    ensures limits { Limits }
{
    receptions();
    playouts_meet();
    limits_are_numbers();
    let (command, mut room) = match begin(alloc, words) {
        Ok(begun) => begun,
        Err(fault) => return Status::from(fault),
    };
    let mut out = Buffered::new(sink, &mut room);
    play_command(rt, alloc, &command, source, &mut out, gate, weigh)
}

fn play_command<R: Threads + Wait + Sync, S: Source, O: Output, G: Gate>(
    rt: &R,
    alloc: Global,
    command: &Command,
    source: &mut S,
    out: &mut O,
    gate: &G,
    weigh: Weigh,
) -> Status
    requires sized { commands.IsSized command.now }
    requires pending { IsFlushed (O.state out.old) }
    ensures promises { PromisesSession weigh.weights (commands.view command.now) result
        (over S.left S.faults source.old source.new) (out_over O.state out.old out.new) }
    ensures same { (O.state out.new).name ≡ (O.state out.old).name }
    ensures in_time { IsInTime (O.state out.old) (O.state out.new) }
{
    match command {
        Command::Session => play_session(rt, alloc, source, out, gate, weigh),
        Command::Big(size) => play_generated(rt, alloc, *size, out, gate, weigh),
        _ => Status::Words,
    }
}
