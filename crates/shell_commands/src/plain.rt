ghost use Rattle.std.specs.Prelude.{◌≡◌, false, [], Ok, IfOk};
ghost use Rattle.oc_bytes.specs.Outcome.{Gives};
ghost use Rattle.cycle_planner.specs.Weights.{AreWeights};
ghost use Rattle.folder_playout.specs.Laws.{PlayoutsMeet};
ghost use Rattle.shell_words.specs.Values.{word_bytes};
ghost use Rattle.shell_words.specs.Words as commands;
ghost use Rattle.watch_desk.specs.Prefixes.{prefixes_of};
ghost use Rattle.shell_streams.specs.Sending.{IsInTime, IsFlushed};
ghost use Rattle.receiver_commands.specs.Over.{over, out_over};
ghost use Rattle.shell_commands.specs.Laws.{Receptions};
ghost use Rattle.shell_commands.specs.Limits.{Limits};
ghost use Rattle.shell_commands.specs.Promises.{Promises, Keeps, gives_notices, writes_store};
ghost use Rattle.shell_commands.specs.Inner.Promises.{PromisesOther, is_of_broadcaster, is_of_receiver};

use crate::air::air;
use crate::law::{limits_are_numbers, receptions};
use crate::plan::plan;
use crate::publish::{PID, publish};
use crate::publish_psi::publish_psi;
use crate::rehearse::rehearse;
use cycle_planner::Weigh;
use folder_playout::{Notices, playouts_meet};
use folder_store::{Folders, Store};
use oc_bytes::{Sink, Source};
use receiver_commands::Status;
use receiver_commands::assemble::{Wanted, assemble};
use receiver_commands::extract::extract;
use receiver_commands::find::find;
use receiver_commands::inspect::inspect;
use receiver_commands::mounts::mounts;
use receiver_commands::open::{list, open};
use receiver_commands::open_id::open_id;
use receiver_commands::record::record;
use receiver_commands::watch::watch;
use receiver_commands::why::why;
use shell_streams::{Buffered, Carrier, Output, room};
use shell_words::{Command, WordsFault, command};
use std::alloc::Global;
use watch_desk::Filter;

/// The most sections back to back that `open` takes.
pub const MOST_OPENED: u32 = 16_777_216;

/// Runs the command that the words name, without threads; [`Status`](receiver_commands::Status)
/// says how it ends. Words of another command or none are `Words`, before anything is read or
/// written.
///
/// `words` leave the program's name out. `folders` are what the broadcaster's commands read,
/// `store` is what `extract` writes into, `notices` get what `air` tells, and `filters` are
/// `watch`'s watchers. `weigh` says how often each module is sent in a cycle, 1 to 8 times.
///
/// After an error a prefix of the output was written.
pub fn run_plain<S: Source, K: Sink, F: Folders, T: Store, N: Notices>(
    alloc: Global,
    words: &[String],
    source: &mut S,
    sink: &mut K,
    folders: &mut F,
    store: &mut T,
    notices: &mut N,
    weigh: Weigh,
    filters: Vec<Filter>,
) -> Status
    // What the command does:
    requires untold { N.told notices.old notices.old [] }
    ensures keeps { Keeps weigh.weights (prefixes_of filters.items)
        (commands.command_of (word_bytes words.now)) result
        (over S.left S.faults source.old source.new) (over K.written K.faults sink.old sink.new)
        (over F.tree F.faults folders.old folders.new) (over T.tree T.faults store.old store.new)
        (F.refused folders.new) (N.told notices.old notices.new) }
    ensures stored { writes_store (commands.command_of (word_bytes words.now)) ≡ false
        → store.new ≡ store.old }
    ensures quiet { gives_notices (commands.command_of (word_bytes words.now)) ≡ false
        → notices.new ≡ notices.old }
    ensures in_time { K.failed sink.old ≡ false → K.late sink.new ≡ K.late sink.old }
    // The laws of all that comes of it:
    ensures receptions { Receptions }
    ensures playouts { PlayoutsMeet }
    ensures weights { AreWeights weigh.weights }
    ensures limits { Limits }
{
    receptions();
    playouts_meet();
    limits_are_numbers();
    let (command, mut room) = match begin(alloc, words) {
        Ok(begun) => begun,
        Err(fault) => return Status::from(fault),
    };
    let mut out = Buffered::new(sink, &mut room);
    run_command(
        alloc, command, source, &mut out, folders, store, notices, weigh, filters,
    )
}

/// The command that the words name, and room for its output.
pub fn begin(alloc: Global, words: &[String]) -> Result<(Command, Vec<u8>), WordsFault>
    ensures gives { Gives (λ begun. commands.view begun.0) commands.cause result
        (commands.command_of (word_bytes words.now)) }
    ensures sized { IfOk result (λ begun. commands.IsSized begun.0) }
    ensures empty { IfOk result (λ begun. begun.1.items ≡ []) }
{
    let command = command(alloc, words)?;
    let room = room(alloc)?;
    Ok((command, room))
}

/// Runs a command that [`begin`] gave, as [`run_plain`] does.
pub fn run_command<S: Source, O: Output, F: Folders, T: Store, N: Notices>(
    alloc: Global,
    command: Command,
    source: &mut S,
    out: &mut O,
    folders: &mut F,
    store: &mut T,
    notices: &mut N,
    weigh: Weigh,
    filters: Vec<Filter>,
) -> Status
    // What is handed in:
    requires sized { commands.IsSized command }
    requires pending { IsFlushed (O.state out.old) }
    requires untold { N.told notices.old notices.old [] }
    // What the command does:
    ensures promises { Promises weigh.weights (prefixes_of filters.items) (commands.view command)
        result (over S.left S.faults source.old source.new) (out_over O.state out.old out.new)
        (over F.tree F.faults folders.old folders.new) (over T.tree T.faults store.old store.new)
        (F.refused folders.new) (N.told notices.old notices.new) }
    ensures same { (O.state out.new).name ≡ (O.state out.old).name }
    ensures stored { writes_store (Ok (commands.view command)) ≡ false → store.new ≡ store.old }
    ensures quiet { gives_notices (Ok (commands.view command)) ≡ false → notices.new ≡ notices.old }
    ensures in_time { IsInTime (O.state out.old) (O.state out.new) }
{
    match command {
        Command::Publish(folder, carousel, cycles) => {
            publish(
                alloc,
                PID,
                folder.as_str(),
                carousel,
                cycles,
                weigh,
                out,
                folders,
            )
        }
        Command::PublishOn(pid, folder, carousel, cycles) => {
            publish(
                alloc,
                pid,
                folder.as_str(),
                carousel,
                cycles,
                weigh,
                out,
                folders,
            )
        }
        Command::PublishPsi(folder, carousel, cycles) => {
            publish_psi(
                alloc,
                folder.as_str(),
                carousel,
                cycles,
                weigh,
                out,
                folders,
            )
        }
        Command::Air(pid, folder, carousel, cycles) => {
            air(
                alloc,
                pid,
                folder.as_str(),
                carousel,
                cycles,
                &weigh,
                out,
                folders,
                notices,
            )
        }
        Command::Plan(folder, carousel, bitrate) => {
            plan(
                alloc,
                folder.as_str(),
                carousel,
                bitrate,
                &weigh,
                out,
                folders,
            )
        }
        Command::Rehearse => rehearse(alloc, weigh, source, out),
        other => run_receiving(alloc, other, source, out, store, filters),
    }
}

/// Any other command is `Words`.
fn run_receiving<S: Source, O: Output, T: Store>(
    alloc: Global,
    command: Command,
    source: &mut S,
    out: &mut O,
    store: &mut T,
    filters: Vec<Filter>,
) -> Status
    // What is handed in:
    requires sized { commands.IsSized command }
    requires pending { IsFlushed (O.state out.old) }
    // What the command does:
    ensures promises { is_of_broadcaster (commands.view command) ≡ false
        → PromisesOther (prefixes_of filters.items) (commands.view command) result
        (over S.left S.faults source.old source.new) (out_over O.state out.old out.new)
        (over T.tree T.faults store.old store.new) }
    ensures declines { is_of_receiver (commands.view command) ≡ false
        → (result ≡ Status.Words)
        × (source.new ≡ source.old)
        × (O.state out.new ≡ O.state out.old) }
    ensures same { (O.state out.new).name ≡ (O.state out.old).name }
    ensures stored { writes_store (Ok (commands.view command)) ≡ false → store.new ≡ store.old }
    ensures in_time { IsInTime (O.state out.old) (O.state out.new) }
{
    match command {
        Command::Assemble {
            id,
            version,
            size,
            download,
        } => {
            let wanted = Wanted {
                id,
                version,
                size,
                download,
            };
            assemble(alloc, wanted, source, out)
        }
        Command::OpenSections(paths) => {
            open(alloc, Carrier::Sections(MOST_OPENED), &paths, source, out)
        }
        Command::Open(pid, paths) => open(alloc, Carrier::Packets(pid), &paths, source, out),
        Command::OpenId(carousel, paths) => open_id(alloc, carousel, &paths, source, out),
        Command::List(pid) => list(alloc, Carrier::Packets(pid), source, out),
        Command::Record(pid) => record(alloc, pid, source, out),
        Command::Find(carousel) => find(alloc, carousel, source, out),
        Command::Mounts(entries, paths) => mounts(alloc, entries, &paths, source, out),
        Command::Watch(pid, paths) => watch(alloc, pid, &paths, filters, source, out),
        Command::Inspect(pid) => inspect(alloc, pid, source, out),
        Command::Extract(pid, folder) => {
            extract(alloc, pid, folder.as_str(), source, out, store)
        }
        Command::Why(complaint) => why(alloc, complaint, out),
        other => {
            drop(other);
            Status::Words
        }
    }
}
