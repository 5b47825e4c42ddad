ghost use Rattle.std.specs.Prelude.{◌≡◌, ◌≤◌, ◌<◌, ◌++◌, ◌∷◌, [], List, length, map, IfOk, OnOk};
ghost use Rattle.std.specs.List.{All, flat_map, list_any};
ghost use Rattle.oc_bytes.specs.Outcome.{Spells, MakesList};
ghost use Rattle.path_tree.specs.Paths.{PathNames, same_path};
ghost use Rattle.path_resolver.specs.Shots.{answers_of};
ghost use Rattle.section_stream.specs.Cuts.{Bytes};
ghost use Rattle.section_stream.specs.Kept.{view_bytes};
ghost use Rattle.watch_desk.specs.Prefixes.{prefixes_of};
ghost use Rattle.shell_streams.specs.Sending.{Puts, IsInTime, IsFlushed};
ghost use Rattle.receiver_commands.specs.Over.{over, out_over};
ghost use Rattle.receiver_commands.specs.Inner.Firsts.{with_new};
ghost use Rattle.receiver_commands.specs.Inner.Statuses.{end_status};
ghost use Rattle.receiver_commands.specs.Watch as watching;
ghost use Rattle.receiver_commands.specs.Watch.{Watches, watched_paths, first_watchers, notice_line};
ghost use Rattle.watch_desk.specs.declared.TheConstants.{MOST_WATCHED};

use crate::answers::put_line;
use crate::status::Status;
use oc_bytes::{NoMemory, Source};
use path_resolver::{Shot, resolve};
use path_tree::Path;
use section_stream::candidates_grow;
use shell_streams::{Output, OutputFault, PacketReader};
use std::alloc::Global;
use std::sync::Arc;
use tuner_core::{Fed, Tuner};
use watch_desk::{
    Desk, Filter, MOST_FILTERS, Notice, is_of_blocks, shots_are_needed_at_changes, whole_modules,
};

/// Writes what changes in the answers to the paths, while the packets of the PID `pid`, 0 to 8,191, are read from the source. There are at
/// most [`watch_desk::MOST_WATCHED`] paths. One that stands further in front already is left out, and so are the filters after the first
/// [`MOST_FILTERS`].
///
/// A receiver hears the sections of the PID. After each one that changes what it holds, a line is written for each filter and each path that
/// it wants and whose answer isn't the one that it was before that section, by filter and then by path: the number of the filter, from 0, the
/// number of sections so far, and the path with its answer as in the line of `open`. At first each answer is that no carousel was heard.
/// The lines of a section are written before more is read from the source, so whoever sends the packets sees a change when it comes.
///
/// `Done` comes where the source was read to its end and all lines were written; a last piece of fewer than 188 bytes is passed over.
/// `ReadFault` comes where the source fails, and `InputTooLong` exactly where [`shell_streams::MOST_PACKETS`] packets were taken and at least a
/// byte more is read: all lines of the packets that were taken were written. After `WriteFault`, where the sink fails, and after `NoMemory` a
/// prefix of them was written. No other status comes. These rules are this project's own.
///
/// Nothing may be pending in the output when it is called.
pub fn watch<S: Source, O: Output>(
    alloc: Global,
    pid: u16,
    paths: &[Path],
    filters: Vec<Filter>,
    source: &mut S,
    out: &mut O,
) -> Status
    requires few { length paths.now ≤ MOST_WATCHED }
    requires pending { IsFlushed (O.state out.old) }
    ensures watches { Watches pid (prefixes_of filters.items) paths.now result
        (over S.left S.faults source.old source.new) (out_over O.state out.old out.new) }
    ensures same { (O.state out.new).name ≡ (O.state out.old).name }
    ensures in_time { IsInTime (O.state out.old) (O.state out.new) }
{
    match watch_all(alloc, pid, paths, filters, source, out) {
        Ok(()) => Status::Done,
        Err(status) => status,
    }
}

/// Watches up to the end of the input.
fn watch_all<S: Source, O: Output>(
    alloc: Global,
    pid: u16,
    paths: &[Path],
    filters: Vec<Filter>,
    source: &mut S,
    out: &mut O,
) -> Result<(), Status>
    requires few { length paths.now ≤ MOST_WATCHED }
    requires pending { IsFlushed (O.state out.old) }
    ensures watches { Watches pid (prefixes_of filters.items) paths.now (end_status result)
        (over S.left S.faults source.old source.new) (out_over O.state out.old out.new) }
    ensures same { (O.state out.new).name ≡ (O.state out.old).name }
    ensures in_time { IsInTime (O.state out.old) (O.state out.new) }
{
    candidates_grow();
    let mut watcher = Watcher::new(alloc, paths, filters)?;
    let mut reader = PacketReader::new(alloc, pid)?;
    while let Some(candidates) = reader.next(source)? {
        watcher.hear_all(&candidates, out)?;
    }
    Ok(())
}

/// A receiver, and the desk that its shots are shown to.
#[derive(Drop)]
struct Watcher {
    alloc: Global,
    tuner: Tuner,
    desk: Desk,
    /// How many modules were whole when a shot was last taken.
    whole: usize,
}

impl Watcher {
    ghost use Rattle.receiver_commands.specs.Inner.Watching.{StandsFor, lines_after, lines_behind};

    /// One that has heard nothing, of the paths, each at its first place only, and of the first filters.
    fn new(alloc: Global, paths: &[Path], mut filters: Vec<Filter>) -> Result<Watcher, NoMemory>
        requires { length paths.now ≤ MOST_WATCHED }
        ensures { IfOk result (λ w.
            StandsFor w (watched_paths paths.now) (first_watchers (prefixes_of filters.items)) []) }
    {
        shots_are_needed_at_changes();
        let watched = each_once(alloc, paths)?;
        filters.truncate(MOST_FILTERS);
        let tuner = Tuner::new(alloc);
        let desk = Desk::new(alloc, watched, filters);
        Ok(Watcher {
            alloc,
            tuner,
            desk,
            whole: 0,
        })
    }

    /// Hears candidates, in order, and writes what they change. Nothing is pending in the output before and after. After a fault the
    /// watcher is of no use any more.
    fn hear_all<O: Output>(
        &mut self,
        candidates: &[Vec<u8>],
        out: &mut O,
    ) -> Result<(), OutputFault>
        requires { IsFlushed (O.state out.old) }
        ensures puts { (paths prefixes : List PathNames) (before : List Bytes)
            → StandsFor self.old paths prefixes before
            → Puts result (O.state out.old) (O.state out.new)
            (lines_behind paths prefixes before (map view_bytes candidates.now)) }
        ensures stands { OnOk result ((paths prefixes : List PathNames) (before : List Bytes)
            → StandsFor self.old paths prefixes before
            → StandsFor self.new paths prefixes (before ++ map view_bytes candidates.now)) }
        ensures empty { OnOk result (IsFlushed (O.state out.new)) }
    {
        for candidate in candidates {
            self.hear(candidate, out)?;
        }
        Ok(())
    }

    /// Hears one candidate, and writes what it changes. Nothing is pending in the output before and after.
    fn hear<O: Output>(&mut self, candidate: &[u8], out: &mut O) -> Result<(), OutputFault>
        requires { IsFlushed (O.state out.old) }
        ensures puts { (paths prefixes : List PathNames) (before : List Bytes)
            → StandsFor self.old paths prefixes before
            → Puts result (O.state out.old) (O.state out.new)
            (lines_after paths prefixes before candidate.now) }
        ensures stands { OnOk result ((paths prefixes : List PathNames) (before : List Bytes)
            → StandsFor self.old paths prefixes before
            → StandsFor self.new paths prefixes (before ++ candidate.now ∷ [])) }
        ensures empty { OnOk result (IsFlushed (O.state out.new)) }
    {
        shots_are_needed_at_changes();
        let fed = self.tuner.feed(candidate)?;
        let Fed::Changed = fed else {
            return Ok(());
        };
        let shot = self.tuner.shot(0, 0)?;
        let whole = whole_modules(&shot);
        // Most blocks are parts of modules, and ask nothing of the desk.
        if is_of_blocks(candidate) && whole == self.whole {
            return Ok(());
        }
        self.whole = whole;
        let shown = Arc::try_clone(&shot)?;
        let notices = match self.desk.show(shown) {
            Ok(notices) => notices,
            Err(_) => return Err(OutputFault::NoMemory),
        };
        put_notices(self.alloc, self.desk.paths(), &notices, &shot, out)?;
        out.flush()
    }
}

/// Puts the lines of notices, each of one of the paths, with the answers on a shot.
fn put_notices<O: Output>(
    alloc: Global,
    paths: &[Path],
    notices: &[Notice],
    shot: &Shot,
    out: &mut O,
) -> Result<(), OutputFault>
    requires { All (λ n. n.path < length paths.now) notices.now }
    ensures { Puts result (O.state out.old) (O.state out.new)
        (flat_map (notice_line paths.now shot.now.mark (answers_of shot.now)) notices.now) }
{
    for notice in notices {
        put_notice(alloc, paths, *notice, shot, out)?;
    }
    Ok(())
}

/// Puts the line of one notice.
fn put_notice<O: Output>(
    alloc: Global,
    paths: &[Path],
    notice: Notice,
    shot: &Shot,
    out: &mut O,
) -> Result<(), OutputFault>
    requires { notice.path < length paths.now }
    ensures { Puts result (O.state out.old) (O.state out.new)
        (notice_line paths.now shot.now.mark (answers_of shot.now) notice) }
{
    let place = notice.path as usize;
    let path = &paths[place];
    let answer = resolve(shot, path)?;
    let front = front_of_line(alloc, notice.watcher, shot.mark)?;
    out.put(front.as_bytes())?;
    put_line(alloc, path, &answer, out)
}

/// A watcher and a mark, with a space after each.
fn front_of_line(alloc: Global, watcher: u32, mark: u64) -> Result<String, NoMemory>
    ensures { Spells result (watching.front_of_line watcher mark) }
{
    format!(in alloc; "{watcher} {mark} ")
}

/// The paths, each at its first place only.
fn each_once(alloc: Global, paths: &[Path]) -> Result<Vec<Path>, NoMemory>
    ensures { MakesList result (watched_paths paths.now) }
{
    let mut once = Vec::new(alloc);
    for (i, path) in paths.iter().enumerate() {
        add_new(&mut once, &paths[..i], path)?;
    }
    Ok(once)
}

/// Adds a path that is none of the earlier ones.
fn add_new(once: &mut Vec<Path>, earlier: &[Path], path: &Path) -> Result<(), NoMemory>
    ensures { OnOk result
        (once.new.items ≡ with_new same_path once.old.items earlier.now path.now) }
{
    if is_among(earlier, path) {
        return Ok(());
    }
    Ok(once.push(path.share()?)?)
}

/// Whether a path is one of these.
fn is_among(paths: &[Path], path: &Path) -> bool
    ensures { result ≡ list_any (λ p. same_path p path.now) paths.now }
{
    paths.iter().any(|other| other.is_same(path))
}
