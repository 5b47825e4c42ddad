//! The program: it runs the command that its words name on standard input, standard output and the
//! system's folders.
#![tactic(auto)]

ghost use Rattle.std.specs.Prelude.{◌≡◌, ◌==◌, [], if◌then◌else◌};
ghost use Rattle.watch_desk.specs.Wanting.{is_wanted};

use carousel_shell::Status;
use cycle_planner::{GREATEST_ID, Weigh};
use folder_playout::{Difference, Notices, Unread, began_text, kept_text};
use folder_store::{Folders, OsFolders, OsStore, Store};
use oc_bytes::{NoMemory, Sink, Source, StdSink, StdSource};
use path_tree::Path;
use section_workers::NoGate;
use std::alloc::{AllocError, Global};
use std::process::ExitCode;
use std::sync::Wait;
use std::thread::Threads;
use std::{env, io};
use watch_desk::Filter;

/// The prefixes of the two watchers: that of all paths, and that of what is on now.
const PREFIXES: [&[u8]; 2] = [b"/", b"/now"];

fn main(rt: HostRuntime) -> ExitCode {
    let status = match words(&rt) {
        Ok(words) => {
            let mut source = StdSource::new(rt.stdin());
            let mut sink = StdSink::new(rt.stdout());
            let mut folders = OsFolders::new(&rt);
            let mut store = OsStore::new(&rt);
            let mut notices = ErrorLines { rt: &rt };
            run(
                &rt,
                rt.alloc(),
                &words,
                &mut source,
                &mut sink,
                &mut folders,
                &mut store,
                &mut notices,
            )
        }
        Err(status) => status,
    };
    if let Ok(Some(line)) = status.line(rt.alloc()) {
        let _ = eprintln!(rt; "{line}");
    }
    ExitCode::from(status.code())
}

/// A line on standard error for each notice. Nothing comes of one that can't be written.
#[derive(Drop)]
struct ErrorLines<'a> {
    rt: &'a HostRuntime,
}

impl Notices for ErrorLines<'_> {
    ghost told = { λ _ _ _. Unit {0} };

    fn began(&mut self, number: u64, cycle: u32, difference: Difference) {
        if let Ok(line) = began_text(self.rt.alloc(), number, cycle, difference) {
            let _ = eprint!(self.rt; "{line}");
        }
    }

    fn kept(&mut self, number: u64, cycle: u32, cause: &Unread) {
        if let Ok(Some(line)) = kept_text(self.rt.alloc(), number, cycle, cause) {
            let _ = eprint!(self.rt; "{line}");
        }
    }
}

/// Runs the command that the words name. Module 1, in which the root lies, is sent twice a cycle,
/// and every other module once.
fn run<R: Threads + Wait + Sync, S: Source, K: Sink, F: Folders, T: Store, N: Notices>(
    rt: &R,
    alloc: Global,
    words: &[String],
    source: &mut S,
    sink: &mut K,
    folders: &mut F,
    store: &mut T,
    notices: &mut N,
) -> Status
    requires untold { N.told notices.old notices.old [] }
{
    let mut weights = [1; GREATEST_ID];
    weights[0] = 2;
    let call = Box::new(
        alloc,
        |id: u16| -> u8
            ensures { result ≡ (if id == 1 then 2 else 1) }
        { if id == 1 { 2 } else { 1 } },
    );
    let Ok(call) = call else {
        return Status::NoMemory;
    };
    let weigh = Weigh::new(weights, call);
    let Ok(prefixes) = prefixes(alloc) else {
        return Status::NoMemory;
    };
    match run_watched(
        rt, alloc, words, &prefixes, source, sink, folders, store, notices, weigh,
    ) {
        Ok(status) => status,
        Err(_) => Status::NoMemory,
    }
}

/// The prefixes of the watchers as paths, which they are.
fn prefixes(alloc: Global) -> Result<Vec<Path>, NoMemory> {
    let mut prefixes = Vec::new(alloc);
    for text in PREFIXES {
        prefixes.push(Path::parse(alloc, text).map_err(|_| AllocError)?)?;
    }
    Ok(prefixes)
}

/// Runs it with a watcher for each of the prefixes.
fn run_watched<R: Threads + Wait + Sync, S: Source, K: Sink, F: Folders, T: Store, N: Notices>(
    rt: &R,
    alloc: Global,
    words: &[String],
    prefixes: &[Path],
    source: &mut S,
    sink: &mut K,
    folders: &mut F,
    store: &mut T,
    notices: &mut N,
    weigh: Weigh,
) -> Result<Status, NoMemory>
    requires untold { N.told notices.old notices.old [] }
{
    let mut filters = Vec::new(alloc);
    for prefix in prefixes {
        let own = prefix.share()?;
        let call = Box::new(
            alloc,
            move |path: &Path| -> bool
                ensures { result ≡ is_wanted own path.now }
            { own.is_same(path) || own.is_above(path) },
        )?;
        filters.push(Filter::new(prefix.share()?, call))?;
    }
    Ok(carousel_shell::run(
        rt, alloc, words, source, sink, folders, store, notices, &NoGate, weigh, filters,
    ))
}

/// The words after the program's name. A word that isn't UTF-8 is a faulty one.
fn words(rt: &HostRuntime) -> Result<Vec<String>, Status> {
    let arguments = match env::args(rt) {
        Ok(arguments) => arguments,
        Err(error) if error.kind() == io::ErrorKind::OutOfMemory => return Err(Status::NoMemory),
        Err(_) => return Err(Status::Words),
    };
    Ok(arguments.skip(1).collect(rt.alloc())?)
}
