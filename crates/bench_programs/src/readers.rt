// What the readers open.
ghost use Rattle.std.specs.Prelude.{◌≡◌, IfOk};
ghost use Rattle.std.specs.List.{All};

use oc_bytes::NoMemory;
use open_history::ReaderPass;
use path_resolver::{Answer, Shot};
use path_tree::Path;
use shot_board::Viewer;
use std::alloc::{AllocError, Global};
use std::sync::atomic::{AtomicU64, Ordering};
use std::thread;
use std::thread::Threads;

/// How many opens a round has in all. A pass has room for so many.
pub const OPENS: usize = 120_000;

/// Each path, by turns.
fn path_of(alloc: Global, number: usize) -> Option<Path> {
    let text: &[u8] = match number % 3 {
        0 => b"/f",
        1 => b"/",
        _ => b"/g",
    };
    Path::parse(alloc, text).ok()
}

/// A pass for each viewer.
pub fn passes(alloc: Global, viewers: Vec<Viewer<Shot>>) -> Result<Vec<ReaderPass>, NoMemory>
    ensures { IfOk result (λ passes. All (λ pass. pass.room ≡ 120000) passes.items) }
{
    let mut passes = Vec::new(alloc);
    for viewer in viewers {
        match ReaderPass::new(alloc, 1, viewer, OPENS) {
            Ok(pass) => passes.push(pass)?,
            Err((refused, _)) => return Err(refused),
        }
    }
    Ok(passes)
}

/// One open more, if there is memory and room for it.
fn open_one(alloc: Global, pass: &mut ReaderPass, number: usize) -> Result<(), NoMemory>
    requires { pass.old.room ≡ 120000 }
    ensures { pass.new.room ≡ 120000 }
{
    let Some(path) = path_of(alloc, number) else {
        return Err(AllocError);
    };
    if pass.opens().len() >= OPENS {
        return Err(AllocError);
    }
    match pass.open_path(path) {
        Ok(_) => Ok(()),
        Err((refused, _)) => Err(refused),
    }
}

/// A pass for each viewer of a reader that has opened the folder and stands still since then.
pub fn standing_passes(
    alloc: Global,
    viewers: Vec<Viewer<Shot>>,
) -> Result<Vec<ReaderPass>, NoMemory> {
    let mut passes = Vec::new(alloc);
    for viewer in viewers {
        match ReaderPass::new(alloc, 1, viewer, OPENS) {
            Ok(mut pass) => {
                open_one(alloc, &mut pass, 1)?;
                passes.push(pass)?;
            }
            Err((refused, _)) => return Err(refused),
        }
    }
    Ok(passes)
}

/// So many opens of one reader, who then says that it is through.
fn read(alloc: Global, pass: &mut ReaderPass, count: usize, through: &AtomicU64)
    requires { pass.old.room ≡ 120000 }
    ensures { pass.new.room ≡ 120000 }
{
    for number in 0..count {
        if open_one(alloc, pass, number).is_err() {
            break;
        }
    }
    through.fetch_add(1, Ordering::SeqCst);
}

/// Each reader is at work in a thread of its own.
pub fn read_all<R: Threads + Sync>(
    rt: &R,
    alloc: Global,
    passes: &mut [ReaderPass],
    through: &AtomicU64,
)
    requires { All (λ pass. pass.room ≡ 120000) passes.old }
{
    let threads = passes.len();
    if threads == 0 {
        return;
    }
    let count = OPENS / threads;
    thread::for_each_mut(
        rt,
        passes,
        threads,
        &|_: usize, pass: &mut ReaderPass|
            requires { pass.now.room ≡ 120000 }
            ensures { pass.exit.now.room ≡ 120000 }
        { read(alloc, pass, count, through) },
    );
}

/// How many opens answered a file.
pub fn count_files(passes: &[ReaderPass]) -> u64 {
    let mut files = 0u64;
    for pass in passes {
        for open in pass.opens() {
            if matches!(&open.answer, Answer::File(_)) {
                files = files.wrapping_add(1);
            }
        }
    }
    files
}
