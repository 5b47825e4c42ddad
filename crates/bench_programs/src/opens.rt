// Readers and a feeder at once, again and again.
ghost use Rattle.std.specs.Prelude.{◌≡◌, ◌≤◌, ◌+◌};
ghost use Rattle.std.specs.List.{All};
ghost use Rattle.shot_board.specs.Showers.{most_by};

use crate::feeder::{MOST, feed, module, shot};
use crate::readers::{count_files, passes, read_all, standing_passes};
use biop_object::Module;
use oc_bytes::NoMemory;
use open_history::ReaderPass;
use path_resolver::Shot;
use shot_board::{Shower, Viewer, board};
use std::alloc::Global;
use std::sync::atomic::AtomicU64;
use std::sync::{Arc, Wait};
use std::thread::{Threads, join_mut};

/// By how many readers, in how many rounds, and while how many readers stand still.
#[derive(Clone, Copy)]
pub struct Request {
    pub readers: u32,
    pub rounds: u32,
    pub stalled: u32,
}

/// The readers and the feeder at once. Where no thread can be had the readers come first, and the
/// feeder shows nothing.
fn open_and_show<R: Threads + Wait + Sync>(
    rt: &R,
    alloc: Global,
    shower: &mut Shower<Shot>,
    module: &Arc<Module>,
    passes: &mut [ReaderPass],
)
    requires most { most_by shower.old ≡ 1000000000000 }
    requires room { All (λ pass. pass.room ≡ 120000) passes.old }
{
    let through = AtomicU64::new(0);
    let readers = passes.len() as u64;
    join_mut(
        rt,
        &mut ||
            requires { All (λ pass. pass.room ≡ 120000) passes.now }
        { read_all(rt, alloc, passes, &through) },
        &mut ||
            requires { most_by shower.now ≡ 1000000000000 }
        { feed(rt, alloc, shower, module, &through, readers) },
    );
}

/// How many opens of so many readers with these viewers answered a file, while the others stand
/// still.
fn opened_before<R: Threads + Wait + Sync>(
    rt: &R,
    alloc: Global,
    shower: &mut Shower<Shot>,
    module: &Arc<Module>,
    mut viewers: Vec<Viewer<Shot>>,
    readers: usize,
) -> Result<u64, NoMemory>
    requires { most_by shower.old ≡ 1000000000000 }
{
    let standing = viewers.split_off(readers.min(viewers.len()))?;
    let _standing = standing_passes(alloc, standing)?;
    let mut passes = passes(alloc, viewers)?;
    open_and_show(rt, alloc, shower, module, passes.as_mut_slice());
    Ok(count_files(passes.as_slice()))
}

/// How many opens of one round answered a file.
fn opened_once<R: Threads + Wait + Sync>(
    rt: &R,
    alloc: Global,
    request: Request,
) -> Result<u64, NoMemory>
    requires { request.readers + request.stalled ≤ 64 }
{
    let module = module(alloc)?;
    let first = shot(alloc, 0, &module)?;
    let count = request.readers + request.stalled;
    let (mut shower, viewers) = board(rt, alloc, first, count, MOST)?;
    let readers = request.readers as usize;
    let files = opened_before(rt, alloc, &mut shower, &module, viewers, readers);
    shower.close(rt);
    files
}

/// How many opens answered a file, of the readers that don't stand still, in all rounds.
pub fn opened<R: Threads + Wait + Sync>(
    rt: &R,
    alloc: Global,
    request: Request,
) -> Result<u64, NoMemory>
    requires { request.readers + request.stalled ≤ 64 }
{
    let mut files = 0u64;
    for _ in 0..request.rounds {
        files = files.wrapping_add(opened_once(rt, alloc, request)?);
    }
    Ok(files)
}
