ghost use Rattle.std.specs.Prelude.{◌≡◌, ◌+◌, ◌^◌, ◌<◌, ◌≤◌, [], ◌++◌, List, ℕ};
ghost use Rattle.shell_streams.specs.Sending.{OutputState, IsFlushed};
ghost use Rattle.folder_playout.specs.Notices.{Notice};
ghost use Rattle.folder_playout.specs.Playing.{Airs, Sent};
ghost use Rattle.folder_playout.specs.Inner.Standing.{Begins, IsNext, IsPlaying, Takes, Turns, told_next};

use crate::laws::{playouts_are_broadcasts, playouts_can_be_packed};
use crate::notices::Notices;
use crate::playout::Playout;
use crate::reading::{Trees, Unread};
use cycle_planner::Weigh;
use generation::Publishable;
use shell_streams::{Output, OutputFault};
use std::alloc::{AllocError, Global};
use thiserror::Error;

/// Why a playout ended before its last cycle.
#[derive(Debug, Drop, Error)]
pub enum AirFault {
    /// The first tree wasn't read. Nothing was sent.
    #[error("{0}")]
    Unread(Unread),
    /// Another tree was read than that of generation [`dsi_dii::LAST_GENERATION`]. All cycles so
    /// far were sent.
    #[error("there are 16,383 generations, the most")]
    SeasonFull,
    /// The output failed, or memory ran out. A prefix of the packets was written.
    #[error("{0}")]
    Output(OutputFault),
}

impl From<Unread> for AirFault {
    ghost use Rattle.folder_playout.specs.declared.playing.AirFault.TheVariants as faults;

    ghost from_gives = { λ fault e. e ≡ faults.Unread fault };

    fn from(fault: Unread) -> AirFault {
        AirFault::Unread(fault)
    }
}

impl From<OutputFault> for AirFault {
    ghost use Rattle.folder_playout.specs.declared.playing.AirFault.TheVariants as faults;

    ghost from_gives = { λ fault e. e ≡ faults.Output fault };

    fn from(fault: OutputFault) -> AirFault {
        AirFault::Output(fault)
    }
}

impl From<AllocError> for AirFault {
    ghost use Rattle.folder_playout.specs.declared.playing.AirFault.TheVariants as faults;
    ghost use Rattle.shell_streams.specs.declared.output.OutputFault.TheVariants as outputs;

    ghost from_gives = { λ _ e. e ≡ faults.Output outputs.NoMemory };

    fn from(_e: AllocError) -> AirFault {
        AirFault::Output(OutputFault::NoMemory)
    }
}

/// Sends whole cycles of a carousel, and reads a tree before each. The first is generation 1's. A
/// later one that differs from that on the air becomes the next generation; one that is refused or
/// can't be read changes nothing. A generation's cycles are one group of sections.
///
/// `pid` is 0 to 8,191, with continuity counters from 0. `carousel` is any 32-bit id, and `cycles`
/// at least 1. `notices` hear of each generation, and of each reading without a tree.
pub fn keep_on_air<T: Trees, N: Notices, O: Output>(
    alloc: Global,
    pid: u16,
    carousel: u32,
    cycles: u32,
    weigh: &Weigh,
    trees: &mut T,
    notices: &mut N,
    out: &mut O,
) -> Result<(), AirFault>
    // What is handed in:
    requires in_range { pid < 8192 }
    requires some { 1 ≤ cycles }
    requires pending { IsFlushed (O.state out.old) }
    requires unread { T.answered trees.old trees.old [] }
    requires untold { N.told notices.old notices.old [] }
    // What is sent:
    ensures { Airs (record { pid = pid; carousel = carousel; weights = weigh.now.weights }) cycles
        (T.answered trees.old trees.new) (N.told notices.old notices.new) result (O.state out.old)
        (O.state out.new) }
{
    playouts_are_broadcasts();
    playouts_can_be_packed();
    let mut playout = begin(alloc, pid, carousel, weigh, trees, notices, out)?;
    for sent in 1..cycles {
        turn(&mut playout, sent, weigh, trees, notices, out)?;
    }
    playout.end(out)?;
    Ok(())
}

/// Reads the first tree, and sends its first cycle.
fn begin<T: Trees, N: Notices, O: Output>(
    alloc: Global,
    pid: u16,
    carousel: u32,
    weigh: &Weigh,
    trees: &mut T,
    notices: &mut N,
    out: &mut O,
) -> Result<Playout, AirFault>
    requires in_range { pid < 8192 }
    requires pending { IsFlushed (O.state out.old) }
    requires unread { T.answered trees.old trees.old [] }
    requires untold { N.told notices.old notices.old [] }
    ensures { (cycles : ℕ)
        → 1 ≤ cycles
        → Begins (record { pid = pid; carousel = carousel; weights = weigh.now.weights }) cycles
        (T.answered trees.old trees.new) (N.told notices.old notices.new) result
        (O.state out.old) (O.state out.new) }
{
    playouts_are_broadcasts();
    playouts_can_be_packed();
    let tree = trees.read()?;
    let (mut playout, difference) = Playout::new(alloc, pid, carousel, tree)?;
    notices.began(1, 1, difference);
    playout.send_cycle(weigh, out)?;
    Ok(playout)
}

/// `sent` cycles came before.
fn turn<T: Trees, N: Notices, O: Output>(
    playout: &mut Playout,
    sent: u32,
    weigh: &Weigh,
    trees: &mut T,
    notices: &mut N,
    out: &mut O,
) -> Result<(), AirFault>
    requires { sent + 1 < 2 ^ 32 }
    ensures { (s : Sent) (cycles : ℕ) (first : T) (told : N) (start : OutputState)
        → s.weights ≡ weigh.now.weights
        → s.carousel < 4294967296
        → sent < cycles
        → IsPlaying s (T.answered first trees.old) (N.told told notices.old) sent start
        (O.state out.old) playout.old
        → Turns s sent cycles (T.answered first trees.new) (N.told told notices.new) result start
        (O.state out.new) playout.new }
{
    playouts_are_broadcasts();
    playouts_can_be_packed();
    take_next(playout, sent, trees, notices, out)?;
    playout.send_cycle(weigh, out)?;
    Ok(())
}

/// Makes another tree the next generation.
fn take_next<T: Trees, N: Notices, O: Output>(
    playout: &mut Playout,
    sent: u32,
    trees: &mut T,
    notices: &mut N,
    out: &mut O,
) -> Result<(), AirFault>
    requires { sent + 1 < 2 ^ 32 }
    ensures { (s : Sent) (cycles : ℕ) (first : T) (told : N) (start : OutputState)
        → s.carousel < 4294967296
        → sent < cycles
        → IsPlaying s (T.answered first trees.old) (N.told told notices.old) sent start
        (O.state out.old) playout.old
        → Takes s sent cycles (T.answered first trees.new) (N.told told notices.new) result start
        (O.state out.new) playout.new }
{
    playouts_are_broadcasts();
    playouts_can_be_packed();
    let Some(tree) = next_tree(playout, trees.read(), sent, notices)? else {
        return Ok(());
    };
    if playout.is_last() {
        playout.end(out)?;
        return Err(AirFault::SeasonFull);
    }
    let difference = playout.renew(tree, out)?;
    notices.began(playout.number(), sent + 1, difference);
    Ok(())
}

/// None if no other tree than the one on the air was read.
fn next_tree<N: Notices>(
    playout: &Playout,
    read: Result<Publishable, Unread>,
    sent: u32,
    notices: &mut N,
) -> Result<Option<Publishable>, OutputFault>
    requires { sent + 1 < 2 ^ 32 }
    ensures next { IsNext playout.now.generation (sent + 1) read result }
    ensures told { (start : N) (before : List Notice)
        → N.told start notices.old before
        → N.told start notices.new
        (before ++ told_next playout.now.generation.number (sent + 1) read) }
{
    match read {
        Ok(tree) if playout.is_new(&tree) => Ok(Some(tree)),
        Ok(_) => Ok(None),
        Err(cause) if cause.is_no_memory() => Err(OutputFault::NoMemory),
        Err(cause) => {
            notices.kept(playout.number(), sent + 1, &cause);
            Ok(None)
        }
    }
}
