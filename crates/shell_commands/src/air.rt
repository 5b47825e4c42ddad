ghost use Rattle.std.specs.Prelude.{◌≡◌, ◌≤◌, ◌<◌, []};
ghost use Rattle.shell_streams.specs.Sending.{IsInTime, IsFlushed};
ghost use Rattle.shell_commands.specs.Air.{StaysOnAir};
ghost use Rattle.shell_commands.specs.Inner.Air.{fault_status, unread_status as status_of_unread};
ghost use Rattle.receiver_commands.specs.Over.{over, out_over};

use cycle_planner::Weigh;
use dsi_dii::LAST_GENERATION;
use folder_playout::{
    AirFault, FolderTrees, Notices, Unread, judged_as_first, keep_on_air, unchanged_is_published,
};
use folder_store::{Folders, TreeFault};
use generation_catalogue::Refusal;
use receiver_commands::Status;
use shell_streams::Output;
use std::alloc::Global;

/// Keeps a folder on the air: reads it before each cycle, and writes the cycle as packets (ISO/IEC
/// 13818-1, 2.4.3). Another tree is the next generation; one that can't be read or is refused
/// leaves the generation on the air.
///
/// `pid` is 0 to 8,191, `folder` a path text, `carousel` any 32-bit id, and `cycles` at least 1.
/// `notices` hear of each generation, and of each reading without a tree.
pub fn air<O: Output, F: Folders, N: Notices>(
    alloc: Global,
    pid: u16,
    folder: &str,
    carousel: u32,
    cycles: u32,
    weigh: &Weigh,
    out: &mut O,
    folders: &mut F,
    notices: &mut N,
) -> Status
    // What is handed in:
    requires pending { IsFlushed (O.state out.old) }
    requires in_range { pid < 8192 }
    requires some { 1 ≤ cycles }
    requires untold { N.told notices.old notices.old [] }
    // What is sent, and what is left:
    ensures stays { StaysOnAir pid folder.now carousel weigh.now.weights cycles result
        (out_over O.state out.old out.new) (over F.tree F.faults folders.old folders.new)
        (N.told notices.old notices.new) }
    ensures same { (O.state out.new).name ≡ (O.state out.old).name }
    ensures in_time { IsInTime (O.state out.old) (O.state out.new) }
{
    judged_as_first();
    unchanged_is_published();
    let mut trees = FolderTrees::new(alloc, folders, folder);
    match keep_on_air(
        alloc, pid, carousel, cycles, weigh, &mut trees, notices, out,
    ) {
        Ok(()) => Status::Done,
        Err(fault) => status_of(fault),
    }
}

fn status_of(fault: AirFault) -> Status
    ensures { result ≡ fault_status fault }
{
    match fault {
        AirFault::Unread(fault) => unread_status(fault),
        AirFault::SeasonFull => {
            Status::TreeRefused(TreeFault::Commit(Refusal::SeasonFull(LAST_GENERATION)))
        }
        AirFault::Output(fault) => Status::from(fault),
    }
}

fn unread_status(fault: Unread) -> Status
    ensures { result ≡ status_of_unread fault }
{
    match fault {
        Unread::Failed(_) => Status::FolderFault,
        Unread::Refused(fault, _) => Status::TreeRefused(fault),
        Unread::NoMemory => Status::NoMemory,
    }
}
